ghost use Rattle.std.specs.Prelude.{◌≡◌, ℕ, List, false, ◌+◌, ◌/◌, ◌%◌, ◌<◌};
ghost use Rattle.wire_base.specs.Numbers.{AreBytes};
ghost use Rattle.net_frames.specs.Words.{word};
ghost use Rattle.net_frames.specs.Captured.{Captured};
ghost use Rattle.net_frames.specs.Checksums.{fold};
ghost use Rattle.net_frames.specs.Layouts.{tags, network_of, checked_of};
ghost use Rattle.net_frames.specs.declared.layouts.Network.TheVariants.{Ipv4};
ghost use Rattle.net_frames.specs.declared.layouts.Checked.TheVariants.{Udp};
ghost use Rattle.net_frames.specs.Edits.{marked, readdressed, lowered, expires, untagged, tagged};
ghost use Rattle.net_frames.specs.declared.contents.Side.{Side};
ghost use Rattle.net_frames.specs.Right.{HasRightHeader, HasRightSegment, HasRightIpv6Segment};

/// A fold is what is left once the carries are added in: it leaves a sum without carries, and is
/// the same before and after they are added.
pub fn a_fold_adds_the_carries()
    ensures small { (n : ℕ) → n < 65536 → fold n ≡ n }
    ensures carried { (n : ℕ) → fold (n % 65536 + n / 65536) ≡ fold n }
{}

/// An IPv4 header whose checksum is right has a right one after each edit.
pub fn header_stays_right()
    ensures marked { (bytes : List ℕ) (dscp : ℕ) → AreBytes bytes → dscp < 64 → HasRightHeader bytes → HasRightHeader (marked bytes dscp) }
    ensures readdressed { (bytes : List ℕ) (side : Side) (to : List ℕ) → AreBytes bytes → AreBytes to → HasRightHeader bytes → HasRightHeader (readdressed bytes side to) }
    ensures lowered { (bytes : List ℕ) → AreBytes bytes → HasRightHeader bytes → HasRightHeader (lowered bytes) }
{}

/// A TCP or UDP segment of IPv4 whose checksum is right has a right one after each edit, where it is
/// captured whole and the packet is no fragment. A UDP checksum of 0, which says that there is none,
/// stays 0 in any frame.
pub fn segment_stays_right()
    ensures marked { (bytes : List ℕ) (dscp : ℕ) → AreBytes bytes → dscp < 64 → HasRightSegment bytes → HasRightSegment (marked bytes dscp) }
    ensures readdressed { (bytes : List ℕ) (side : Side) (to : List ℕ) → AreBytes bytes → AreBytes to → HasRightSegment bytes → HasRightSegment (readdressed bytes side to) }
    ensures lowered { (bytes : List ℕ) → AreBytes bytes → expires bytes ≡ false → HasRightSegment bytes → HasRightSegment (lowered bytes) }
    ensures unused { (bytes : List ℕ) (side : Side) (to : List ℕ) (at transport place : ℕ) → network_of bytes ≡ Ipv4 at transport → checked_of bytes at transport ≡ Udp place → word bytes place ≡ 0 → word (readdressed bytes side to) place ≡ 0 }
{}

/// What was right before a tag was taken out or put in is right after it. With a third tag nothing
/// behind the tags is found.
pub fn a_tag_leaves_checksums_right()
    ensures popped_header { (frame : Captured) → HasRightHeader frame.bytes → HasRightHeader (untagged frame).bytes }
    ensures popped_segment { (frame : Captured) → HasRightSegment frame.bytes → HasRightSegment (untagged frame).bytes }
    ensures pushed_header { (frame : Captured) (vid : ℕ) → tags frame.bytes < 2 → HasRightHeader frame.bytes → HasRightHeader (tagged frame vid).bytes }
    ensures pushed_segment { (frame : Captured) (vid : ℕ) → tags frame.bytes < 2 → HasRightSegment frame.bytes → HasRightSegment (tagged frame vid).bytes }
{}

/// A TCP or UDP segment of IPv6 whose checksum is right has a right one after each edit, where it is
/// captured whole and stands right behind the header. IPv6 has no header checksum, and no edit
/// changes its addresses.
pub fn ipv6_segment_stays_right()
    ensures marked { (bytes : List ℕ) (dscp : ℕ) → AreBytes bytes → dscp < 64 → HasRightIpv6Segment bytes → HasRightIpv6Segment (marked bytes dscp) }
    ensures readdressed { (bytes : List ℕ) (side : Side) (to : List ℕ) → HasRightIpv6Segment bytes → HasRightIpv6Segment (readdressed bytes side to) }
    ensures lowered { (bytes : List ℕ) → AreBytes bytes → expires bytes ≡ false → HasRightIpv6Segment bytes → HasRightIpv6Segment (lowered bytes) }
    ensures popped { (frame : Captured) → HasRightIpv6Segment frame.bytes → HasRightIpv6Segment (untagged frame).bytes }
    ensures pushed { (frame : Captured) (vid : ℕ) → tags frame.bytes < 2 → HasRightIpv6Segment frame.bytes → HasRightIpv6Segment (tagged frame vid).bytes }
{}
