ghost use Rattle.std.specs.Prelude.{◌≡◌, ◌≤◌, ◌++◌, length, take, OnOk, OnErr};
ghost use Rattle.wire_base.specs.Numbers.{two, four, eight};
ghost use Rattle.control_files.specs.Segments.{head_bytes, segment_bytes};
ghost use Rattle.control_files.specs.Steps.{segment_of};

use crate::segments::SegmentHead;
use wire_base::{Bytes, OutOfMemory};

fn two_bytes(number: u16) -> [u8; 2]
    ensures { result ≡ two number }
{
    number.to_be_bytes()
}

fn four_bytes(number: u32) -> [u8; 4]
    ensures { result ≡ four number }
{
    number.to_be_bytes()
}

fn eight_bytes(number: u64) -> [u8; 8]
    ensures { result ≡ eight number }
{
    number.to_be_bytes()
}

/// The 23 bytes before a segment's own: kind, peer, moment, position and length, the highest byte first.
#[tactic(auto, unfolding(crate::specs::Segments::head_bytes))]
pub fn segment_head(kind: u8, peer: u16, moment: u64, position: u64, length: u32) -> [u8; 23]
    ensures { result ≡ head_bytes kind peer moment position length }
{
    let [p0, p1] = two_bytes(peer);
    let [m0, m1, m2, m3, m4, m5, m6, m7] = eight_bytes(moment);
    let [f0, f1, f2, f3, f4, f5, f6, f7] = eight_bytes(position);
    let [l0, l1, l2, l3] = four_bytes(length);
    [
        kind, p0, p1, m0, m1, m2, m3, m4, m5, m6, m7, f0, f1, f2, f3, f4, f5, f6, f7, l0, l1, l2,
        l3,
    ]
}

/// Appends a segment as it stands in a file: the head, whose length is that of the bytes, and then the bytes. Where there is no
/// memory, what was there before still stands at the front.
pub fn append_segment(out: &mut Bytes, head: SegmentHead, bytes: &[u8]) -> Result<(), OutOfMemory>
    requires { head.length ≡ length bytes.now }
    ensures ok { OnOk result (out.new ≡ out.old ++ segment_bytes (segment_of head bytes.now)) }
    ensures err { OnErr result (take (length out.old) out.new ≡ out.old) }
{
    out.push_all(&segment_head(
        head.kind,
        head.peer,
        head.moment,
        head.position,
        head.length,
    ))?;
    out.push_all(bytes)
}
