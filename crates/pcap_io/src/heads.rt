ghost use Rattle.std.specs.Prelude.{◌≡◌};
ghost use Rattle.pcap_io.specs.Heads.{file_head, magic_of as magic_of_form, packet_head_of};

use crate::forms::{Form, half_bytes, word_bytes};
use crate::frames::MAX_CAPTURED;

const MAGIC_MICROSECONDS: u32 = 0xA1B2_C3D4;

const MAGIC_NANOSECONDS: u32 = 0xA1B2_3C4D;

pub const MAJOR: u16 = 2;

pub const MINOR: u16 = 4;

pub const ETHERNET: u32 = 1;

/// The number that tells the unit of the fractions, and by its bytes the order of all others.
pub fn magic_of(form: Form) -> u32
    ensures { result ≡ magic_of_form form }
{
    if form.nano {
        MAGIC_NANOSECONDS
    } else {
        MAGIC_MICROSECONDS
    }
}

/// The 24 bytes of a file header: magic, version 2.4, zone and accuracy 0, snapshot length 262,144,
/// link type Ethernet.
pub fn capture_head(form: Form) -> [u8; 24]
    ensures { result ≡ file_head form }
{
    let [m0, m1, m2, m3] = word_bytes(form, magic_of(form));
    let [v0, v1] = half_bytes(form, MAJOR);
    let [v2, v3] = half_bytes(form, MINOR);
    let [z0, z1, z2, z3] = word_bytes(form, 0);
    let [s0, s1, s2, s3] = word_bytes(form, MAX_CAPTURED);
    let [l0, l1, l2, l3] = word_bytes(form, ETHERNET);
    [
        m0, m1, m2, m3, v0, v1, v2, v3, z0, z1, z2, z3, z0, z1, z2, z3, s0, s1, s2, s3, l0, l1, l2,
        l3,
    ]
}

/// The 16 bytes before a frame: its seconds and fraction, its captured and its original length.
pub fn packet_head(
    form: Form,
    seconds: u32,
    fraction: u32,
    captured: u32,
    original: u32,
) -> [u8; 16]
    ensures { result ≡ packet_head_of form seconds fraction captured original }
{
    let [s0, s1, s2, s3] = word_bytes(form, seconds);
    let [f0, f1, f2, f3] = word_bytes(form, fraction);
    let [c0, c1, c2, c3] = word_bytes(form, captured);
    let [o0, o1, o2, o3] = word_bytes(form, original);
    [
        s0, s1, s2, s3, f0, f1, f2, f3, c0, c1, c2, c3, o0, o1, o2, o3,
    ]
}
