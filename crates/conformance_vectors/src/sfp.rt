//! The tables for the values of SFP attributes (after RFC 9015, section 3.2).

use crate::cases::{Case, Cases, Expected, table};
use sfp_attribute::SfpFault;

/// Fewer than 3 bytes of a part at the place.
fn short(place: u64) -> Expected {
    Expected::Sfp(SfpFault::Short(place))
}

/// An MPLS form of this kind.
fn mpls(kind: u8) -> Expected {
    Expected::Sfp(SfpFault::Mpls(kind))
}

/// A kind that may not stand there.
fn kind(kind: u8) -> Expected {
    Expected::Sfp(SfpFault::Kind(kind))
}

/// A length that does not fit, of the part at the place.
fn length(place: u64) -> Expected {
    Expected::Sfp(SfpFault::Length(place))
}

/// A service index (SI) that is 0, or does not fall.
fn order(si: u8) -> Expected {
    Expected::Sfp(SfpFault::Order(si))
}

/// A service function type below 32.
fn low_type(kind: u16) -> Expected {
    Expected::Sfp(SfpFault::SfType(kind))
}

/// No hop at the end.
fn no_hop() -> Expected {
    Expected::Sfp(SfpFault::NoHop)
}

/// A hop of each service index (SI) from 255 to 1.
static EVERY_SI: [u8; 1020] = [
    2, 0, 1, 255, 2, 0, 1, 254, 2, 0, 1, 0xFD, 2, 0, 1, 252, 2, 0, 1, 251, 2, 0, 1, 250, 2, 0, 1,
    249, 2, 0, 1, 248, 2, 0, 1, 247, 2, 0, 1, 246, 2, 0, 1, 245, 2, 0, 1, 244, 2, 0, 1, 243, 2, 0,
    1, 242, 2, 0, 1, 241, 2, 0, 1, 240, 2, 0, 1, 239, 2, 0, 1, 238, 2, 0, 1, 237, 2, 0, 1, 236, 2,
    0, 1, 235, 2, 0, 1, 234, 2, 0, 1, 233, 2, 0, 1, 0xE8, 2, 0, 1, 231, 2, 0, 1, 230, 2, 0, 1, 229,
    2, 0, 1, 228, 2, 0, 1, 227, 2, 0, 1, 226, 2, 0, 1, 225, 2, 0, 1, 224, 2, 0, 1, 223, 2, 0, 1,
    222, 2, 0, 1, 221, 2, 0, 1, 220, 2, 0, 1, 219, 2, 0, 1, 218, 2, 0, 1, 217, 2, 0, 1, 216, 2, 0,
    1, 215, 2, 0, 1, 214, 2, 0, 1, 213, 2, 0, 1, 212, 2, 0, 1, 211, 2, 0, 1, 210, 2, 0, 1, 209, 2,
    0, 1, 208, 2, 0, 1, 207, 2, 0, 1, 206, 2, 0, 1, 205, 2, 0, 1, 204, 2, 0, 1, 203, 2, 0, 1, 202,
    2, 0, 1, 201, 2, 0, 1, 200, 2, 0, 1, 199, 2, 0, 1, 198, 2, 0, 1, 197, 2, 0, 1, 196, 2, 0, 1,
    195, 2, 0, 1, 194, 2, 0, 1, 193, 2, 0, 1, 192, 2, 0, 1, 191, 2, 0, 1, 190, 2, 0, 1, 189, 2, 0,
    1, 188, 2, 0, 1, 187, 2, 0, 1, 186, 2, 0, 1, 185, 2, 0, 1, 184, 2, 0, 1, 183, 2, 0, 1, 182, 2,
    0, 1, 181, 2, 0, 1, 180, 2, 0, 1, 179, 2, 0, 1, 178, 2, 0, 1, 177, 2, 0, 1, 176, 2, 0, 1, 175,
    2, 0, 1, 174, 2, 0, 1, 173, 2, 0, 1, 172, 2, 0, 1, 171, 2, 0, 1, 170, 2, 0, 1, 169, 2, 0, 1,
    168, 2, 0, 1, 167, 2, 0, 1, 166, 2, 0, 1, 165, 2, 0, 1, 164, 2, 0, 1, 163, 2, 0, 1, 162, 2, 0,
    1, 161, 2, 0, 1, 160, 2, 0, 1, 159, 2, 0, 1, 158, 2, 0, 1, 157, 2, 0, 1, 156, 2, 0, 1, 155, 2,
    0, 1, 154, 2, 0, 1, 153, 2, 0, 1, 152, 2, 0, 1, 151, 2, 0, 1, 150, 2, 0, 1, 149, 2, 0, 1, 148,
    2, 0, 1, 147, 2, 0, 1, 146, 2, 0, 1, 145, 2, 0, 1, 144, 2, 0, 1, 143, 2, 0, 1, 142, 2, 0, 1,
    141, 2, 0, 1, 140, 2, 0, 1, 139, 2, 0, 1, 138, 2, 0, 1, 137, 2, 0, 1, 136, 2, 0, 1, 135, 2, 0,
    1, 134, 2, 0, 1, 133, 2, 0, 1, 132, 2, 0, 1, 131, 2, 0, 1, 130, 2, 0, 1, 129, 2, 0, 1, 128, 2,
    0, 1, 127, 2, 0, 1, 126, 2, 0, 1, 125, 2, 0, 1, 124, 2, 0, 1, 123, 2, 0, 1, 122, 2, 0, 1, 121,
    2, 0, 1, 120, 2, 0, 1, 0x77, 2, 0, 1, 118, 2, 0, 1, 117, 2, 0, 1, 116, 2, 0, 1, 115, 2, 0, 1,
    114, 2, 0, 1, 113, 2, 0, 1, 112, 2, 0, 1, 111, 2, 0, 1, 110, 2, 0, 1, 109, 2, 0, 1, 108, 2, 0,
    1, 107, 2, 0, 1, 106, 2, 0, 1, 105, 2, 0, 1, 104, 2, 0, 1, 103, 2, 0, 1, 102, 2, 0, 1, 101, 2,
    0, 1, 100, 2, 0, 1, 99, 2, 0, 1, 98, 2, 0, 1, 97, 2, 0, 1, 96, 2, 0, 1, 95, 2, 0, 1, 94, 2, 0,
    1, 93, 2, 0, 1, 92, 2, 0, 1, 91, 2, 0, 1, 90, 2, 0, 1, 89, 2, 0, 1, 88, 2, 0, 1, 87, 2, 0, 1,
    86, 2, 0, 1, 85, 2, 0, 1, 84, 2, 0, 1, 83, 2, 0, 1, 82, 2, 0, 1, 81, 2, 0, 1, 80, 2, 0, 1, 79,
    2, 0, 1, 78, 2, 0, 1, 77, 2, 0, 1, 76, 2, 0, 1, 75, 2, 0, 1, 74, 2, 0, 1, 73, 2, 0, 1, 72, 2,
    0, 1, 71, 2, 0, 1, 70, 2, 0, 1, 69, 2, 0, 1, 68, 2, 0, 1, 67, 2, 0, 1, 66, 2, 0, 1, 65, 2, 0,
    1, 64, 2, 0, 1, 63, 2, 0, 1, 62, 2, 0, 1, 61, 2, 0, 1, 60, 2, 0, 1, 59, 2, 0, 1, 58, 2, 0, 1,
    57, 2, 0, 1, 56, 2, 0, 1, 55, 2, 0, 1, 54, 2, 0, 1, 53, 2, 0, 1, 52, 2, 0, 1, 51, 2, 0, 1, 50,
    2, 0, 1, 49, 2, 0, 1, 48, 2, 0, 1, 47, 2, 0, 1, 46, 2, 0, 1, 45, 2, 0, 1, 44, 2, 0, 1, 43, 2,
    0, 1, 42, 2, 0, 1, 41, 2, 0, 1, 40, 2, 0, 1, 39, 2, 0, 1, 38, 2, 0, 1, 37, 2, 0, 1, 36, 2, 0,
    1, 35, 2, 0, 1, 34, 2, 0, 1, 33, 2, 0, 1, 32, 2, 0, 1, 31, 2, 0, 1, 30, 2, 0, 1, 29, 2, 0, 1,
    28, 2, 0, 1, 27, 2, 0, 1, 26, 2, 0, 1, 25, 2, 0, 1, 24, 2, 0, 1, 23, 2, 0, 1, 22, 2, 0, 1, 21,
    2, 0, 1, 20, 2, 0, 1, 19, 2, 0, 1, 18, 2, 0, 1, 17, 2, 0, 1, 16, 2, 0, 1, 15, 2, 0, 1, 14, 2,
    0, 1, 13, 2, 0, 1, 12, 2, 0, 1, 11, 2, 0, 1, 10, 2, 0, 1, 9, 2, 0, 1, 8, 2, 0, 1, 7, 2, 0, 1,
    6, 2, 0, 1, 5, 2, 0, 1, 4, 2, 0, 1, 3, 2, 0, 1, 2, 2, 0, 1, 1,
];

/// A part of kind 6 with 256 bytes, and a hop.
static LONG_VALUE: [u8; 263] = [
    6, 1, 0, 0x77, 0x77, 0x77, 0x77, 0x77, 0x77, 0x77, 0x77, 0x77, 0x77, 0x77, 0x77, 0x77, 0x77,
    0x77, 0x77, 0x77, 0x77, 0x77, 0x77, 0x77, 0x77, 0x77, 0x77, 0x77, 0x77, 0x77, 0x77, 0x77, 0x77,
    0x77, 0x77, 0x77, 0x77, 0x77, 0x77, 0x77, 0x77, 0x77, 0x77, 0x77, 0x77, 0x77, 0x77, 0x77, 0x77,
    0x77, 0x77, 0x77, 0x77, 0x77, 0x77, 0x77, 0x77, 0x77, 0x77, 0x77, 0x77, 0x77, 0x77, 0x77, 0x77,
    0x77, 0x77, 0x77, 0x77, 0x77, 0x77, 0x77, 0x77, 0x77, 0x77, 0x77, 0x77, 0x77, 0x77, 0x77, 0x77,
    0x77, 0x77, 0x77, 0x77, 0x77, 0x77, 0x77, 0x77, 0x77, 0x77, 0x77, 0x77, 0x77, 0x77, 0x77, 0x77,
    0x77, 0x77, 0x77, 0x77, 0x77, 0x77, 0x77, 0x77, 0x77, 0x77, 0x77, 0x77, 0x77, 0x77, 0x77, 0x77,
    0x77, 0x77, 0x77, 0x77, 0x77, 0x77, 0x77, 0x77, 0x77, 0x77, 0x77, 0x77, 0x77, 0x77, 0x77, 0x77,
    0x77, 0x77, 0x77, 0x77, 0x77, 0x77, 0x77, 0x77, 0x77, 0x77, 0x77, 0x77, 0x77, 0x77, 0x77, 0x77,
    0x77, 0x77, 0x77, 0x77, 0x77, 0x77, 0x77, 0x77, 0x77, 0x77, 0x77, 0x77, 0x77, 0x77, 0x77, 0x77,
    0x77, 0x77, 0x77, 0x77, 0x77, 0x77, 0x77, 0x77, 0x77, 0x77, 0x77, 0x77, 0x77, 0x77, 0x77, 0x77,
    0x77, 0x77, 0x77, 0x77, 0x77, 0x77, 0x77, 0x77, 0x77, 0x77, 0x77, 0x77, 0x77, 0x77, 0x77, 0x77,
    0x77, 0x77, 0x77, 0x77, 0x77, 0x77, 0x77, 0x77, 0x77, 0x77, 0x77, 0x77, 0x77, 0x77, 0x77, 0x77,
    0x77, 0x77, 0x77, 0x77, 0x77, 0x77, 0x77, 0x77, 0x77, 0x77, 0x77, 0x77, 0x77, 0x77, 0x77, 0x77,
    0x77, 0x77, 0x77, 0x77, 0x77, 0x77, 0x77, 0x77, 0x77, 0x77, 0x77, 0x77, 0x77, 0x77, 0x77, 0x77,
    0x77, 0x77, 0x77, 0x77, 0x77, 0x77, 0x77, 0x77, 0x77, 0x77, 0x77, 0x77, 0x77, 0x77, 0x77, 0x77,
    0x77, 0x77, 2, 0, 1, 255,
];

/// Values that are accepted, and each refusal of what a part says, or that no part is a hop: at its first possible place and
/// behind what is accepted.
pub fn sfp_value_cases() -> Cases<38> {
    table! {
        "a hop with a type and an RD": &[2, 0, 14, 255, 3, 0, 10, 0, 41, 0, 0, 0xFD, 0xE8, 0, 0, 0, 1] => Expected::Accepted,
        "a hop without a type": &[2, 0, 1, 255] => Expected::Accepted,
        "a hop of SI 1": &[2, 0, 1, 1] => Expected::Accepted,
        "hops that fall by 1": &[2, 0, 1, 2, 2, 0, 1, 1] => Expected::Accepted,
        "hops of 255 and 1": &[2, 0, 1, 255, 2, 0, 1, 1] => Expected::Accepted,
        "hops of every SI from 255 to 1": &EVERY_SI => Expected::Accepted,
        "type 32 without RDs": &[2, 0, 6, 255, 3, 0, 2, 0, 32] => Expected::Accepted,
        "type 287": &[2, 0, 6, 255, 3, 0, 2, 1, 31] => Expected::Accepted,
        "type 65,535": &[2, 0, 6, 255, 3, 0, 2, 255, 255] => Expected::Accepted,
        "a type with two RDs": &[2, 0, 22, 9, 3, 0, 18, 0, 44, 0, 0, 0xFD, 0xE8, 0, 0, 0, 1, 0, 0, 0xFD, 0xE8, 0, 0, 0, 2] => Expected::Accepted,
        "two types in a hop": &[2, 0, 19, 9, 3, 0, 2, 0, 44, 3, 0, 10, 0, 45, 0, 0, 0xFD, 0xE8, 0, 0, 0, 1] => Expected::Accepted,
        "an association before a hop": &[1, 0, 12, 1, 0, 0, 0xFD, 0xE8, 0, 0, 0, 43, 0, 0, 43, 2, 0, 1, 255] => Expected::Accepted,
        "associations of types 0 and 255 behind a hop": &[2, 0, 1, 255, 1, 0, 12, 0, 0, 0, 0xFD, 0xE8, 0, 0, 0, 43, 0, 0, 43, 1, 0, 12, 255, 0, 0, 0xFD, 0xE8, 0, 0, 0, 43, 0, 0, 43] => Expected::Accepted,
        "kind 6 before a hop": &[6, 0, 0, 2, 0, 1, 255] => Expected::Accepted,
        "kind 255 before a hop": &[255, 0, 2, 7, 7, 2, 0, 1, 255] => Expected::Accepted,
        "kind 6 in a hop": &[2, 0, 4, 255, 6, 0, 0] => Expected::Accepted,
        "kind 255 in a hop": &[2, 0, 7, 255, 255, 0, 3, 4, 0, 0] => Expected::Accepted,
        "a kept value that is no part": &[6, 0, 1, 4, 2, 0, 1, 255] => Expected::Accepted,
        "a value of 256 bytes": &LONG_VALUE => Expected::Accepted,
        "what stands between hops": &[2, 0, 14, 255, 3, 0, 10, 0, 41, 0, 0, 0xFD, 0xE8, 0, 0, 0, 1, 9, 0, 1, 1, 1, 0, 12, 1, 0, 0, 0xFD, 0xE8, 0, 0, 0, 43, 0, 0, 43, 2, 0, 6, 254, 3, 0, 2, 0, 42] => Expected::Accepted,
        "nothing": &[] => no_hop(),
        "an association alone": &[1, 0, 12, 1, 0, 0, 0xFD, 0xE8, 0, 0, 0, 43, 0, 0, 43] => no_hop(),
        "kind 6 alone": &[6, 0, 0] => no_hop(),
        "kind 255 alone": &[255, 0, 4, 2, 0, 1, 255] => no_hop(),
        "SI 0": &[2, 0, 1, 0] => order(0),
        "SI 0 before its parts": &[2, 0, 2, 0, 4] => order(0),
        "SI 0 behind SI 1": &[2, 0, 1, 1, 2, 0, 1, 0] => order(0),
        "SI 255 twice": &[2, 0, 1, 255, 2, 0, 1, 255] => order(255),
        "SI 1 twice": &[2, 0, 1, 1, 2, 0, 1, 1] => order(1),
        "SI 255 behind SI 250": &[2, 0, 1, 250, 2, 0, 1, 255] => order(255),
        "SI 254 behind SI 253, not next to it": &[2, 0, 1, 255, 2, 0, 1, 0xFD, 6, 0, 0, 1, 0, 12, 1, 0, 0, 0xFD, 0xE8, 0, 0, 0, 43, 0, 0, 43, 2, 0, 1, 254] => order(254),
        "an SI that does not fall before its parts": &[2, 0, 1, 9, 2, 0, 4, 9, 4, 0, 0] => order(9),
        "type 0": &[2, 0, 6, 255, 3, 0, 2, 0, 0] => low_type(0),
        "type 31": &[2, 0, 6, 255, 3, 0, 2, 0, 31] => low_type(31),
        "type 31 with an RD": &[2, 0, 14, 255, 3, 0, 10, 0, 31, 0, 0, 0xFD, 0xE8, 0, 0, 0, 1] => low_type(31),
        "type 31 behind type 32": &[2, 0, 11, 255, 3, 0, 2, 0, 32, 3, 0, 2, 0, 31] => low_type(31),
        "type 1 in a second hop": &[2, 0, 6, 255, 3, 0, 2, 0, 32, 2, 0, 6, 254, 3, 0, 2, 0, 1] => low_type(1),
        "type 0 before one byte": &[2, 0, 6, 255, 3, 0, 2, 0, 0, 2] => low_type(0),
    }
}

/// Each refusal of what stands before a part's value, at its first possible place, inside of a hop and behind what is accepted.
pub fn sfp_head_cases() -> Cases<48> {
    table! {
        "one byte": &[2] => short(0),
        "two bytes": &[2, 0] => short(0),
        "two bytes of an MPLS form": &[4, 0] => short(0),
        "one byte behind a hop": &[2, 0, 1, 255, 0] => short(4),
        "two bytes behind a hop": &[2, 0, 1, 255, 2, 0] => short(4),
        "one byte in a hop": &[2, 0, 2, 255, 3] => short(4),
        "two bytes in a hop": &[2, 0, 3, 255, 4, 0] => short(4),
        "two bytes in a hop before a further part": &[2, 0, 3, 255, 3, 0, 6, 0, 0] => short(4),
        "one byte behind a type in a hop": &[2, 0, 7, 255, 3, 0, 2, 0, 32, 9] => short(9),
        "kind 4": &[4, 0, 0] => mpls(4),
        "kind 5": &[5, 0, 0] => mpls(5),
        "kind 4 in place of a hop": &[4, 0, 14, 255, 3, 0, 10, 0, 41, 0, 0, 0xFD, 0xE8, 0, 0, 0, 1] => mpls(4),
        "kind 4 before its length": &[4, 255, 255] => mpls(4),
        "kind 5 behind a hop": &[2, 0, 1, 255, 5, 0, 0] => mpls(5),
        "kind 4 in a hop": &[2, 0, 4, 255, 4, 0, 0] => mpls(4),
        "kind 5 in a hop": &[2, 0, 4, 255, 5, 0, 0] => mpls(5),
        "kind 4 in a hop before its length": &[2, 0, 4, 255, 4, 255, 255] => mpls(4),
        "kind 5 behind a type in a hop": &[2, 0, 9, 255, 3, 0, 2, 0, 32, 5, 0, 0] => mpls(5),
        "kind 0": &[0, 0, 0] => kind(0),
        "kind 3 outside of a hop": &[3, 0, 2, 0, 32] => kind(3),
        "kind 3 before its length": &[3, 255, 255] => kind(3),
        "kind 0 behind a hop": &[2, 0, 1, 255, 0, 0, 0] => kind(0),
        "kind 3 behind a hop": &[2, 0, 1, 255, 3, 0, 10, 0, 41, 0, 0, 0xFD, 0xE8, 0, 0, 0, 1] => kind(3),
        "kind 0 in a hop": &[2, 0, 4, 255, 0, 0, 0] => kind(0),
        "kind 1 in a hop": &[2, 0, 16, 255, 1, 0, 12, 1, 0, 0, 0xFD, 0xE8, 0, 0, 0, 43, 0, 0, 43] => kind(1),
        "kind 2 in a hop": &[2, 0, 5, 255, 2, 0, 1, 254] => kind(2),
        "kind 2 in a hop before its length": &[2, 0, 4, 255, 2, 255, 255] => kind(2),
        "kind 1 behind a type in a hop": &[2, 0, 9, 255, 3, 0, 2, 0, 32, 1, 0, 0] => kind(1),
        "a value one byte past the end": &[6, 0, 1] => length(0),
        "a value of 65,535 bytes that is not there": &[6, 255, 255, 0] => length(0),
        "a hop of SI 0 past the end": &[2, 0, 2, 0] => length(0),
        "an association past the end": &[1, 0, 12, 1] => length(0),
        "an association of 0 bytes": &[1, 0, 0] => length(0),
        "an association of 11 bytes": &[1, 0, 11, 1, 0, 0, 0xFD, 0xE8, 0, 0, 0, 43, 0, 0] => length(0),
        "an association of 13 bytes": &[1, 0, 13, 1, 0, 0, 0xFD, 0xE8, 0, 0, 0, 43, 0, 0, 43, 0] => length(0),
        "an association of 11 bytes behind a hop": &[2, 0, 1, 255, 1, 0, 11, 1, 0, 0, 0xFD, 0xE8, 0, 0, 0, 43, 0, 0] => length(4),
        "a hop of 0 bytes": &[2, 0, 0] => length(0),
        "a second hop of 0 bytes": &[2, 0, 1, 255, 2, 0, 0] => length(4),
        "a type of 0 bytes": &[2, 0, 4, 255, 3, 0, 0] => length(4),
        "a type of 1 byte": &[2, 0, 5, 255, 3, 0, 1, 0] => length(4),
        "a type and 1 byte": &[2, 0, 7, 255, 3, 0, 3, 0, 32, 0] => length(4),
        "a type and 7 bytes": &[2, 0, 13, 255, 3, 0, 9, 0, 32, 0, 0, 0xFD, 0xE8, 0, 0, 0] => length(4),
        "a type and 9 bytes": &[2, 0, 15, 255, 3, 0, 11, 0, 32, 0, 0, 0xFD, 0xE8, 0, 0, 0, 1, 0] => length(4),
        "an RD past its hop": &[2, 0, 6, 255, 3, 0, 10, 0, 41, 0, 0, 0xFD, 0xE8, 0, 0, 0, 1] => length(4),
        "a kept part past its hop and not past the end": &[2, 0, 4, 255, 6, 0, 1, 6, 0, 0] => length(4),
        "a kept part past its hop behind a type": &[2, 0, 9, 255, 3, 0, 2, 0, 32, 6, 0, 1] => length(9),
        "a part of a hop before the next hop's SI": &[2, 0, 4, 9, 4, 0, 0, 2, 0, 1, 9] => mpls(4),
        "type 31 and 1 byte": &[2, 0, 7, 255, 3, 0, 3, 0, 31, 0] => length(4),
    }
}
