//! The table for the contents of UPDATEs (RFC 4271, sections 4.3 and 6.3; RFC 4760, sections 3 and 4).

use crate::cases::{Case, Cases, Expected, table};

/// A fault of code 3, subcode 1 at the place, from the first byte of the content.
fn at(place: u64) -> Expected {
    Expected::Update(3, 1, place)
}

/// Each refusal of the content of an UPDATE, at its first possible place and behind what is accepted, and contents that
/// are accepted.
pub fn update_cases() -> Cases<79> {
    table! {
        "the shortest content": &[0, 0, 0, 0] => Expected::Accepted,
        "withdrawn routes of IPv4": &[0, 3, 16, 10, 1, 0, 0] => Expected::Accepted,
        "routes of IPv4": &[0, 0, 0, 0, 16, 10, 1] => Expected::Accepted,
        "withdrawn routes that are no routes": &[0, 1, 255, 0, 0] => Expected::Accepted,
        "an attribute without a value": &[0, 0, 0, 3, 0x40, 6, 0] => Expected::Accepted,
        "a length of two bytes": &[0, 0, 0, 5, 0x50, 1, 0, 1, 0] => Expected::Accepted,
        "a length of two bytes that is 0": &[0, 0, 0, 4, 0xFF, 9, 0, 0] => Expected::Accepted,
        "the low flags set": &[0, 0, 0, 4, 0x4F, 1, 1, 0] => Expected::Accepted,
        "two of kind 1": &[0, 0, 0, 6, 0x40, 1, 0, 0x40, 1, 0] => Expected::Accepted,
        "two of kind 16": &[0, 0, 0, 6, 0xC0, 16, 0, 0xC0, 16, 0] => Expected::Accepted,
        "kinds 14 and 15": &[0, 0, 0, 12, 0x80, 14, 3, 0, 1, 1, 0x80, 15, 3, 0, 1, 1] => Expected::Accepted,
        "kind 14 of another AFI": &[0, 0, 0, 6, 0x80, 14, 3, 0, 30, 9] => Expected::Accepted,
        "kind 14 of another SAFI": &[0, 0, 0, 6, 0x80, 14, 3, 0, 31, 8] => Expected::Accepted,
        "kind 14 of AFI 287": &[0, 0, 0, 6, 0x80, 14, 3, 1, 31, 9] => Expected::Accepted,
        "kind 14 without routes": &[0, 0, 0, 12, 0x80, 14, 9, 0, 31, 9, 4, 10, 0, 0, 1, 0] => Expected::Accepted,
        "kind 14 with a next hop of 16 bytes": &[
            0, 0, 0, 24, 0x80, 14, 21, 0, 31, 9, 16, 1, 2, 3, 4, 5, 6, 7, 8, 9, 10, 11, 12, 13, 14, 15, 16, 0xFF
        ] => Expected::Accepted,
        "kind 14 with an instance": &[
            0, 0, 0, 26, 0x80, 14, 23, 0, 31, 9, 4, 10, 0, 0, 2, 0, 0, 1, 0, 10, 0, 0, 0xFD, 0xE8, 0, 0, 0, 1, 0, 41
        ] => Expected::Accepted,
        "kind 14 without flags": &[0, 0, 0, 12, 0, 14, 9, 0, 31, 9, 4, 10, 0, 0, 1, 0] => Expected::Accepted,
        "kind 15 without routes": &[0, 0, 0, 6, 0x80, 15, 3, 0, 31, 9] => Expected::Accepted,
        "kind 15 with a path": &[
            0, 0, 0, 21, 0x80, 15, 18, 0, 31, 9, 0, 2, 0, 11, 1, 2, 3, 4, 5, 6, 7, 8, 0, 0, 42
        ] => Expected::Accepted,
        "a route of type 0": &[0, 0, 0, 10, 0x80, 15, 7, 0, 31, 9, 0, 0, 0, 0] => Expected::Accepted,
        "a route of type 3": &[0, 0, 0, 12, 0x80, 15, 9, 0, 31, 9, 0, 3, 0, 2, 7, 7] => Expected::Accepted,
        "a route of type 257 with length 10": &[
            0, 0, 0, 20, 0x80, 15, 17, 0, 31, 9, 1, 1, 0, 10, 1, 2, 3, 4, 5, 6, 7, 8, 9, 10
        ] => Expected::Accepted,
        "a community": &[0, 0, 0, 11, 0xC0, 16, 8, 0, 2, 0xFD, 0xE8, 0, 0, 0, 1] => Expected::Accepted,
        "a community, partial": &[0, 0, 0, 11, 0xE0, 16, 8, 0, 2, 0xFD, 0xE8, 0, 0, 0, 1] => Expected::Accepted,
        "a community without the optional flag": &[0, 0, 0, 11, 0x40, 16, 8, 0, 2, 0xFD, 0xE8, 0, 0, 0, 1] => Expected::Accepted,
        "seven bytes of communities": &[0, 0, 0, 10, 0xC0, 16, 7, 0, 2, 0xFD, 0xE8, 0, 0, 0] => Expected::Accepted,
        "no communities": &[0, 0, 0, 3, 0xC0, 16, 0] => Expected::Accepted,
        "an empty content": &[] => at(0),
        "one byte": &[0] => at(0),
        "three bytes": &[0, 0, 0] => at(0),
        "three bytes with a length": &[255, 255, 255] => at(0),
        "a withdrawn length of 1 in four bytes": &[0, 1, 0, 0] => at(0),
        "a withdrawn length of 2 in five bytes": &[0, 2, 24, 0, 0] => at(0),
        "a withdrawn length of 65,535": &[255, 255, 0, 0, 0] => at(0),
        "an attribute length of 1 without attributes": &[0, 0, 0, 1] => at(2),
        "an attribute length of 65,535": &[0, 0, 255, 255, 0x40, 1, 0] => at(2),
        "an attribute length one past the end": &[0, 0, 0, 4, 0x40, 6, 0] => at(2),
        "an attribute length behind withdrawn routes": &[0, 2, 8, 10, 0, 1] => at(4),
        "an attribute length before a bad attribute": &[0, 0, 0, 3, 0x40, 1] => at(2),
        "one byte of an attribute": &[0, 0, 0, 1, 0x40] => at(4),
        "two bytes of an attribute": &[0, 0, 0, 2, 0x40, 1] => at(4),
        "half a length of two bytes": &[0, 0, 0, 3, 0x50, 1, 0] => at(4),
        "a value one byte past the list": &[0, 0, 0, 3, 0x40, 1, 1] => at(4),
        "a value past the list and not past the content": &[0, 0, 0, 3, 0x40, 1, 1, 0] => at(4),
        "a value of 256 bytes that is not there": &[0, 0, 0, 4, 0x50, 1, 1, 0] => at(4),
        "the last byte of the list": &[0, 0, 0, 4, 0x40, 6, 0, 0x40] => at(7),
        "an attribute behind withdrawn routes": &[0, 2, 8, 10, 0, 1, 0x40] => at(6),
        "kind 14 whose value runs past the list": &[0, 0, 0, 4, 0x80, 14, 3, 0] => at(4),
        "two of kind 14": &[0, 0, 0, 12, 0x80, 14, 3, 0, 1, 1, 0x80, 14, 3, 0, 1, 1] => at(10),
        "two of kind 15": &[0, 0, 0, 12, 0x80, 15, 3, 0, 31, 9, 0x80, 15, 3, 0, 31, 9] => at(10),
        "a second of kind 15 without a value": &[0, 0, 0, 9, 0x80, 15, 3, 0, 31, 9, 0x80, 15, 0] => at(10),
        "a second of kind 14 behind another": &[0, 0, 0, 15, 0x80, 14, 3, 0, 1, 1, 0x40, 6, 0, 0x80, 14, 3, 0, 1, 1] => at(13),
        "a bad attribute before a second of kind 15": &[0, 0, 0, 10, 0x80, 15, 3, 0, 31, 9, 0x80, 14, 0, 0x80] => at(10),
        "kind 14 without a value": &[0, 0, 0, 3, 0x80, 14, 0] => at(4),
        "kind 14 with two bytes": &[0, 0, 0, 5, 0x80, 14, 2, 0, 31] => at(4),
        "kind 15 without a value": &[0, 0, 0, 3, 0x80, 15, 0] => at(4),
        "kind 15 with two bytes": &[0, 0, 0, 5, 0x80, 15, 2, 0, 31] => at(4),
        "kind 14 without a next hop length": &[0, 0, 0, 6, 0x80, 14, 3, 0, 31, 9] => at(4),
        "kind 14 with a next hop length alone": &[0, 0, 0, 7, 0x80, 14, 4, 0, 31, 9, 4] => at(4),
        "a next hop of 0 bytes": &[0, 0, 0, 8, 0x80, 14, 5, 0, 31, 9, 0, 0] => at(4),
        "a next hop of 3 bytes": &[0, 0, 0, 11, 0x80, 14, 8, 0, 31, 9, 3, 10, 0, 0, 0] => at(4),
        "a next hop of 5 bytes": &[0, 0, 0, 13, 0x80, 14, 10, 0, 31, 9, 5, 10, 0, 0, 1, 1, 0] => at(4),
        "a next hop of 32 bytes that is not there": &[0, 0, 0, 8, 0x80, 14, 5, 0, 31, 9, 32, 0] => at(4),
        "a next hop past the value": &[0, 0, 0, 10, 0x80, 14, 7, 0, 31, 9, 4, 10, 0, 0] => at(4),
        "no reserved byte": &[0, 0, 0, 11, 0x80, 14, 8, 0, 31, 9, 4, 10, 0, 0, 1] => at(4),
        "one byte of a route in kind 14": &[0, 0, 0, 13, 0x80, 14, 10, 0, 31, 9, 4, 10, 0, 0, 1, 0, 0] => at(16),
        "a route behind a length of two bytes": &[0, 0, 0, 14, 0x90, 14, 0, 10, 0, 31, 9, 4, 10, 0, 0, 1, 0, 0] => at(17),
        "one byte of a route in kind 15": &[0, 0, 0, 7, 0x80, 15, 4, 0, 31, 9, 0] => at(10),
        "three bytes of a route": &[0, 0, 0, 9, 0x80, 15, 6, 0, 31, 9, 0, 3, 0] => at(10),
        "a route's body one byte past the value": &[0, 0, 0, 10, 0x80, 15, 7, 0, 31, 9, 0, 3, 0, 1] => at(10),
        "a route's body past the value and not past the list": &[
            0, 0, 0, 13, 0x80, 15, 7, 0, 31, 9, 0, 3, 0, 1, 0x40, 6, 0
        ] => at(10),
        "an instance with length 9": &[
            0, 0, 0, 19, 0x80, 15, 16, 0, 31, 9, 0, 1, 0, 9, 1, 2, 3, 4, 5, 6, 7, 8, 9
        ] => at(10),
        "an instance with length 11": &[
            0, 0, 0, 21, 0x80, 15, 18, 0, 31, 9, 0, 1, 0, 11, 1, 2, 3, 4, 5, 6, 7, 8, 9, 10, 11
        ] => at(10),
        "a path with length 10": &[
            0, 0, 0, 20, 0x80, 15, 17, 0, 31, 9, 0, 2, 0, 10, 1, 2, 3, 4, 5, 6, 7, 8, 9, 10
        ] => at(10),
        "a path with length 12": &[
            0, 0, 0, 22, 0x80, 15, 19, 0, 31, 9, 0, 2, 0, 12, 1, 2, 3, 4, 5, 6, 7, 8, 9, 10, 11, 12
        ] => at(10),
        "the second route": &[0, 0, 0, 11, 0x80, 15, 8, 0, 31, 9, 0, 3, 0, 0, 9] => at(14),
        "the last byte of the routes": &[0, 0, 0, 12, 0x80, 15, 9, 0, 31, 9, 0, 3, 0, 1, 7, 0] => at(15),
        "a route before a bad attribute": &[0, 0, 0, 8, 0x80, 15, 4, 0, 31, 9, 0, 0x40] => at(10),
    }
}
