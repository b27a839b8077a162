//! The table for Network Service Headers (RFC 8300, section 2).

use crate::cases::{Case, Cases, Expected, table};
use nsh_headers::NshFault;

/// No items: TTL 63, 2 words, MD Type 2, Ethernet, SPI 42, SI 255.
static PLAIN: [u8; 8] = [0x0F, 0xC2, 0x02, 0x03, 0x00, 0x00, 0x2A, 0xFF];

/// MD Type 1 with its 16 bytes.
static FIXED: [u8; 24] = [
    0x0F, 0xC6, 0x01, 0x03, 0x00, 0x00, 0x2A, 0xFF, 1, 2, 3, 4, 5, 6, 7, 8, 9, 10, 11, 12, 13, 14,
    15, 16,
];

/// One item of class 0123 and type 4, with 5 bytes of body and an odd pad.
static ONE_ITEM: [u8; 20] = [
    0x0F, 0xC5, 0x02, 0x03, 0x00, 0x00, 0x2A, 0xFF, 0x01, 0x23, 0x04, 0x05, 0x11, 0x22, 0x33, 0x44,
    0x55, 0xAA, 0xBB, 0xCC,
];

/// The same, with a length of 10, which passes the header's end.
static PAST_THE_END: [u8; 20] = [
    0x0F, 0xC5, 0x02, 0x03, 0x00, 0x00, 0x2A, 0xFF, 0x01, 0x23, 0x04, 0x0A, 0x11, 0x22, 0x33, 0x44,
    0x55, 0xAA, 0xBB, 0xCC,
];

/// The largest header, of 63 words and MD Type 2: 61 items without a body, which are 244 zero bytes.
static LARGEST: [u8; 252] = [
    0x0F, 0xFF, 0x02, 0x03, 0, 0, 0x2A, 0xFF, 0, 0, 0, 0, 0, 0, 0, 0, 0, 0, 0, 0, 0, 0, 0, 0, 0, 0,
    0, 0, 0, 0, 0, 0, 0, 0, 0, 0, 0, 0, 0, 0, 0, 0, 0, 0, 0, 0, 0, 0, 0, 0, 0, 0, 0, 0, 0, 0, 0, 0,
    0, 0, 0, 0, 0, 0, 0, 0, 0, 0, 0, 0, 0, 0, 0, 0, 0, 0, 0, 0, 0, 0, 0, 0, 0, 0, 0, 0, 0, 0, 0, 0,
    0, 0, 0, 0, 0, 0, 0, 0, 0, 0, 0, 0, 0, 0, 0, 0, 0, 0, 0, 0, 0, 0, 0, 0, 0, 0, 0, 0, 0, 0, 0, 0,
    0, 0, 0, 0, 0, 0, 0, 0, 0, 0, 0, 0, 0, 0, 0, 0, 0, 0, 0, 0, 0, 0, 0, 0, 0, 0, 0, 0, 0, 0, 0, 0,
    0, 0, 0, 0, 0, 0, 0, 0, 0, 0, 0, 0, 0, 0, 0, 0, 0, 0, 0, 0, 0, 0, 0, 0, 0, 0, 0, 0, 0, 0, 0, 0,
    0, 0, 0, 0, 0, 0, 0, 0, 0, 0, 0, 0, 0, 0, 0, 0, 0, 0, 0, 0, 0, 0, 0, 0, 0, 0, 0, 0, 0, 0, 0, 0,
    0, 0, 0, 0, 0, 0, 0, 0, 0, 0, 0, 0, 0, 0, 0, 0, 0, 0, 0, 0, 0, 0, 0, 0, 0, 0, 0, 0, 0, 0, 0, 0,
    0, 0,
];

/// The same, with a length of 1 in its last byte, which is that of its last item.
static LAST_PAST_THE_END: [u8; 252] = [
    0x0F, 0xFF, 0x02, 0x03, 0, 0, 0x2A, 0xFF, 0, 0, 0, 0, 0, 0, 0, 0, 0, 0, 0, 0, 0, 0, 0, 0, 0, 0,
    0, 0, 0, 0, 0, 0, 0, 0, 0, 0, 0, 0, 0, 0, 0, 0, 0, 0, 0, 0, 0, 0, 0, 0, 0, 0, 0, 0, 0, 0, 0, 0,
    0, 0, 0, 0, 0, 0, 0, 0, 0, 0, 0, 0, 0, 0, 0, 0, 0, 0, 0, 0, 0, 0, 0, 0, 0, 0, 0, 0, 0, 0, 0, 0,
    0, 0, 0, 0, 0, 0, 0, 0, 0, 0, 0, 0, 0, 0, 0, 0, 0, 0, 0, 0, 0, 0, 0, 0, 0, 0, 0, 0, 0, 0, 0, 0,
    0, 0, 0, 0, 0, 0, 0, 0, 0, 0, 0, 0, 0, 0, 0, 0, 0, 0, 0, 0, 0, 0, 0, 0, 0, 0, 0, 0, 0, 0, 0, 0,
    0, 0, 0, 0, 0, 0, 0, 0, 0, 0, 0, 0, 0, 0, 0, 0, 0, 0, 0, 0, 0, 0, 0, 0, 0, 0, 0, 0, 0, 0, 0, 0,
    0, 0, 0, 0, 0, 0, 0, 0, 0, 0, 0, 0, 0, 0, 0, 0, 0, 0, 0, 0, 0, 0, 0, 0, 0, 0, 0, 0, 0, 0, 0, 0,
    0, 0, 0, 0, 0, 0, 0, 0, 0, 0, 0, 0, 0, 0, 0, 0, 0, 0, 0, 0, 0, 0, 0, 0, 0, 0, 0, 0, 0, 0, 0, 0,
    0, 0x01,
];

/// The longest item: 127 bytes of body and one pad byte, in a header of 35 words.
static LONGEST_ITEM: [u8; 140] = [
    0x0F, 0xE3, 0x02, 0x77, 0x77, 0x77, 0x77, 0x77, 0x77, 0x77, 0x77, 0x7F, 0x77, 0x77, 0x77, 0x77,
    0x77, 0x77, 0x77, 0x77, 0x77, 0x77, 0x77, 0x77, 0x77, 0x77, 0x77, 0x77, 0x77, 0x77, 0x77, 0x77,
    0x77, 0x77, 0x77, 0x77, 0x77, 0x77, 0x77, 0x77, 0x77, 0x77, 0x77, 0x77, 0x77, 0x77, 0x77, 0x77,
    0x77, 0x77, 0x77, 0x77, 0x77, 0x77, 0x77, 0x77, 0x77, 0x77, 0x77, 0x77, 0x77, 0x77, 0x77, 0x77,
    0x77, 0x77, 0x77, 0x77, 0x77, 0x77, 0x77, 0x77, 0x77, 0x77, 0x77, 0x77, 0x77, 0x77, 0x77, 0x77,
    0x77, 0x77, 0x77, 0x77, 0x77, 0x77, 0x77, 0x77, 0x77, 0x77, 0x77, 0x77, 0x77, 0x77, 0x77, 0x77,
    0x77, 0x77, 0x77, 0x77, 0x77, 0x77, 0x77, 0x77, 0x77, 0x77, 0x77, 0x77, 0x77, 0x77, 0x77, 0x77,
    0x77, 0x77, 0x77, 0x77, 0x77, 0x77, 0x77, 0x77, 0x77, 0x77, 0x77, 0x77, 0x77, 0x77, 0x77, 0x77,
    0x77, 0x77, 0x77, 0x77, 0x77, 0x77, 0x77, 0x77, 0x77, 0x77, 0x77, 0x77,
];

/// The table for Network Service Headers. Where the answer is `Accepted`, the input is one header and no
/// more.
pub fn nsh_cases() -> Cases<36> {
    use Expected::{Accepted, Nsh};
    use NshFault::{Context, Length, MdType, Short, Version};
    table! {
        "no items": &PLAIN => Accepted,
        "16 bytes of context": &FIXED => Accepted,
        "one item with an odd pad": &ONE_ITEM => Accepted,
        "every unassigned bit set": &[0x1F, 0xC2, 0xF2, 0x03, 0, 0, 0x2A, 0xFF] => Accepted,
        "an item's unassigned bit set":
            &[0x0F, 0xC3, 0x02, 0x03, 0, 0, 0x2A, 0xFF, 0xFF, 0xF6, 0x04, 0x80] => Accepted,
        "the O bit and TTL 0": &[0x20, 0x02, 0x02, 0x03, 0, 0, 0x2A, 0xFF] => Accepted,
        "a Next Protocol that nobody assigned": &[0x0F, 0xC2, 0x02, 0x77, 0, 0, 0x2A, 0xFF] => Accepted,
        "the longest item": &LONGEST_ITEM => Accepted,
        "the largest header": &LARGEST => Accepted,
        "version 1 in a byte alone": &[0x4F] => Nsh(Version(1)),
        "version 3 in a whole header": &[0xCF, 0xC2, 0x02, 0x03, 0, 0, 0x2A, 0xFF] => Nsh(Version(3)),
        "version before MD Type": &[0x4F, 0xC6, 0x0F] => Nsh(Version(1)),
        "MD Type 0 at the third byte": &[0x0F, 0xC6, 0x00] => Nsh(MdType(0)),
        "MD Type 3": &[0x0F, 0xC6, 0x03, 0x03] => Nsh(MdType(3)),
        "MD Type 15 with 8 bytes": &[0x0F, 0xC6, 0x0F, 0x03, 0, 0, 0x2A, 0xFF] => Nsh(MdType(15)),
        "MD Type before Length": &[0x0F, 0xC0, 0x0F] => Nsh(MdType(15)),
        "Length 0 with MD Type 1": &[0x0F, 0xC0, 0x01] => Nsh(Length(0)),
        "Length 5 with MD Type 1": &[0x0F, 0xC5, 0x01, 0x03, 0, 0, 0x2A, 0xFF] => Nsh(Length(5)),
        "Length 7 with MD Type 1": &[0x0F, 0xC7, 0x01] => Nsh(Length(7)),
        "Length 63 with MD Type 1": &[0x0F, 0xFF, 0x01] => Nsh(Length(63)),
        "Length 0 with MD Type 2": &[0x0F, 0xC0, 0x02] => Nsh(Length(0)),
        "Length 1 with MD Type 2": &[0x0F, 0xC1, 0x02, 0x03, 0, 0, 0x2A, 0xFF] => Nsh(Length(1)),
        "the first item passes the end, at its fourth byte": &PAST_THE_END[..12] => Nsh(Context(8)),
        "the first item passes the end, in all bytes": &PAST_THE_END => Nsh(Context(8)),
        "the second item passes the end":
            &[0x0F, 0xC4, 0x02, 0x03, 0, 0, 0x2A, 0xFF, 0, 0, 0, 0, 0, 0, 0, 1] => Nsh(Context(12)),
        "the last item passes the end, at the last byte": &LAST_PAST_THE_END => Nsh(Context(248)),
        "nothing": &[] => Nsh(Short(0)),
        "one byte": &PLAIN[..1] => Nsh(Short(1)),
        "Length 0 before the MD Type is there": &[0x0F, 0xC0] => Nsh(Short(2)),
        "a head without its last byte": &PLAIN[..7] => Nsh(Short(7)),
        "a head without its fixed context": &FIXED[..8] => Nsh(Short(8)),
        "fixed context without its last byte": &FIXED[..23] => Nsh(Short(23)),
        "an item without its length": &ONE_ITEM[..11] => Nsh(Short(11)),
        "an item without its body": &ONE_ITEM[..12] => Nsh(Short(12)),
        "an item without its last pad byte": &ONE_ITEM[..19] => Nsh(Short(19)),
        "the largest header without its last byte": &LARGEST[..251] => Nsh(Short(251)),
    }
}
