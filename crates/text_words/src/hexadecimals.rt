//! Bytes as hexadecimal digits in lower case.

ghost use Rattle.std.specs.List.{AllPass};
ghost use Rattle.std.specs.Prelude.{◌≡◌, ◌≢◌, ◌≤◌, ◌<◌, ◌^◌, ◌*◌, ◌++◌, ℕ, List, [], ◌∷◌, length, IsTrue, ◌↔◌, MatchBool, OnOk, OnErr};
ghost use Rattle.wire_base.specs.Numbers.{AreBytes};
ghost use Rattle.text_words.specs.Reading.{Reads};
ghost use Rattle.text_words.specs.Hexadecimal.{hexadecimal, IsOctets, IsUpToOctets, four_digits, octets_or_dash, is_lower_digit};
ghost use Rattle.text_words.specs.Printing.{AppendsFront};

use arrayvec::ArrayVec;
use wire_base::{Bytes, Fixed, OutOfMemory, be_u16};

/// How many bytes are printed as digits in one go.
const RUN: usize = 128;

/// Whether a byte is a digit in lower case.
fn is_digit(byte: u8) -> bool
    ensures { result ≡ is_lower_digit byte }
{
    byte.is_ascii_digit() || (b'a'..=b'f').contains(&byte)
}

/// Whether all bytes of a word are digits in lower case.
fn are_digits(word: &[u8]) -> bool
    ensures { IsTrue result ↔ AllPass is_lower_digit word.now }
{
    word.iter().all(|byte| is_digit(*byte))
}

/// Writes the bytes whose digits a word is. Where it is not the digits of as many bytes as there is
/// room for, nothing is said of the room.
fn fill_octets(word: &[u8], room: &mut [u8]) -> bool
    ensures len { length room.new ≡ length room.old }
    ensures value { MatchBool result (AreBytes room.new × (word.now ≡ hexadecimal room.new))
        ((bytes : List ℕ) → IsOctets (length room.old) bytes → word.now ≢ hexadecimal bytes) }
{
    // The kit's `hex` reads upper case as well.
    if !are_digits(word) {
        return false;
    }
    match hex::decode_to_slice(word, room) {
        Ok(()) => true,
        Err(_) => false,
    }
}

/// Reads the digits of exactly N bytes.
pub fn read_octets<const N: usize>(word: &[u8]) -> Option<Fixed<N>>
    ensures { Reads (IsOctets N) hexadecimal word.now result }
{
    let mut room = [0; N];
    if !fill_octets(word, &mut room) {
        return None;
    }
    Fixed::of(&room)
}

/// Reads four digits as a number.
pub fn read_four_digits(word: &[u8]) -> Option<u16>
    ensures { Reads (λ n. n < 2 ^ 16) four_digits word.now result }
{
    match read_octets::<2>(word) {
        Some(octets) => Some(be_u16(octets.bytes())),
        None => None,
    }
}

/// Whether a word is a dash.
fn is_dash(word: &[u8]) -> bool
    ensures { IsTrue result ↔ (word.now ≡ 45 ∷ []) }
{
    matches!(word, [b'-'])
}

/// Reads the digits of 1 to N bytes, or a dash for none.
pub fn read_octets_or_dash<const N: usize>(word: &[u8]) -> Option<ArrayVec<u8, N>>
    ensures { Reads (λ octets. IsUpToOctets N octets.items) (λ octets. octets_or_dash octets.items) word.now result }
{
    let mut octets = ArrayVec::new();
    if is_dash(word) {
        return Some(octets);
    }
    let count = word.len() / 2;
    if count == 0 {
        return None;
    }
    if N < count {
        return None;
    }
    let mut room = [0; N];
    let filled = &mut room[..count];
    if !fill_octets(word, filled) {
        return None;
    }
    match octets.try_extend_from_slice(filled) {
        Ok(()) => Some(octets),
        Err(_) => None,
    }
}

/// Appends the digits of a run of bytes.
fn print_run(out: &mut Bytes, octets: &[u8]) -> Result<(), OutOfMemory>
    requires { length octets.now ≤ 128 }
    ensures ok { OnOk result (out.new ≡ out.old ++ hexadecimal octets.now) }
    ensures err { OnErr result (out.new ≡ out.old) }
{
    let mut digits = [0; 2 * RUN];
    let lower = &mut digits[..2 * octets.len()];
    match hex::encode_to_slice(octets, lower) {
        Ok(()) => out.push_all(lower),
        Err(_) => Err(OutOfMemory),
    }
}

/// Appends the digits of some bytes, however many.
pub fn print_octets(out: &mut Bytes, octets: &[u8]) -> Result<(), OutOfMemory>
    ensures ok { OnOk result (out.new ≡ out.old ++ hexadecimal octets.now) }
    ensures err { OnErr result (AppendsFront out.old (hexadecimal octets.now) out.new) }
{
    let mut rest = octets;
    while rest.len() > RUN {
        let (run, behind) = rest.split_at(RUN);
        print_run(out, run)?;
        rest = behind;
    }
    print_run(out, rest)?;
    Ok(())
}

/// Appends a number as four digits.
pub fn print_four_digits(out: &mut Bytes, number: u16) -> Result<(), OutOfMemory>
    ensures ok { OnOk result (out.new ≡ out.old ++ four_digits number) }
    ensures err { OnErr result (out.new ≡ out.old) }
{
    print_run(out, &number.to_be_bytes())
}

/// Appends the digits of some bytes, or a dash for none.
pub fn print_octets_or_dash(out: &mut Bytes, octets: &[u8]) -> Result<(), OutOfMemory>
    ensures ok { OnOk result (out.new ≡ out.old ++ octets_or_dash octets.now) }
    ensures err { OnErr result (AppendsFront out.old (octets_or_dash octets.now) out.new) }
{
    if octets.is_empty() {
        out.push_all(b"-")?;
        return Ok(());
    }
    print_octets(out, octets)
}

/// N bytes are N numbers below 256, which is all that this says.
pub fn octets_are_bytes<const N: usize>(octets: &Fixed<N>)
    ensures { IsOctets N octets.now }
{
    are_bytes(octets.bytes());
}

/// The bytes of a slice are below 256.
fn are_bytes(bytes: &[u8])
    ensures { AreBytes bytes.now }
{}
