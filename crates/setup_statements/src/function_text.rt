//! The words of a function.

ghost use Rattle.std.specs.Prelude.{◌≡◌, ◌≤◌, [], ◌∷◌, true};
ghost use Rattle.std.specs.Fmt.{decimal};
ghost use Rattle.text_words.specs.Reading.{Reads, ReadsFirst};
ghost use Rattle.text_words.specs.Numbers.{IsWithin};
ghost use Rattle.text_words.specs.Hexadecimal.{IsOctets, four_digits};
ghost use Rattle.text_words.specs.Addresses.{dotted};
ghost use Rattle.service_functions.specs.Functions.{has_ports, IsFunction};
ghost use Rattle.setup_statements.specs.FunctionText.{port_protocol, side_text, firewall_words, nat_words, meta_words, stamp_words, told_words, function_words};
ghost use Rattle.setup_statements.specs.Steps.{IsFirewall, IsNat, IsMeta, IsStamp, IsFunctionOf};

use crate::keywords::{FunctionWord, is_text};
use arrayvec::ArrayVec;
use net_frames::Side;
use service_functions::Function;
use text_words::{Pieces, read_dotted, read_four_digits, read_octets_or_dash};
use wire_base::Fixed;

/// A protocol with ports, by its name.
pub(crate) fn read_port_protocol(word: &[u8]) -> Option<u8>
    ensures { Reads (λ p. has_ports p ≡ true) port_protocol word.now result }
{
    if is_text(word, b"tcp") {
        return Some(6);
    }
    if is_text(word, b"udp") {
        return Some(17);
    }
    None
}

/// Takes the first word as a protocol with ports.
fn next_port_protocol(words: &mut Pieces) -> Option<u8>
    ensures { ReadsFirst (λ p. has_ports p ≡ true) port_protocol words.old result words.new }
{
    let Some(word) = words.next() else {
        return None;
    };
    read_port_protocol(word)
}

/// A side by its name.
fn read_side(word: &[u8]) -> Option<Side>
    ensures { Reads (λ s. Unit {0}) side_text word.now result }
{
    if is_text(word, b"source") {
        return Some(Side::Source);
    }
    if is_text(word, b"destination") {
        return Some(Side::Destination);
    }
    None
}

/// Takes the first word as a side.
fn next_side(words: &mut Pieces) -> Option<Side>
    ensures { ReadsFirst (λ s. Unit {0}) side_text words.old result words.new }
{
    let Some(word) = words.next() else {
        return None;
    };
    read_side(word)
}

/// Takes the first word as four numbers joined by points.
fn next_dotted(words: &mut Pieces) -> Option<Fixed<4>>
    ensures { ReadsFirst (IsOctets 4) dotted words.old result words.new }
{
    let Some(word) = words.next() else {
        return None;
    };
    read_dotted(word)
}

/// Takes the first word as four digits.
fn next_four_digits(words: &mut Pieces) -> Option<u16>
    ensures { ReadsFirst (IsWithin 0 65535) four_digits words.old result words.new }
{
    let Some(word) = words.next() else {
        return None;
    };
    read_four_digits(word)
}

/// What a firewall is told.
fn read_firewall(words: &mut Pieces) -> Option<(u8, u16, u16)>
    ensures { Reads IsFirewall firewall_words words.old result }
{
    let Some(protocol) = next_port_protocol(words) else {
        return None;
    };
    let Some(low) = words.next_number(0, 65_535) else {
        return None;
    };
    let Some(high) = words.next_number(low, 65_535) else {
        return None;
    };
    if !words.is_done() {
        return None;
    }
    Some((protocol, low as u16, high as u16))
}

/// One number from 0 to `most`.
fn read_only_number(words: &mut Pieces, most: u64) -> Option<u64>
    ensures { Reads (λ n. n ≤ most) (λ n. decimal n ∷ []) words.old result }
{
    let Some(number) = words.next_number(0, most) else {
        return None;
    };
    if !words.is_done() {
        return None;
    }
    Some(number)
}

/// What address translation is told.
fn read_nat(words: &mut Pieces) -> Option<(Side, Fixed<4>, Fixed<4>)>
    ensures { Reads IsNat nat_words words.old result }
{
    let Some(side) = next_side(words) else {
        return None;
    };
    let Some(from) = next_dotted(words) else {
        return None;
    };
    let Some(to) = next_dotted(words) else {
        return None;
    };
    if !words.is_done() {
        return None;
    }
    Some((side, from, to))
}

/// A class and a type.
fn read_meta(words: &mut Pieces) -> Option<(u16, u8)>
    ensures { Reads IsMeta meta_words words.old result }
{
    let Some(class) = next_four_digits(words) else {
        return None;
    };
    let Some(kind) = words.next_number(0, 255) else {
        return None;
    };
    if !words.is_done() {
        return None;
    }
    Some((class, kind as u8))
}

/// A class, a type and a body.
fn read_stamp(words: &mut Pieces) -> Option<(u16, u8, ArrayVec<u8, 127>)>
    ensures { Reads IsStamp stamp_words words.old result }
{
    let Some(class) = next_four_digits(words) else {
        return None;
    };
    let Some(kind) = words.next_number(0, 255) else {
        return None;
    };
    let Some(word) = words.next() else {
        return None;
    };
    let Some(body) = read_octets_or_dash(word) else {
        return None;
    };
    if !words.is_done() {
        return None;
    }
    Some((class, kind as u8, body))
}

/// A function that is told nothing.
fn read_bare(words: &mut Pieces, function: Function) -> Option<Function>
    ensures { Reads (λ f. f ≡ function) (λ f. []) words.old result }
{
    if !words.is_done() {
        return None;
    }
    Some(function)
}

/// What a function with this word is told.
fn read_told(kind: FunctionWord, words: &mut Pieces) -> Option<Function>
    ensures { Reads (IsFunctionOf kind) told_words words.old result }
{
    match kind {
        FunctionWord::Pass => read_bare(words, Function::Pass),
        FunctionWord::Firewall => match read_firewall(words) {
            Some((protocol, low, high)) => Some(Function::Firewall {
                protocol,
                low,
                high,
            }),
            None => None,
        },
        FunctionWord::Remark => match read_only_number(words, 63) {
            Some(dscp) => Some(Function::Remark(dscp as u8)),
            None => None,
        },
        FunctionWord::Nat => match read_nat(words) {
            Some((side, from, to)) => Some(Function::Nat { side, from, to }),
            None => None,
        },
        FunctionWord::HopLimit => read_bare(words, Function::HopLimit),
        FunctionWord::PushVlan => match read_only_number(words, 4095) {
            Some(vid) => Some(Function::PushVlan(vid as u16)),
            None => None,
        },
        FunctionWord::PopVlan => read_bare(words, Function::PopVlan),
        FunctionWord::Stamp => match read_stamp(words) {
            Some((class, kind, body)) => Some(Function::Stamp { class, kind, body }),
            None => None,
        },
        FunctionWord::RequireMeta => match read_meta(words) {
            Some((class, kind)) => Some(Function::RequireMeta { class, kind }),
            None => None,
        },
        FunctionWord::ClearMeta => read_bare(words, Function::ClearMeta),
    }
}

/// Reads a function from its words, all of them.
pub(crate) fn read_function(words: &mut Pieces) -> Option<Function>
    ensures { Reads IsFunction function_words words.old result }
{
    let Some(word) = words.next() else {
        return None;
    };
    let Some(kind) = FunctionWord::of(word) else {
        return None;
    };
    read_told(kind, words)
}
