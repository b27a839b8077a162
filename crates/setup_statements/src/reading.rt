//! A statement from the words of its line.

ghost use Rattle.std.specs.Prelude.{◌≡◌, ◌<◌, ◌^◌, [], ◌∷◌, MatchOption};
ghost use Rattle.text_words.specs.Reading.{Reads, ReadsFirst};
ghost use Rattle.text_words.specs.Names.{IsName};
ghost use Rattle.text_words.specs.Hexadecimal.{IsOctets, hexadecimal};
ghost use Rattle.text_words.specs.Addresses.{dotted};
ghost use Rattle.bgp_session.specs.LocalSide.{IsLocal};
ghost use Rattle.setup_statements.specs.declared.statements.Statement.{Statement as OneStatement};
ghost use Rattle.setup_statements.specs.Statements.{octets_of, local_words, IsPeer, peer_words, IsForwarder, forwarder_words, mode_text, IsInstance, instance_words, keyword_of, Tells};

use crate::function_text::read_function;
use crate::keywords::{Keyword, is_text};
use crate::rule_text::read_rule;
use crate::statements::{Bound, Statement};
use bgp_session::Local;
use sfc_routes::{ForwarderEntry, InstanceEntry};
use text_words::{Name, Pieces, read_dotted};
use wire_base::{Fixed, be_u32};

/// Reads an identifier, the number of four bytes.
fn read_identifier(word: &[u8]) -> Option<u32>
    ensures { Reads (λ n. n < 2 ^ 32) (λ n. dotted (octets_of n)) word.now result }
{
    match read_dotted(word) {
        Some(octets) => Some(be_u32(octets.bytes())),
        None => None,
    }
}

/// Takes the first word as an identifier.
fn next_identifier(words: &mut Pieces) -> Option<u32>
    ensures { ReadsFirst (λ n. n < 2 ^ 32) (λ n. dotted (octets_of n)) words.old result words.new }
{
    let Some(word) = words.next() else {
        return None;
    };
    read_identifier(word)
}

/// AS number, identifier and hold time.
fn read_local(words: &mut Pieces) -> Option<Local>
    ensures { Reads IsLocal local_words words.old result }
{
    let Some(asn) = words.next_number(1, 4_294_967_295) else {
        return None;
    };
    let Some(id) = next_identifier(words) else {
        return None;
    };
    let Some(hold) = words.next_number(0, 65_535) else {
        return None;
    };
    if !words.is_done() {
        return None;
    }
    Local::of(asn as u32, id, hold as u16)
}

/// A target.
fn read_target(words: &mut Pieces) -> Option<Fixed<8>>
    ensures { Reads (IsOctets 8) (λ t. hexadecimal t ∷ []) words.old result }
{
    let Some(target) = words.next_octets::<8>() else {
        return None;
    };
    if !words.is_done() {
        return None;
    }
    Some(target)
}

/// A peer's number and AS.
fn read_peer(words: &mut Pieces) -> Option<(u16, u32)>
    ensures { Reads IsPeer peer_words words.old result }
{
    let Some(number) = words.next_number(1, 65_535) else {
        return None;
    };
    let Some(asn) = words.next_number(1, 4_294_967_295) else {
        return None;
    };
    if !words.is_done() {
        return None;
    }
    Some((number as u16, asn as u32))
}

/// A forwarder's name and address.
fn read_forwarder(words: &mut Pieces) -> Option<ForwarderEntry>
    ensures { Reads IsForwarder forwarder_words words.old result }
{
    let Some(name) = words.next_name() else {
        return None;
    };
    let Some(address) = words.next_address() else {
        return None;
    };
    if !words.is_done() {
        return None;
    }
    Some(ForwarderEntry { name, address })
}

/// A name.
fn read_ingress(words: &mut Pieces) -> Option<Name>
    ensures { Reads IsName (λ n. n ∷ []) words.old result }
{
    let Some(name) = words.next_name() else {
        return None;
    };
    if !words.is_done() {
        return None;
    }
    Some(name)
}

/// Reads whether an instance is behind a proxy.
fn read_mode(word: &[u8]) -> Option<bool>
    ensures { Reads (λ proxy. Unit {0}) mode_text word.now result }
{
    if is_text(word, b"proxy") {
        return Some(true);
    }
    if is_text(word, b"aware") {
        return Some(false);
    }
    None
}

/// Takes the first word as `proxy` or `aware`.
fn next_mode(words: &mut Pieces) -> Option<bool>
    ensures { ReadsFirst (λ proxy. Unit {0}) mode_text words.old result words.new }
{
    let Some(word) = words.next() else {
        return None;
    };
    read_mode(word)
}

/// An instance's name, RD and type, and what serves there.
fn read_instance(words: &mut Pieces) -> Option<(InstanceEntry, Bound)>
    ensures { Reads IsInstance instance_words words.old result }
{
    let Some(name) = words.next_name() else {
        return None;
    };
    let Some(rd) = words.next_octets::<8>() else {
        return None;
    };
    let Some(kind) = words.next_number(32, 65_535) else {
        return None;
    };
    let Some(proxy) = next_mode(words) else {
        return None;
    };
    let Some(function) = read_function(words) else {
        return None;
    };
    let entry = InstanceEntry {
        name,
        rd,
        kind: kind as u16,
    };
    Some((entry, Bound { proxy, function }))
}

/// Reads the words behind a keyword, all of them, as its statement; None exactly where they tell none.
pub fn read_statement(keyword: Keyword, words: &mut Pieces) -> Option<Statement>
    ensures { MatchOption result
        ((s : OneStatement) → keyword_of s ≡ keyword → Tells words.old s → ⊥)
        (λ s. (keyword_of s ≡ keyword) × Tells words.old s) }
{
    match keyword {
        Keyword::Local => match read_local(words) {
            Some(local) => Some(Statement::Local(local)),
            None => None,
        },
        Keyword::Target => match read_target(words) {
            Some(target) => Some(Statement::Target(target)),
            None => None,
        },
        Keyword::Peer => match read_peer(words) {
            Some(peer) => Some(Statement::Peer(peer)),
            None => None,
        },
        Keyword::Forwarder => match read_forwarder(words) {
            Some(forwarder) => Some(Statement::Forwarder(forwarder)),
            None => None,
        },
        Keyword::Ingress => match read_ingress(words) {
            Some(name) => Some(Statement::Ingress(name)),
            None => None,
        },
        Keyword::Instance => match read_instance(words) {
            Some((entry, bound)) => Some(Statement::Instance(entry, bound)),
            None => None,
        },
        Keyword::Rule => match read_rule(words) {
            Some(rule) => Some(Statement::Rule(rule)),
            None => None,
        },
    }
}
