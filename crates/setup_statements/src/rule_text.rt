//! The words of a rule.

ghost use Rattle.std.specs.Prelude.{◌≡◌, ◌≢◌, ◌≤◌, ◌↔◌, ℕ, List, Option, [], ◌∷◌, IsTrue, MatchOption};
ghost use Rattle.std.specs.Fmt.{decimal};
ghost use Rattle.text_words.specs.Reading.{Reads, ReadsFirst};
ghost use Rattle.classifier.specs.declared.rules.Rule.{Rule as OneRule};
ghost use Rattle.classifier.specs.Rules.{FitsIfAsked, IsPrefix, IsPorts, IsAction, IsRuleContext, address_bits};
ghost use Rattle.setup_statements.specs.RuleText.{star_or, prefix_text, ports_text, IsProtocolText, context_text, path_words, action_words, TellsRule};
ghost use Rattle.setup_statements.specs.Steps.{prefix_parts, ports_parts, IsPath};

use crate::function_text::read_port_protocol;
use crate::keywords::is_text;
use classifier::{Action, Prefix, Rule};
use nsh_metadata::{Context, ItemList};
use text_words::{Pieces, read_number, read_octets};
use wire_base::{NextHop, Spi};

/// Whether a word is a star, which asks for nothing.
fn is_star(word: &[u8]) -> bool
    ensures { IsTrue result ↔ (word.now ≡ 42 ∷ []) }
{
    is_text(word, b"*")
}

/// Takes the first word as a VLAN identifier or a star.
fn next_vlan(words: &mut Pieces) -> Option<Option<u16>>
    ensures { ReadsFirst (FitsIfAsked (λ v. v ≤ 4095)) (star_or decimal) words.old result words.new }
{
    let Some(word) = words.next() else {
        return None;
    };
    if is_star(word) {
        return Some(None);
    }
    match read_number(word, 0, 4095) {
        Some(vlan) => Some(Some(vlan as u16)),
        None => None,
    }
}

/// How many bits an address has.
fn bits_of(address: &NextHop) -> u64
    ensures { result ≡ address_bits address.now }
{
    match address {
        NextHop::Four(_) => 32,
        NextHop::Sixteen(_) => 128,
    }
}

/// An address and how many of its bits are compared.
fn read_prefix_parts(parts: &mut Pieces) -> Option<Prefix>
    ensures { Reads IsPrefix prefix_parts parts.old result }
{
    let Some(address) = parts.next_address() else {
        return None;
    };
    let Some(bits) = parts.next_number(0, bits_of(&address)) else {
        return None;
    };
    if !parts.is_done() {
        return None;
    }
    Some(Prefix {
        address,
        bits: bits as u8,
    })
}

/// Reads a network, with a slash between the address and the number of bits.
fn read_prefix(word: &[u8]) -> Option<Prefix>
    ensures { Reads IsPrefix prefix_text word.now result }
{
    let mut parts = Pieces::of(word, b'/');
    read_prefix_parts(&mut parts)
}

/// Takes the first word as a network or a star.
fn next_prefix(words: &mut Pieces) -> Option<Option<Prefix>>
    ensures { ReadsFirst (FitsIfAsked IsPrefix) (star_or prefix_text) words.old result words.new }
{
    let Some(word) = words.next() else {
        return None;
    };
    if is_star(word) {
        return Some(None);
    }
    match read_prefix(word) {
        Some(prefix) => Some(Some(prefix)),
        None => None,
    }
}

/// Reads a protocol by its name or its number, or a star.
fn read_protocol(word: &[u8]) -> Option<Option<u8>>
    ensures { MatchOption result ((p : Option ℕ) → IsProtocolText p word.now → ⊥) (λ p. IsProtocolText p word.now) }
{
    if is_star(word) {
        return Some(None);
    }
    if let Some(protocol) = read_port_protocol(word) {
        return Some(Some(protocol));
    }
    match read_number(word, 0, 255) {
        Some(protocol) => Some(Some(protocol as u8)),
        None => None,
    }
}

/// Takes the first word as a protocol or a star.
fn next_protocol(words: &mut Pieces) -> Option<Option<u8>>
    ensures { MatchOption result
        ((p : Option ℕ) (word : List ℕ) (others : List (List ℕ)) → IsProtocolText p word → words.old ≢ word ∷ others)
        (λ p. (word : List ℕ) × IsProtocolText p word × (words.old ≡ word ∷ words.new)) }
{
    let Some(word) = words.next() else {
        return None;
    };
    read_protocol(word)
}

/// The lowest and the highest port.
fn read_ports_parts(parts: &mut Pieces) -> Option<(u16, u16)>
    ensures { Reads IsPorts ports_parts parts.old result }
{
    let Some(low) = parts.next_number(0, 65_535) else {
        return None;
    };
    let Some(high) = parts.next_number(low, 65_535) else {
        return None;
    };
    if !parts.is_done() {
        return None;
    }
    Some((low as u16, high as u16))
}

/// Reads a range of ports, with a dash between the lowest and the highest.
fn read_ports(word: &[u8]) -> Option<(u16, u16)>
    ensures { Reads IsPorts ports_text word.now result }
{
    let mut parts = Pieces::of(word, b'-');
    read_ports_parts(&mut parts)
}

/// Takes the first word as a range of ports or a star.
fn next_ports(words: &mut Pieces) -> Option<Option<(u16, u16)>>
    ensures { ReadsFirst (FitsIfAsked IsPorts) (star_or ports_text) words.old result words.new }
{
    let Some(word) = words.next() else {
        return None;
    };
    if is_star(word) {
        return Some(None);
    }
    match read_ports(word) {
        Some(ports) => Some(Some(ports)),
        None => None,
    }
}

/// Reads the context that a path begins with: `md2` for no items, or `md1:` and the digits of 16 bytes.
fn read_context(word: &[u8]) -> Option<Context>
    ensures { Reads IsRuleContext context_text word.now result }
{
    if is_text(word, b"md2") {
        return Some(Context::Items(ItemList::new()));
    }
    let Some(digits) = word.strip_prefix(b"md1:") else {
        return None;
    };
    match read_octets::<16>(digits) {
        Some(bytes) => Some(Context::Fixed16(bytes)),
        None => None,
    }
}

/// Takes the first word as an SPI.
fn next_spi(words: &mut Pieces) -> Option<Spi>
    ensures { ReadsFirst (λ spi. spi ≤ 16777215) decimal words.old result words.new }
{
    let Some(number) = words.next_number(0, 16_777_215) else {
        return None;
    };
    Spi::of(number as u32)
}

/// Takes the first word as a context.
fn next_context(words: &mut Pieces) -> Option<Context>
    ensures { ReadsFirst IsRuleContext context_text words.old result words.new }
{
    let Some(word) = words.next() else {
        return None;
    };
    read_context(word)
}

/// A path's SPI, SI, TTL and context.
fn read_path(words: &mut Pieces) -> Option<(Spi, u8, u8, Context)>
    ensures { Reads IsPath path_words words.old result }
{
    let Some(spi) = next_spi(words) else {
        return None;
    };
    let Some(si) = words.next_number(1, 255) else {
        return None;
    };
    let Some(ttl) = words.next_number(1, 63) else {
        return None;
    };
    let Some(context) = next_context(words) else {
        return None;
    };
    if !words.is_done() {
        return None;
    }
    Some((spi, si as u8, ttl as u8, context))
}

/// What a frame gets.
fn read_action(words: &mut Pieces) -> Option<Action>
    ensures { Reads IsAction action_words words.old result }
{
    let Some(word) = words.next() else {
        return None;
    };
    if is_text(word, b"path") {
        return match read_path(words) {
            Some((spi, si, ttl, context)) => Some(Action::Path(spi, si, ttl, context)),
            None => None,
        };
    }
    if !words.is_done() {
        return None;
    }
    if is_text(word, b"bypass") {
        return Some(Action::Bypass);
    }
    if is_text(word, b"refuse") {
        return Some(Action::Refuse);
    }
    None
}

/// Reads a rule from its words, all of them.
pub(crate) fn read_rule(words: &mut Pieces) -> Option<Rule>
    ensures { MatchOption result ((r : OneRule) → TellsRule words.old r → ⊥) (λ r. TellsRule words.old r) }
{
    let Some(vlan) = next_vlan(words) else {
        return None;
    };
    let Some(from) = next_prefix(words) else {
        return None;
    };
    let Some(to) = next_prefix(words) else {
        return None;
    };
    let Some(protocol) = next_protocol(words) else {
        return None;
    };
    let Some(ports) = next_ports(words) else {
        return None;
    };
    let Some(action) = read_action(words) else {
        return None;
    };
    Some(Rule {
        vlan,
        from,
        to,
        protocol,
        ports,
        action,
    })
}
