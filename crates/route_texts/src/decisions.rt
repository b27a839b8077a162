//! Whether a word spells a value: said of every word, where the readers with memory say nothing after want of memory.
//! Nothing calls this but the law of readings.

ghost use Rattle.std.specs.Prelude.{◌∷◌, codes, MatchOption};
ghost use Rattle.text_words.specs.Pieces.{pieces_of};
ghost use Rattle.sfc_routes.specs.declared.routes.Route.{Route as OneRoute};
ghost use Rattle.route_texts.specs.RouteLines.{Each, SpellsRd, SpellsRds, SpellsTarget, SpellsTargets, SpellsSft, SpellsHop, SpellsSfir, SpellsSfpr, SpellsRoute};
ghost use Rattle.route_texts.specs.Decisions.{Decided, SfirBehind, SfprBehind};

use crate::hop_text::{hop_parts, sft_parts};
use crate::line_text::is_text;
use crate::target_text::read_target;
use text_words::{Pieces, read_octets};

/// An RD.
fn decide_rd(word: &[u8])
    ensures { Decided SpellsRd word.now }
{
    let _ = read_octets::<8>(word);
}

/// RDs joined by commas, at least one.
fn decide_some_rds(word: &[u8])
    ensures { Decided (λ w rds. Each SpellsRd (pieces_of 44 w) rds) word.now }
{
    let mut pieces = Pieces::of(word, b',');
    'pieces: while let Some(piece) = pieces.next() {
        decide_rd(piece);
    }
}

/// RDs joined by commas, perhaps none.
fn decide_rds(word: &[u8])
    ensures { Decided SpellsRds word.now }
{
    decide_some_rds(word);
}

/// A route target.
fn decide_target(word: &[u8])
    ensures { Decided SpellsTarget word.now }
{
    let _ = read_target(word);
}

/// Route targets joined by commas, at least one.
fn decide_some_targets(word: &[u8])
    ensures { Decided (λ w targets. Each SpellsTarget (pieces_of 44 w) targets) word.now }
{
    let mut pieces = Pieces::of(word, b',');
    'pieces: while let Some(piece) = pieces.next() {
        decide_target(piece);
    }
}

/// Route targets joined by commas, or a dash for none.
fn decide_targets(word: &[u8])
    ensures { Decided SpellsTargets word.now }
{
    decide_some_targets(word);
}

/// A type and its RDs.
fn decide_sft(word: &[u8])
    ensures { Decided SpellsSft word.now }
{
    let Some((_, list)) = sft_parts(word) else {
        return;
    };
    decide_rds(list);
}

/// Types joined by semicolons.
fn decide_sfts(word: &[u8])
    ensures { Decided (λ w sfts. Each SpellsSft (pieces_of 59 w) sfts) word.now }
{
    let mut pieces = Pieces::of(word, b';');
    'pieces: while let Some(piece) = pieces.next() {
        decide_sft(piece);
    }
}

/// A hop.
fn decide_hop(word: &[u8])
    ensures { Decided SpellsHop word.now }
{
    let Some((_, list)) = hop_parts(word) else {
        return;
    };
    decide_sfts(list);
}

/// The hops that the words left spell.
fn decide_hops(words: &mut Pieces)
    ensures { Decided (λ ws path. Each SpellsHop ws path) words.old }
{
    'words: while let Some(word) = words.next() {
        decide_hop(word);
    }
}

/// The word of the targets of an instance route, whose words behind the first one are given.
fn sfir_list<'a>(words: &mut Pieces<'a>) -> Option<&'a [u8]>
    ensures { MatchOption result ((v : OneRoute) → SpellsSfir (codes "sfir" ∷ words.old) v → ⊥) (λ list. SfirBehind words.old list.now) }
{
    let Some(_rd) = words.next_octets::<8>() else {
        return None;
    };
    let Some(_kind) = words.next_number(0, 65_535) else {
        return None;
    };
    let Some(_address) = words.next_address() else {
        return None;
    };
    let Some(list) = words.next() else {
        return None;
    };
    if !words.is_done() {
        return None;
    }
    Some(list)
}

/// The words of an instance route behind the first one.
fn decide_sfir(words: &mut Pieces)
    ensures { Decided (λ ws r. SpellsSfir (codes "sfir" ∷ ws) r) words.old }
{
    let Some(list) = sfir_list(words) else {
        return;
    };
    decide_targets(list);
}

/// The word of the targets of a path route; the words of its hops are left.
fn sfpr_list<'a>(words: &mut Pieces<'a>) -> Option<&'a [u8]>
    ensures { MatchOption result ((v : OneRoute) → SpellsSfpr (codes "sfpr" ∷ words.old) v → ⊥) (λ list. SfprBehind words.old list.now words.new) }
{
    let Some(_rd) = words.next_octets::<8>() else {
        return None;
    };
    let Some(_number) = words.next_number(0, 16_777_215) else {
        return None;
    };
    let Some(list) = words.next() else {
        return None;
    };
    if words.is_done() {
        return None;
    }
    Some(list)
}

/// The words of a path route behind the first one.
fn decide_sfpr(words: &mut Pieces)
    ensures { Decided (λ ws r. SpellsSfpr (codes "sfpr" ∷ ws) r) words.old }
{
    let Some(list) = sfpr_list(words) else {
        return;
    };
    decide_targets(list);
    decide_hops(words);
}

/// A line.
pub(crate) fn decide_line(line: &[u8])
    ensures { Decided SpellsRoute line.now }
{
    let mut words = Pieces::of(line, b' ');
    let Some(word) = words.next() else {
        return;
    };
    if is_text(word, b"sfir") {
        return decide_sfir(&mut words);
    }
    if is_text(word, b"sfpr") {
        return decide_sfpr(&mut words);
    }
}
