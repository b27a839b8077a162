//! The word of an end.

ghost use Rattle.std.specs.Prelude.{◌≡◌, ◌≢◌, ◌≤◌, ℕ, List, [], ◌∷◌, ◌++◌, OnOk, OnErr, MatchOption, codes};
ghost use Rattle.std.specs.Fmt.{decimal};
ghost use Rattle.text_words.specs.Reading.{Reads};
ghost use Rattle.text_words.specs.Printing.{AppendsFront};
ghost use Rattle.record_text.specs.Names.{IsInstance, instance_text};
ghost use Rattle.record_text.specs.Ends.{bracketed, reason_text, ReasonNames, ReasonFits, end_text as text_of, EndNames, EndFits};
ghost use Rattle.record_text.specs.Steps.{reason_word_text, closed, told_pieces, reason_pieces, IsReasonOf};

use crate::fields::{before_bracket, behind_label, is_text};
use crate::printing::{say, say_number};
use crate::reason_words::ReasonWord;
use crate::records::{End, Reason};
use crate::roster_names::{read_instance, roster_is_kept, say_instance};
use sfc_routes::Roster;
use text_words::{Pieces, read_number};
use wire_base::{Bytes, InstanceId, OutOfMemory};

/// No further piece.
fn read_bare(pieces: &mut Pieces, reason: Reason) -> Option<Reason>
    ensures { Reads (λ r. r ≡ reason) (λ r. []) pieces.old result }
{
    if !pieces.is_done() {
        return None;
    }
    Some(reason)
}

/// The last piece, without the bracket that ends it.
fn read_last<'a>(pieces: &mut Pieces<'a>) -> Option<&'a [u8]>
    ensures { MatchOption result ((text : List ℕ) → pieces.old ≢ closed text) (λ text. pieces.old ≡ closed text.now) }
{
    let Some(piece) = pieces.next() else {
        return None;
    };
    if !pieces.is_done() {
        return None;
    }
    before_bracket(piece)
}

/// A service index in brackets.
fn read_index(pieces: &mut Pieces) -> Option<u8>
    ensures { Reads (λ si. si ≤ 255) (λ si. closed (decimal si)) pieces.old result }
{
    let Some(text) = read_last(pieces) else {
        return None;
    };
    match read_number(text, 0, 255) {
        Some(si) => Some(si as u8),
        None => None,
    }
}

/// The name of an instance in brackets.
fn read_at(pieces: &mut Pieces, roster: &Roster) -> Option<InstanceId>
    ensures { Reads (IsInstance roster.now) (λ i. closed (instance_text roster.now i)) pieces.old result }
{
    let Some(text) = read_last(pieces) else {
        return None;
    };
    read_instance(text, roster)
}

/// What a reason with this first word tells more.
fn read_told(word: ReasonWord, pieces: &mut Pieces, roster: &Roster) -> Option<Reason>
    ensures { Reads (IsReasonOf roster.now word) (told_pieces roster.now) pieces.old result }
{
    match word {
        ReasonWord::Rule => read_bare(pieces, Reason::Rule),
        ReasonWord::NshIngress => read_bare(pieces, Reason::NshIngress),
        ReasonWord::Ttl => read_bare(pieces, Reason::Ttl),
        ReasonWord::NoPath => read_bare(pieces, Reason::NoPath),
        ReasonWord::NoInstance => match read_index(pieces) {
            Some(si) => Some(Reason::NoInstance(si)),
            None => None,
        },
        ReasonWord::Denied => match read_at(pieces, roster) {
            Some(id) => Some(Reason::Denied(id)),
            None => None,
        },
        ReasonWord::HopLimit => match read_at(pieces, roster) {
            Some(id) => Some(Reason::HopLimit(id)),
            None => None,
        },
        ReasonWord::Meta => match read_at(pieces, roster) {
            Some(id) => Some(Reason::Meta(id)),
            None => None,
        },
        ReasonWord::MetaFull => match read_at(pieces, roster) {
            Some(id) => Some(Reason::MetaFull(id)),
            None => None,
        },
        ReasonWord::TooLong => match read_at(pieces, roster) {
            Some(id) => Some(Reason::TooLong(id)),
            None => None,
        },
    }
}

/// A reason by its pieces, cut at opening brackets.
fn read_pieces(pieces: &mut Pieces, roster: &Roster) -> Option<Reason>
    ensures { Reads (ReasonFits roster.now) (reason_pieces roster.now) pieces.old result }
{
    let Some(piece) = pieces.next() else {
        return None;
    };
    let Some(word) = ReasonWord::of(piece) else {
        return None;
    };
    read_told(word, pieces, roster)
}

/// Reads why a frame was dropped.
fn read_reason(text: &[u8], roster: &Roster) -> Option<Reason>
    ensures { Reads (ReasonFits roster.now) (reason_text roster.now) text.now result }
{
    roster_is_kept(roster);
    let mut pieces = Pieces::of(text, b'(');
    read_pieces(&mut pieces, roster)
}

/// Reads how a walk ended.
pub(crate) fn read_end(text: &[u8], roster: &Roster) -> Option<End>
    ensures { Reads (EndFits roster.now) (text_of roster.now) text.now result }
{
    if is_text(text, b"egress") {
        return Some(End::Egress);
    }
    if is_text(text, b"bypass") {
        return Some(End::Bypass);
    }
    let Some(reason) = behind_label(text, b"drop:") else {
        return None;
    };
    match read_reason(reason, roster) {
        Some(reason) => Some(End::Drop(reason)),
        None => None,
    }
}

/// Appends the word of a reason.
fn say_reason_word(out: &mut Bytes, word: ReasonWord) -> Result<(), OutOfMemory>
    ensures ok { OnOk result (out.new ≡ out.old ++ reason_word_text word) }
    ensures err { OnErr result (AppendsFront out.old (reason_word_text word) out.new) }
{
    say(out, word.text().as_bytes())
}

/// Appends the word of a reason, and in brackets a service index.
fn say_index(out: &mut Bytes, word: ReasonWord, si: u8) -> Result<(), OutOfMemory>
    ensures ok { OnOk result (out.new ≡ out.old ++ bracketed (reason_word_text word) (decimal si)) }
    ensures err { OnErr result (AppendsFront out.old (bracketed (reason_word_text word) (decimal si)) out.new) }
{
    say_reason_word(out, word)?;
    say_number(out, b"(", u64::from(si))?;
    out.push_all(b")")?;
    Ok(())
}

/// Appends the word of a reason, and in brackets the name of an instance.
fn say_at(
    out: &mut Bytes,
    word: ReasonWord,
    id: InstanceId,
    roster: &Roster,
) -> Result<(), OutOfMemory>
    requires { IsInstance roster.now id }
    ensures ok { OnOk result (out.new ≡ out.old ++ bracketed (reason_word_text word) (instance_text roster.now id)) }
    ensures err { OnErr result (AppendsFront out.old (bracketed (reason_word_text word) (instance_text roster.now id)) out.new) }
{
    say_reason_word(out, word)?;
    out.push_all(b"(")?;
    say_instance(out, id, roster)?;
    out.push_all(b")")?;
    Ok(())
}

/// Appends why a frame was dropped.
fn say_reason(out: &mut Bytes, reason: Reason, roster: &Roster) -> Result<(), OutOfMemory>
    requires { ReasonNames roster.now reason }
    ensures ok { OnOk result (out.new ≡ out.old ++ reason_text roster.now reason) }
    ensures err { OnErr result (AppendsFront out.old (reason_text roster.now reason) out.new) }
{
    match reason {
        Reason::Rule => say_reason_word(out, ReasonWord::Rule),
        Reason::NshIngress => say_reason_word(out, ReasonWord::NshIngress),
        Reason::Ttl => say_reason_word(out, ReasonWord::Ttl),
        Reason::NoPath => say_reason_word(out, ReasonWord::NoPath),
        Reason::NoInstance(si) => say_index(out, ReasonWord::NoInstance, si),
        Reason::Denied(id) => say_at(out, ReasonWord::Denied, id, roster),
        Reason::HopLimit(id) => say_at(out, ReasonWord::HopLimit, id, roster),
        Reason::Meta(id) => say_at(out, ReasonWord::Meta, id, roster),
        Reason::MetaFull(id) => say_at(out, ReasonWord::MetaFull, id, roster),
        Reason::TooLong(id) => say_at(out, ReasonWord::TooLong, id, roster),
    }
}

/// Appends the mark of a drop, and its reason.
fn say_drop(out: &mut Bytes, reason: Reason, roster: &Roster) -> Result<(), OutOfMemory>
    requires { ReasonNames roster.now reason }
    ensures ok { OnOk result (out.new ≡ out.old ++ (codes "drop:" ++ reason_text roster.now reason)) }
    ensures err { OnErr result (AppendsFront out.old (codes "drop:" ++ reason_text roster.now reason) out.new) }
{
    out.push_all(b"drop:")?;
    say_reason(out, reason, roster)?;
    Ok(())
}

/// Appends how a walk ended.
pub(crate) fn say_end(out: &mut Bytes, end: End, roster: &Roster) -> Result<(), OutOfMemory>
    requires { EndNames roster.now end }
    ensures ok { OnOk result (out.new ≡ out.old ++ text_of roster.now end) }
    ensures err { OnErr result (AppendsFront out.old (text_of roster.now end) out.new) }
{
    match end {
        End::Egress => say(out, b"egress"),
        End::Bypass => say(out, b"bypass"),
        End::Drop(reason) => say_drop(out, reason, roster),
    }
}
