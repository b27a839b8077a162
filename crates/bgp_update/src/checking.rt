//! Whether bytes are the content of an update, found without taking memory.

ghost use Rattle.std.specs.Prelude.{◌≡◌, ◌<◌, ◌+◌, ◌^◌, ◌∷◌, [], ◌++◌, ℕ, length, MatchBool, MatchResult};
ghost use Rattle.std.specs.Prelude.{List as Sequence};
ghost use Rattle.bgp_update.specs.declared.attributes.Attribute.{Attribute};
ghost use Rattle.bgp_update.specs.Refusals.{header_size, Repeats, RefusedList, RefusedValue, RefusedAttributes, Refused};
ghost use Rattle.bgp_update.specs.Checks.{HasList, HasBody, HasAttributes, HasUpdate, Sees};

use crate::bodies::{MP_REACH, MP_UNREACH};
use crate::nlri_lists::route_piece;
use crate::parts::parts_of;
use crate::pieces::{AttributePiece, attribute_at, header_of};
use crate::reach::{FAMILY_SIZE, behind_family, reach_head};

/// Checks the routes that fill the bytes, the first of which stands at the place.
fn check_list(start: u64, bytes: &[u8]) -> Result<(), u64>
    requires { start + length bytes.now < 2 ^ 64 }
    ensures { MatchResult result (λ _. HasList bytes.now) (λ place. RefusedList start bytes.now place) }
{
    let mut rest = bytes;
    while !rest.is_empty() {
        let Some(piece) = route_piece(rest) else {
            return Err(start + (bytes.len() - rest.len()) as u64);
        };
        rest = piece.rest;
    }
    Ok(())
}

fn check_reach(start: u64, piece: &AttributePiece<'_>) -> Result<(), u64>
    requires kind { piece.now.kind ≡ 14 }
    requires place { start + header_size piece.now.flags + length piece.now.value.now < 2 ^ 64 }
    ensures { MatchResult result (λ _. HasBody piece.now.flags piece.now.kind piece.now.value.now)
        (λ place. RefusedValue start (header_size piece.now.flags) piece.now.kind piece.now.value.now place) }
{
    let value = piece.value;
    if value.len() < FAMILY_SIZE {
        return Err(start);
    }
    let Some(behind) = behind_family(value) else {
        return Ok(());
    };
    let Some(head) = reach_head(behind) else {
        return Err(start);
    };
    let before = header_of(piece.flags) + (value.len() - head.list.len()) as u64;
    check_list(start + before, head.list)
}

fn check_unreach(start: u64, piece: &AttributePiece<'_>) -> Result<(), u64>
    requires kind { piece.now.kind ≡ 15 }
    requires place { start + header_size piece.now.flags + length piece.now.value.now < 2 ^ 64 }
    ensures { MatchResult result (λ _. HasBody piece.now.flags piece.now.kind piece.now.value.now)
        (λ place. RefusedValue start (header_size piece.now.flags) piece.now.kind piece.now.value.now place) }
{
    let value = piece.value;
    if value.len() < FAMILY_SIZE {
        return Err(start);
    }
    let Some(list) = behind_family(value) else {
        return Ok(());
    };
    check_list(start + header_of(piece.flags) + 3, list)
}

/// Checks the value of an attribute that stands at the place.
#[tactic(auto, using(crate::proofs::CheckLemmas::unread_has_body))]
fn check_body(start: u64, piece: &AttributePiece<'_>) -> Result<(), u64>
    requires { start + header_size piece.now.flags + length piece.now.value.now < 2 ^ 64 }
    ensures { MatchResult result (λ _. HasBody piece.now.flags piece.now.kind piece.now.value.now)
        (λ place. RefusedValue start (header_size piece.now.flags) piece.now.kind piece.now.value.now place) }
{
    match piece.kind {
        MP_REACH => check_reach(start, piece),
        MP_UNREACH => check_unreach(start, piece),
        _ => Ok(()),
    }
}

/// Which of the kinds have come that may come only once.
#[derive(Clone, Copy)]
pub(crate) struct Seen {
    pub(crate) reach: bool,
    pub(crate) unreach: bool,
}

impl Seen {
    ghost use Rattle.std.specs.Prelude.{◌≡◌, ◌∷◌, [], ◌++◌, List, MatchBool};
    ghost use Rattle.bgp_update.specs.declared.attributes.Attribute.{Attribute};
    ghost use Rattle.bgp_update.specs.Refusals.{Repeats};
    ghost use Rattle.bgp_update.specs.Checks.{Sees};

    /// Whether the kind comes a second time, and may come only once.
    fn repeats(self, kind: u8) -> bool
        ensures { (before : List Attribute) → Sees self before → MatchBool result (Repeats kind before) (¬ Repeats kind before) }
    {
        match kind {
            MP_REACH => self.reach,
            MP_UNREACH => self.unreach,
            _ => false,
        }
    }

    /// What has come behind one more of this kind.
    fn with(self, kind: u8) -> Seen
        ensures { (before : List Attribute) (a : Attribute) → Sees self before → a.kind ≡ kind → Sees result (before ++ a ∷ []) }
    {
        Seen {
            reach: self.reach || kind == MP_REACH,
            unreach: self.unreach || kind == MP_UNREACH,
        }
    }
}

/// Checks the attributes that fill the bytes, the first of which stands at the place.
fn check_attributes(start: u64, bytes: &[u8]) -> Result<(), u64>
    requires { start + length bytes.now < 2 ^ 64 }
    ensures { MatchResult result (λ _. HasAttributes bytes.now) (λ place. RefusedAttributes start bytes.now place) }
{
    let mut seen = Seen {
        reach: false,
        unreach: false,
    };
    let mut rest = bytes;
    while !rest.is_empty() {
        let place = start + (bytes.len() - rest.len()) as u64;
        let Some(piece) = attribute_at(rest) else {
            return Err(place);
        };
        if seen.repeats(piece.kind) {
            return Err(place);
        }
        check_body(place, &piece)?;
        seen = seen.with(piece.kind);
        rest = piece.rest;
    }
    Ok(())
}

/// The bytes of the attributes in the content of an UPDATE, for `attribute_at`; or the place at which `decode_update` refuses
/// it. It takes no memory.
pub fn attributes_in(content: &[u8]) -> Result<&[u8], u64>
    ensures { MatchResult result (λ attributes. HasUpdate content.now attributes.now) (λ place. Refused content.now place) }
{
    let parts = parts_of(content)?;
    check_attributes(4 + parts.withdrawn.len() as u64, parts.attributes)?;
    Ok(parts.attributes)
}
