ghost use Rattle.std.specs.Prelude.{MatchBool};
ghost use Rattle.sfp_attribute.specs.Refusals.{IsMpls, IsStray, WrongSize};

/// Where a part stands: in the attribute, or in a hop.
#[derive(Clone, Copy)]
pub(crate) enum Level {
    Top,
    InHop,
}

/// The kinds of parts that are read (after RFC 9015, section 3.2).
pub(crate) const ASSOCIATION: u8 = 1;

pub(crate) const HOP: u8 = 2;

pub(crate) const SFT: u8 = 3;

/// Whether this is the kind of an MPLS form.
pub(crate) fn is_mpls(kind: u8) -> bool
    ensures { MatchBool result (IsMpls kind) (¬ IsMpls kind) }
{
    kind == 4 || kind == 5
}

/// Whether a part of this kind stands at the other level, or at none.
pub(crate) fn is_stray(level: Level, kind: u8) -> bool
    ensures { MatchBool result (IsStray level kind) (¬ IsStray level kind) }
{
    match level {
        Level::Top => kind == 0 || kind == SFT,
        Level::InHop => kind == 0 || kind == ASSOCIATION || kind == HOP,
    }
}

/// Whether a part of this kind may have a value of so many bytes.
pub(crate) fn has_size(level: Level, kind: u8, size: usize) -> bool
    ensures { MatchBool result (¬ WrongSize level kind size) (WrongSize level kind size) }
{
    match level {
        Level::Top => match kind {
            ASSOCIATION => size == 12,
            HOP => size >= 1,
            _ => true,
        },
        Level::InHop => match kind {
            SFT => size % 8 == 2,
            _ => true,
        },
    }
}
