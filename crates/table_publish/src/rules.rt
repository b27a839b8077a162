//! What threads know of a window, and the rule that each step keeps.
use crate::entries::{Entry, Window};
use crate::stores::Store;
use atomic_table::{Join, Split};
use crossbeam_utils::rule::{Outcome, Protocol};
use std::collections::LinkedList;

/// What a thread knows. No value of it is made.
pub struct View {
    pub opened: bool,
    pub window: Window,
    /// The entries that were seen.
    pub list: LinkedList<Entry>,
}

/// The rule.
pub struct Kept;

impl Protocol<Store, View> for Kept {
    ghost use Rattle.table_publish.specs.Rules.{IsHeld, newcomer};

    ghost holds = { IsHeld };

    ghost first = { newcomer };
}

/// The opening, a lookup and a publication: the whole list is seen.
pub struct Looks;

impl Outcome<Store, View> for Looks {
    ghost use Rattle.table_publish.specs.Rules.{Sees};

    ghost then = { Sees };
}

/// What the publisher tells a new reader.
pub struct Notes;

impl Split<View> for Notes {
    ghost left = { λ v. v };

    ghost right = { λ v. v };
}

impl Join<View> for Notes {
    ghost use Rattle.table_publish.specs.Rules.{newcomer};

    ghost both = { λ v w. w };

    ghost spent = { newcomer };
}
