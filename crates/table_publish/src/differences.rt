//! What changed between two tables.

ghost use Rattle.std.specs.Prelude.{◌≡◌, ◌+◌, ◌^◌, ◌≤◌, ◌<◌, ◌⊎◌, ◌++◌, ◌∷◌, [], true, length, IfOk, OnOk};
ghost use Rattle.path_selection.specs.declared.changes.Change.TheVariants.{Cut, Put};
ghost use Rattle.path_selection.specs.Paths.{IsTable};
ghost use Rattle.table_publish.specs.Differences.{Brings, IsNext, Replaces};
ghost use Rattle.table_publish.specs.Publications.{changed_by};

use crate::copies::copy_path;
use path_selection::{Change, HopRow, Path, Table};
use std::alloc::Global;
use wire_base::{ForwarderId, InstanceId, List, OutOfMemory};

/// What becomes of the next path, in order of the identifiers of both tables.
#[derive(Clone, Copy, Debug)]
pub enum Next {
    Goes,
    Joins,
    Stays,
}

/// How many paths of the old table are done with, and how many of the new one stand.
#[derive(Clone, Copy, Debug)]
pub struct Places {
    pub gone: usize,
    pub made: usize,
}

fn next_of(old: &Table, new: &Table, at: Places) -> Next
    requires some { (at.gone ≤ length old.now) × (at.made ≤ length new.now) }
    requires left { (at.gone < length old.now) ⊎ (at.made < length new.now) }
    ensures next { IsNext old.now new.now at.gone at.made result }
    ensures long { (length old.now < 2 ^ 64) × (length new.now < 2 ^ 64) }
    ensures kept { IsTable new.now }
{
    let olds = old.len();
    let news = new.len();
    if at.gone == olds {
        return Next::Joins;
    }
    if at.made == news {
        return Next::Goes;
    }
    let goes = old.path(at.gone).spi().number();
    let joins = new.path(at.made).spi().number();
    if goes < joins {
        return Next::Goes;
    }
    if joins < goes {
        return Next::Joins;
    }
    Next::Stays
}

fn cut_path(path: &Path, changes: &mut List<Change>) -> Result<(), OutOfMemory>
    ensures { OnOk result (changes.new ≡ changes.old ++ Cut path.now.spi ∷ []) }
{
    changes.push(Change::Cut(path.spi()))
}

fn put_path(alloc: Global, path: &Path, changes: &mut List<Change>) -> Result<(), OutOfMemory>
    ensures { OnOk result (changes.new ≡ changes.old ++ Put path.now ∷ []) }
{
    changes.push(Change::Put(copy_path(alloc, path)?))
}

fn same_choice(
    choice: Option<(ForwarderId, InstanceId)>,
    other: Option<(ForwarderId, InstanceId)>,
) -> bool
    ensures { result ≡ true → choice ≡ other }
{
    match choice {
        None => other.is_none(),
        Some((forwarder, instance)) => {
            let Some((other_forwarder, other_instance)) = other else {
                return false;
            };
            forwarder.0 == other_forwarder.0 && instance.0 == other_instance.0
        }
    }
}

fn same_row(row: &HopRow, other: &HopRow) -> bool
    ensures { result ≡ true → row.now ≡ other.now }
{
    row.si == other.si && same_choice(row.choice, other.choice)
}

fn same_rows(rows: &[HopRow], others: &[HopRow]) -> bool
    ensures { result ≡ true → rows.now ≡ others.now }
{
    if rows.len() != others.len() {
        return false;
    }
    for (i, row) in rows.iter().enumerate() {
        if !same_row(row, &others[i]) {
            return false;
        }
    }
    true
}

/// Puts a path in the place of the one with its identifier, unless they have the same hops.
fn replace_path(
    alloc: Global,
    was: &Path,
    path: &Path,
    changes: &mut List<Change>,
) -> Result<(), OutOfMemory>
    requires { path.now.spi ≡ was.now.spi }
    ensures { OnOk result (Replaces was.now path.now changes.old changes.new) }
{
    if same_rows(was.rows(), path.rows()) {
        return Ok(());
    }
    put_path(alloc, path, changes)
}

/// Makes the change for the next path, where it needs one, and says how far this comes.
fn bring_next(
    alloc: Global,
    old: &Table,
    new: &Table,
    at: Places,
    changes: &mut List<Change>,
) -> Result<Places, OutOfMemory>
    requires so_far { Brings old.now new.now at.gone at.made changes.old }
    requires left { (at.gone < length old.now) ⊎ (at.made < length new.now) }
    ensures on { IfOk result (λ next. Brings old.now new.now next.gone next.made changes.new) }
    ensures further { IfOk result (λ next. at.gone + at.made < next.gone + next.made) }
{
    let Places { gone, made } = at;
    match next_of(old, new, at) {
        Next::Goes => {
            cut_path(old.path(gone), changes)?;
            Ok(Places {
                gone: gone + 1,
                made,
            })
        }
        Next::Joins => {
            put_path(alloc, new.path(made), changes)?;
            Ok(Places {
                gone,
                made: made + 1,
            })
        }
        Next::Stays => {
            replace_path(alloc, old.path(gone), new.path(made), changes)?;
            Ok(Places {
                gone: gone + 1,
                made: made + 1,
            })
        }
    }
}

/// The changes that make the new table of the old one, in order of the identifiers: a cut for each path that goes, and a put for each
/// that joins or has other hops than before. A path that stays as it is takes none.
pub fn changes_between(alloc: Global, old: &Table, new: &Table) -> Result<List<Change>, OutOfMemory>
    ensures { IfOk result (λ changes. changed_by old.now changes ≡ new.now) }
{
    let olds = old.len();
    let news = new.len();
    let mut changes = List::new(alloc);
    let mut at = Places { gone: 0, made: 0 };
    while at.gone < olds || at.made < news {
        at = bring_next(alloc, old, new, at, &mut changes)?;
    }
    Ok(changes)
}
