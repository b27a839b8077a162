ghost use Rattle.std.specs.Prelude.{◌≡◌, ◌<◌, [], length, MatchOption, OnOk, OnErr};
ghost use Rattle.std.specs.List.{HoldsAt};
ghost use Rattle.path_selection.specs.Answers.{HasNoPath, HasPath, IsAnswer};
ghost use Rattle.path_selection.specs.Changes.{changed};
ghost use Rattle.path_selection.specs.Paths.{IsTable};
ghost use Rattle.path_selection.specs.declared.changes.Change.TheVariants.{Cut, Put};

use crate::answers::Answer;
use crate::changes::Change;
use crate::paths::Path;
use crate::searches::{has_at, place_of, serving_row};
use std::alloc::Global;
use std::marker::Model;
use wire_base::{OutOfMemory, Spi};

/// A table of service paths, at most one for each identifier, in order of their identifiers.
#[derive(Debug, Drop)]
pub struct Table {
    paths: Vec<Path>,
}

impl Model for Table {
    ghost use Rattle.std.specs.Prelude.{List};
    ghost use Rattle.path_selection.specs.Paths.{IsTable, ServicePath};

    ghost Value = { List ServicePath };

    ghost view = { λ t. t.paths.items };

    ghost invariant = { λ t. IsTable t.paths.items };
}

impl Table {
    /// The table without a path. It takes no memory.
    pub fn empty(alloc: Global) -> Table
        ensures { result ≡ [] }
    {
        Table {
            paths: Vec::new(alloc),
        }
    }

    /// How many paths there are.
    pub fn len(&self) -> usize
        ensures value { result ≡ length self.now }
        ensures kept { IsTable self.now }
    {
        self.paths.len()
    }

    /// The path at a place, counted from 0 in order of the identifiers.
    pub fn path(&self, i: usize) -> &Path
        requires { i < length self.now }
        ensures { HoldsAt (λ path. result.now ≡ path) self.now i }
    {
        &self.paths[i]
    }

    /// The hop that serves a path's packet with this service index. The path and the hop are found by halves.
    pub fn answer(&self, spi: Spi, si: u8) -> Answer
        ensures { IsAnswer self.now spi si result }
    {
        let Some(path) = path_named(self.paths.as_slice(), spi) else {
            return Answer::NoPath;
        };
        let Some(row) = serving_row(path.rows(), si) else {
            return Answer::Ended;
        };
        match row.choice {
            None => Answer::NoInstance(row.si),
            Some((forwarder, instance)) => Answer::At(row.si, forwarder, instance),
        }
    }

    /// Puts or cuts one path. No other path is touched. After want of memory the table is unchanged.
    pub fn apply(&mut self, change: Change) -> Result<(), OutOfMemory>
        ensures ok { OnOk result (self.new ≡ changed self.old change) }
        ensures err { OnErr result (self.new ≡ self.old) }
    {
        match change {
            Change::Put(path) => put(&mut self.paths, path),
            Change::Cut(spi) => {
                cut(&mut self.paths, spi);
                Ok(())
            }
        }
    }
}

/// The path with this identifier.
fn path_named(paths: &[Path], spi: Spi) -> Option<&Path>
    requires { IsTable paths.now }
    ensures { MatchOption result (HasNoPath paths.now spi) (λ path. HasPath paths.now spi path.now) }
{
    let place = place_of(paths, spi);
    if has_at(paths, place, spi) {
        Some(&paths[place])
    } else {
        None
    }
}

/// Puts a path in its place among the others.
fn put(paths: &mut Vec<Path>, path: Path) -> Result<(), OutOfMemory>
    requires { IsTable paths.old.items }
    ensures ok { OnOk result (paths.new.items ≡ changed paths.old.items (Put path)) }
    ensures err { OnErr result (paths.new.items ≡ paths.old.items) }
    ensures kept { IsTable paths.new.items }
{
    let spi = path.spi();
    let place = place_of(paths.as_slice(), spi);
    if has_at(paths.as_slice(), place, spi) {
        paths[place] = path;
    } else {
        paths.insert(place, path)?;
    }
    Ok(())
}

/// Takes the path with this identifier out, if there is one.
fn cut(paths: &mut Vec<Path>, spi: Spi)
    requires { IsTable paths.old.items }
    ensures { paths.new.items ≡ changed paths.old.items (Cut spi) }
{
    let place = place_of(paths.as_slice(), spi);
    if has_at(paths.as_slice(), place, spi) {
        paths.remove(place);
    }
}
