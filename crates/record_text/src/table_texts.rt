//! The text of a table.

ghost use Rattle.std.specs.Prelude.{◌≡◌, ◌∷◌, ◌++◌, OnOk, OnErr, IfOk};
ghost use Rattle.std.specs.List.{All, flat_map};
ghost use Rattle.std.specs.Fmt.{decimal};
ghost use Rattle.text_words.specs.Printing.{AppendsFront};
ghost use Rattle.record_text.specs.Names.{IsForwarder, forwarder_text, IsInstance, instance_text};
ghost use Rattle.record_text.specs.Tables.{choice_text, hop_text, version_words, path_words, ended_words, table_text, ChoiceNames, PathNames, TableNames};
ghost use Rattle.record_text.specs.Steps.{hops_behind, at_text};

use crate::printing::{say, say_number};
use crate::roster_names::{say_forwarder, say_instance};
use path_selection::{HopRow, Path, Table};
use sfc_routes::Roster;
use std::alloc::Global;
use wire_base::{Bytes, ForwarderId, InstanceId, OutOfMemory};

/// Appends an instance and its forwarder.
fn say_at(
    out: &mut Bytes,
    forwarder: ForwarderId,
    instance: InstanceId,
    roster: &Roster,
) -> Result<(), OutOfMemory>
    requires forwarder { IsForwarder roster.now forwarder }
    requires instance { IsInstance roster.now instance }
    ensures ok { OnOk result (out.new ≡ out.old ++ at_text roster.now forwarder instance) }
    ensures err { OnErr result (AppendsFront out.old (at_text roster.now forwarder instance) out.new) }
{
    say_instance(out, instance, roster)?;
    out.push_all(b"@")?;
    say_forwarder(out, forwarder, roster)?;
    Ok(())
}

/// Appends who serves at a hop.
fn say_choice(
    out: &mut Bytes,
    choice: Option<(ForwarderId, InstanceId)>,
    roster: &Roster,
) -> Result<(), OutOfMemory>
    requires { ChoiceNames roster.now choice }
    ensures ok { OnOk result (out.new ≡ out.old ++ choice_text roster.now choice) }
    ensures err { OnErr result (AppendsFront out.old (choice_text roster.now choice) out.new) }
{
    match choice {
        None => say(out, b"none"),
        Some((forwarder, instance)) => say_at(out, forwarder, instance, roster),
    }
}

/// Appends a space and a hop.
fn say_hop(out: &mut Bytes, row: &HopRow, roster: &Roster) -> Result<(), OutOfMemory>
    requires { ChoiceNames roster.now row.now.choice }
    ensures ok { OnOk result (out.new ≡ out.old ++ 32 ∷ hop_text roster.now row.now) }
    ensures err { OnErr result (AppendsFront out.old (32 ∷ hop_text roster.now row.now) out.new) }
{
    say_number(out, b" ", u64::from(row.si))?;
    out.push_all(b"=")?;
    say_choice(out, row.choice, roster)?;
    Ok(())
}

/// Appends the hops of a path, each behind a space.
fn say_hops(out: &mut Bytes, rows: &[HopRow], roster: &Roster) -> Result<(), OutOfMemory>
    requires { All (λ row. ChoiceNames roster.now row.choice) rows.now }
    ensures ok { OnOk result (out.new ≡ out.old ++ hops_behind roster.now rows.now) }
    ensures err { OnErr result (AppendsFront out.old (hops_behind roster.now rows.now) out.new) }
{
    for row in rows {
        say_hop(out, row, roster)?;
    }
    Ok(())
}

/// Appends the line of a path.
fn say_path(out: &mut Bytes, path: &Path, roster: &Roster) -> Result<(), OutOfMemory>
    requires { PathNames roster.now path.now }
    ensures ok { OnOk result (out.new ≡ out.old ++ ended_words (path_words roster.now path.now)) }
    ensures err { OnErr result (AppendsFront out.old (ended_words (path_words roster.now path.now)) out.new) }
{
    say_number(out, b"path ", u64::from(path.spi().number()))?;
    say_hops(out, path.rows(), roster)?;
    out.push_all(b"\n")?;
    Ok(())
}

/// Appends the lines of all paths.
fn say_paths(out: &mut Bytes, table: &Table, roster: &Roster) -> Result<(), OutOfMemory>
    requires { TableNames roster.now table.now }
    ensures ok { OnOk result (out.new ≡ out.old ++ flat_map (λ path. ended_words (path_words roster.now path)) table.now) }
    ensures err { OnErr result (AppendsFront out.old (flat_map (λ path. ended_words (path_words roster.now path)) table.now) out.new) }
{
    for i in 0..table.len() {
        say_path(out, table.path(i), roster)?;
    }
    Ok(())
}

/// Appends the line of a version.
fn say_version(out: &mut Bytes, version: u64) -> Result<(), OutOfMemory>
    ensures ok { OnOk result (out.new ≡ out.old ++ ended_words (version_words version)) }
    ensures err { OnErr result (AppendsFront out.old (ended_words (version_words version)) out.new) }
{
    say_number(out, b"version ", version)?;
    out.push_all(b"\n")?;
    Ok(())
}

/// Appends the text of a table: its version, and a line for each path in order of the identifiers. Where there is no memory, a front of the text,
/// which may be nothing, was appended. The forwarders and instances of the table are of the roster.
pub fn append_table(
    out: &mut Bytes,
    version: u64,
    table: &Table,
    roster: &Roster,
) -> Result<(), OutOfMemory>
    requires { TableNames roster.now table.now }
    ensures ok { OnOk result (out.new ≡ out.old ++ table_text roster.now version table.now) }
    ensures err { OnErr result (AppendsFront out.old (table_text roster.now version table.now) out.new) }
{
    say_version(out, version)?;
    say_paths(out, table, roster)?;
    Ok(())
}

/// The text of a table. The forwarders and instances of the table are of the roster.
pub fn print_table(
    alloc: Global,
    version: u64,
    table: &Table,
    roster: &Roster,
) -> Result<Bytes, OutOfMemory>
    requires { TableNames roster.now table.now }
    ensures { IfOk result (λ text. text ≡ table_text roster.now version table.now) }
{
    let mut out = Bytes::new(alloc);
    append_table(&mut out, version, table, roster)?;
    Ok(out)
}
