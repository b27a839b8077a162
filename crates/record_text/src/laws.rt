//! A text has one reading, and what is printed is read again.

ghost use Rattle.std.specs.Prelude.{◌≡◌, ◌⊎◌, ℕ, [], ◌∷◌, List, Result, Ok, Err};
ghost use Rattle.sfc_routes.specs.Entries.{Entries, IsRoster};
ghost use Rattle.path_selection.specs.Paths.{ServicePath};
ghost use Rattle.record_text.specs.declared.records.Record.{Record as OneRecord};
ghost use Rattle.record_text.specs.declared.faults.RecordsFault.{RecordsFault as Fault};
ghost use Rattle.record_text.specs.declared.faults.RecordsFault.TheVariants as fault;
ghost use Rattle.record_text.specs.Lines.{Names, IsEntry, IsLine, ended_line};
ghost use Rattle.record_text.specs.Records.{IsRecords, IsRefused, Parses, HasReading};
ghost use Rattle.record_text.specs.Tables.{IsPublished, table_text};

use crate::record_line::parse_record;
use crate::record_texts::split_line;
use crate::roster_names::roster_is_kept;
use sfc_routes::Roster;

/// A line spells at most one entry; a text is that of at most one list of entries, is refused at most at one line, and never
/// both.
pub fn a_text_has_one_reading()
    ensures line { (roster : Entries) (line : List ℕ) (d e : ℕ × OneRecord) → IsRoster roster → IsLine roster line d → IsLine roster line e → d ≡ e }
    ensures records { (roster : Entries) (text : List ℕ) (ds es : List (ℕ × OneRecord)) → IsRoster roster → IsRecords roster text ds → IsRecords roster text es → ds ≡ es }
    ensures refusal { (roster : Entries) (text : List ℕ) (m n : ℕ) → IsRoster roster → IsRefused roster text m → IsRefused roster text n → m ≡ n }
    ensures never_both { (roster : Entries) (text : List ℕ) (es : List (ℕ × OneRecord)) (n : ℕ) → IsRoster roster → IsRecords roster text es → IsRefused roster text n → ⊥ }
{}

/// What a text spells is what reading it gives, unless there is no memory; and so is the line at which it is refused.
pub fn reading_is_exact()
    ensures records { (roster : Entries) (text : List ℕ) (es : List (ℕ × OneRecord)) (answer : Result (List (ℕ × OneRecord)) Fault) → IsRoster roster → IsRecords roster text es
        → Parses roster text answer → (answer ≡ Ok es) ⊎ (answer ≡ Err fault.OutOfMemory) }
    ensures refusal { (roster : Entries) (text : List ℕ) (n : ℕ) (answer : Result (List (ℕ × OneRecord)) Fault) → IsRoster roster → IsRefused roster text n
        → Parses roster text answer → (answer ≡ Err (fault.Line n)) ⊎ (answer ≡ Err fault.OutOfMemory) }
{}

/// The printed line of an entry in its forms is a text of that entry alone.
pub fn a_printed_record_is_read_again()
    ensures { (roster : Entries) (e : ℕ × OneRecord) → IsEntry roster e → IsRecords roster (ended_line roster e) (e ∷ []) }
{}

/// An entry names instances of the roster alone, so it may be printed.
pub fn an_entry_may_be_printed()
    ensures { (roster : Entries) (e : ℕ × OneRecord) → IsEntry roster e → Names roster e.1 }
{}

/// Every text is that of some entries, or a line of it is refused. Want of memory is free in `parse_records`, so it does not
/// say this.
///
/// Of each line it is tried whether it spells an entry, which takes no memory. Nothing calls this.
pub fn every_text_has_a_reading(text: &[u8], roster: &Roster)
    ensures { HasReading roster.now text.now }
{
    roster_is_kept(roster);
    let mut rest = text;
    'lines: while !rest.is_empty() {
        let Some((line, behind)) = split_line(rest) else {
            return;
        };
        let Some(_) = parse_record(line, roster) else {
            return;
        };
        rest = behind;
    }
}

/// The text of a table is that of one table of one version.
pub fn a_table_text_has_one_table()
    ensures { (roster : Entries) (v w : ℕ) (t u : List ServicePath) → IsRoster roster → IsPublished roster v t → IsPublished roster w u
        → table_text roster v t ≡ table_text roster w u → (v ≡ w) × (t ≡ u) }
{}
