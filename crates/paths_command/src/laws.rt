//! What is written for a control file, whatever writes it.

ghost use Rattle.std.specs.Prelude.{◌≡◌, ◌+◌, ◌≤◌, ℕ, List, [], Option, length, HoldsAt};
ghost use Rattle.wire_base.specs.Numbers.{AreBytes};
ghost use Rattle.control_files.specs.declared.reasons.Refusal.{Refusal};
ghost use Rattle.sfc_routes.specs.declared.route_changes.RouteChange.{RouteChange};
ghost use Rattle.sfc_routes.specs.Entries.{Entries};
ghost use Rattle.path_selection.specs.Paths.{ServicePath};
ghost use Rattle.sfc_config.specs.Parts.{Parts, AreParts};
ghost use Rattle.control_histories.specs.Versions.{IsVersion};
ghost use Rattle.paths_command.specs.VersionTexts.{AreVersions, Writes};

use control_files::every_list_of_bytes_is_read;
use control_histories::{
    changes_have_one_table, changes_of_a_log_are_taken, every_list_of_segments_has_a_log,
    segments_have_one_log,
};
use history_laws::every_list_of_changes_has_a_table;

/// A control file has one text that is written for it, and one end.
pub fn one_text_is_written()
    ensures { (setup : Parts) (input text other : List ℕ) (stop halt : Option Refusal) → AreParts setup
        → Writes setup input stop text → Writes setup input halt other → (text ≡ other) × (stop ≡ halt) }
{
    segments_have_one_log();
    changes_have_one_table();
}

/// Every control file has a text that is written for it. Want of memory is free in a call, so `paths_call` does not say this.
pub fn every_control_file_has_a_text()
    ensures { (setup : Parts) (input : List ℕ) → AreParts setup → AreBytes input → (stop : Option Refusal) × (text : List ℕ) × Writes setup input stop text }
{
    every_list_of_bytes_is_read();
    every_list_of_segments_has_a_log();
    changes_of_a_log_are_taken();
    every_list_of_changes_has_a_table();
}

/// The n-th table that is written is version n, and the last one is the version of all changes.
pub fn tables_are_versions()
    ensures each { (roster : Entries) (changes : List RouteChange) (tables : List (List ServicePath)) (n : ℕ)
        → AreVersions roster [] changes tables → n ≤ length changes → HoldsAt (IsVersion roster changes n) tables n }
    ensures count { (roster : Entries) (changes : List RouteChange) (tables : List (List ServicePath))
        → AreVersions roster [] changes tables → length tables ≡ length changes + 1 }
{}
