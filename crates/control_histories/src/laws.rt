//! What holds of control files as histories, whatever steps the sessions.

ghost use Rattle.std.specs.Prelude.{◌≡◌, ◌≢◌, ◌↔◌, ℕ, List, [], ◌++◌, All};
ghost use Rattle.std.specs.List.{AllByRecursion, AllPairs};
ghost use Rattle.wire_base.specs.Numbers.{AreBytes};
ghost use Rattle.bgp_session.specs.declared.local_sides.Local.{Local};
ghost use Rattle.control_files.specs.declared.segments.Segment.{Segment};
ghost use Rattle.sfc_routes.specs.declared.route_changes.RouteChange.{RouteChange};
ghost use Rattle.sfc_routes.specs.Entries.{Entries, IsRoster};
ghost use Rattle.sfc_routes.specs.PeerRoutes.{IsRouteChange};
ghost use Rattle.session_machine.specs.declared.groups.Sessions.{Sessions};
ghost use Rattle.session_machine.specs.Groups.{Entry};
ghost use Rattle.path_selection.specs.Paths.{IsTable, ServicePath};
ghost use Rattle.control_histories.specs.Logs.{AreOfPeers, AreWith, Heard, Hears, changes_of};
ghost use Rattle.control_histories.specs.Versions.{TableAfter};

use route_selection::last_words_have_one_selection;
use session_machine::{a_history_has_one_run, every_history_has_a_run};

/// What the sessions with the peers stand for is the log of the segments that they took.
pub fn what_sessions_took_was_heard()
    ensures { (all : Sessions) (local : Local) (peers : List (ℕ × ℕ)) (segments : List Segment) (log : List Entry)
        → AreWith all local peers → Hears all segments log → Heard local peers segments log }
{}

/// Segments of the peers have at most one log.
pub fn segments_have_one_log()
    ensures { (local : Local) (peers : List (ℕ × ℕ)) (segments : List Segment) (log other : List Entry) → AreOfPeers peers segments
        → Heard local peers segments log → Heard local peers segments other → log ≡ other }
{
    a_history_has_one_run();
}

/// Every list of segments of the peers, whose numbers differ, has a log. Want of memory is free in a step, so it does not say this.
pub fn every_list_of_segments_has_a_log()
    ensures { (local : Local) (peers : List (ℕ × ℕ)) (segments : List Segment) → AllPairs (λ p q. p.0 ≢ q.0) peers → AreOfPeers peers segments
        → All (λ s. AreBytes s.bytes) segments → (log : List Entry) × Heard local peers segments log }
{
    a_history_has_one_run();
    every_history_has_a_run();
}

/// The log of segments begins with the log of those that come first.
pub fn a_log_begins_with_that_of_its_front()
    ensures { (local : Local) (peers : List (ℕ × ℕ)) (front more : List Segment) (log : List Entry) → Heard local peers (front ++ more) log
        → (first : List Entry) × (last : List Entry) × (log ≡ first ++ last) × Heard local peers front first }
{}

/// Every change in a log is one that a list of routes takes.
pub fn changes_of_a_log_are_taken()
    ensures { (local : Local) (peers : List (ℕ × ℕ)) (segments : List Segment) (log : List Entry) → AreOfPeers peers segments
        → Heard local peers segments log → AllByRecursion IsRouteChange (changes_of log) }
{}

/// Changes have at most one table.
pub fn changes_have_one_table()
    ensures { (roster : Entries) (changes : List RouteChange) (table other : List ServicePath) → IsRoster roster
        → TableAfter roster changes table → TableAfter roster changes other → table ≡ other }
{
    last_words_have_one_selection();
}

/// The table after changes has its paths in order of their identifiers, at most one for each.
pub fn what_changes_leave_is_a_table()
    ensures { (roster : Entries) (changes : List RouteChange) (table : List ServicePath) → TableAfter roster changes table → IsTable table }
{}

/// Before the first change there is no path.
pub fn no_change_leaves_no_path()
    ensures { (roster : Entries) (table : List ServicePath) → TableAfter roster [] table ↔ table ≡ [] }
{}
