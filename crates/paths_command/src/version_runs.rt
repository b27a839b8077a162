//! The versions of the table, as segments make them.

ghost use Rattle.std.specs.Prelude.{◌≡◌, ◌⊎◌, ◌+◌, ◌<◌, ◌^◌, ℕ, true, List as Sequence, [], ◌∷◌, ◌++◌, length, Contains, IfOk, OnOk, OnErr, IsErrOf};
ghost use Rattle.std.specs.List.{AllByRecursion};
ghost use Rattle.sfc_desk.specs.Desks.{Rose, Moves};
ghost use Rattle.control_files.specs.declared.segments.Segment.{Segment};
ghost use Rattle.control_files.specs.Segments.{numbers};
ghost use Rattle.control_files.specs.Steps.{segment_of};
ghost use Rattle.sfc_routes.specs.declared.route_changes.RouteChange.{RouteChange as Change};
ghost use Rattle.sfc_routes.specs.LastWords.{Stands};
ghost use Rattle.sfc_routes.specs.PeerRoutes.{IsRouteChange};
ghost use Rattle.commands.specs.Pieces.{SameCounts};
ghost use Rattle.paths_command.specs.PathsSteps.{Begins, AddsVersion, AddsFront, Shown, ShowsFront, Hearing, WroteFront};

use commands::{WriteFault, report};
use control_files::SegmentHead;
use control_histories::{step_segment, table_after};
use record_text::print_table;
use session_machine::Sessions;
use sfc_config::Setup;
use sfc_desk::{Desk, Port};
use sfc_routes::{Roster, RouteChange, RouteList};
use std::alloc::Global;
use wire_base::OutOfMemory;

/// What the segments so far came to: the sessions with all peers, the routes that stand, and the number of the last version.
#[derive(Debug, Drop)]
pub(crate) struct VersionRun {
    sessions: Sessions,
    routes: RouteList,
    version: u64,
}

/// Before the first segment: version 0, which has no path.
pub(crate) fn version_zero(alloc: Global, setup: &Setup) -> Result<VersionRun, OutOfMemory>
    ensures { IfOk result (λ run. Begins setup.now run) }
{
    Ok(VersionRun {
        sessions: Sessions::new(alloc, setup.local, &setup.peers)?,
        routes: RouteList::new(alloc),
        version: 0,
    })
}

/// Writes the text of the last version.
pub(crate) fn show_version<D: Desk>(
    alloc: Global,
    desk: &mut D,
    roster: &Roster,
    run: &VersionRun,
) -> Result<(), WriteFault>
    requires { (changes : Sequence Change) × Stands run.now.routes changes }
    ensures adds { D.tells ≡ true → (changes : Sequence Change) → Stands run.now.routes changes
        → OnOk result (AddsVersion roster.now changes run.now.version (D.at desk.old Port.Report).written (D.at desk.new Port.Report).written) }
    ensures front { D.tells ≡ true → (changes : Sequence Change) → Stands run.now.routes changes
        → OnErr result (AddsFront roster.now changes run.now.version (D.at desk.old Port.Report).written (D.at desk.new Port.Report).written) }
    ensures cause { IsErrOf result WriteFault.File → Rose (D.at desk.old Port.Report) (D.at desk.new Port.Report) }
    ensures quiet { OnOk result (SameCounts (D.at desk.old) (D.at desk.new)) }
    ensures spared { IsErrOf result WriteFault.OutOfMemory → SameCounts (D.at desk.old) (D.at desk.new) }
    ensures moves { Moves D.tells Port.Report (D.held desk.old) (D.held desk.new) (D.at desk.old) (D.at desk.new) }
{
    let table = table_after(alloc, roster, &run.routes)?;
    let text = print_table(alloc, run.version, &table, roster)?;
    report(desk, text.as_slice())?;
    Ok(())
}

/// Makes a version of one change more, and writes it.
fn take_change<D: Desk>(
    alloc: Global,
    desk: &mut D,
    roster: &Roster,
    run: &mut VersionRun,
    change: &RouteChange,
) -> Result<(), WriteFault>
    requires fits { IsRouteChange change.now }
    requires known { (shown : Sequence Change) × (before : Sequence ℕ) × Shown roster.now D.tells run.old shown before (D.at desk.old Port.Report).written }
    ensures goes_on { (shown : Sequence Change) (before : Sequence ℕ) → Shown roster.now D.tells run.old shown before (D.at desk.old Port.Report).written
        → OnOk result (Shown roster.now D.tells run.new (shown ++ change.now ∷ []) before (D.at desk.new Port.Report).written) }
    ensures front { D.tells ≡ true → (shown todo : Sequence Change) (before : Sequence ℕ) → Shown roster.now D.tells run.old shown before (D.at desk.old Port.Report).written
        → OnErr result (ShowsFront roster.now (shown ++ change.now ∷ todo) before (D.at desk.new Port.Report).written) }
    ensures sessions { run.new.sessions ≡ run.old.sessions }
    ensures cause { IsErrOf result WriteFault.File → Rose (D.at desk.old Port.Report) (D.at desk.new Port.Report) }
    ensures quiet { OnOk result (SameCounts (D.at desk.old) (D.at desk.new)) }
    ensures spared { IsErrOf result WriteFault.OutOfMemory → SameCounts (D.at desk.old) (D.at desk.new) }
    ensures moves { Moves D.tells Port.Report (D.held desk.old) (D.held desk.new) (D.at desk.old) (D.at desk.new) }
{
    if run.version == u64::MAX {
        return Err(WriteFault::OutOfMemory);
    }
    run.routes.apply(change)?;
    run.version += 1;
    show_version(alloc, desk, roster, run)
}

/// Makes and writes a version of each change.
fn take_changes<D: Desk>(
    alloc: Global,
    desk: &mut D,
    roster: &Roster,
    run: &mut VersionRun,
    changes: &[RouteChange],
) -> Result<(), WriteFault>
    requires fit { AllByRecursion IsRouteChange changes.now }
    requires known { (shown : Sequence Change) × (before : Sequence ℕ) × Shown roster.now D.tells run.old shown before (D.at desk.old Port.Report).written }
    ensures goes_on { (shown : Sequence Change) (before : Sequence ℕ) → Shown roster.now D.tells run.old shown before (D.at desk.old Port.Report).written
        → OnOk result (Shown roster.now D.tells run.new (shown ++ changes.now) before (D.at desk.new Port.Report).written) }
    ensures front { D.tells ≡ true → (shown : Sequence Change) (before : Sequence ℕ) → Shown roster.now D.tells run.old shown before (D.at desk.old Port.Report).written
        → OnErr result (ShowsFront roster.now (shown ++ changes.now) before (D.at desk.new Port.Report).written) }
    ensures sessions { run.new.sessions ≡ run.old.sessions }
    ensures cause { IsErrOf result WriteFault.File → Rose (D.at desk.old Port.Report) (D.at desk.new Port.Report) }
    ensures quiet { OnOk result (SameCounts (D.at desk.old) (D.at desk.new)) }
    ensures spared { IsErrOf result WriteFault.OutOfMemory → SameCounts (D.at desk.old) (D.at desk.new) }
    ensures moves { Moves D.tells Port.Report (D.held desk.old) (D.held desk.new) (D.at desk.old) (D.at desk.new) }
{
    for change in changes {
        if let Err(fault) = take_change(alloc, desk, roster, run, change) {
            return Err(fault);
        }
    }
    Ok(())
}

/// Steps the session with a segment's peer, and makes and writes a version of each change that this leads to.
pub(crate) fn take_segment<D: Desk>(
    alloc: Global,
    desk: &mut D,
    setup: &Setup,
    run: &mut VersionRun,
    head: SegmentHead,
    bytes: &[u8],
) -> Result<(), WriteFault>
    requires peer { Contains (numbers setup.now.peers) head.peer }
    requires known { (segments : Sequence Segment) × (most : ℕ) × (before : Sequence ℕ)
        × Hearing setup.now D.tells run.old segments most before (D.at desk.old Port.Report).written × (most + length bytes.now < 2 ^ 64) }
    ensures goes_on { (segments : Sequence Segment) (most : ℕ) (before : Sequence ℕ)
        → Hearing setup.now D.tells run.old segments most before (D.at desk.old Port.Report).written
        → OnOk result (Hearing setup.now D.tells run.new (segments ++ segment_of head bytes.now ∷ []) (most + length bytes.now) before (D.at desk.new Port.Report).written) }
    ensures front { D.tells ≡ true → (segments : Sequence Segment) (most : ℕ) (before : Sequence ℕ)
        → Hearing setup.now D.tells run.old segments most before (D.at desk.old Port.Report).written
        → OnErr result (WroteFront setup.now segments before (D.at desk.new Port.Report).written
        ⊎ WroteFront setup.now (segments ++ segment_of head bytes.now ∷ []) before (D.at desk.new Port.Report).written) }
    ensures cause { IsErrOf result WriteFault.File → Rose (D.at desk.old Port.Report) (D.at desk.new Port.Report) }
    ensures quiet { OnOk result (SameCounts (D.at desk.old) (D.at desk.new)) }
    ensures spared { IsErrOf result WriteFault.OutOfMemory → SameCounts (D.at desk.old) (D.at desk.new) }
    ensures moves { Moves D.tells Port.Report (D.held desk.old) (D.held desk.new) (D.at desk.old) (D.at desk.new) }
{
    let effects = match step_segment(&mut run.sessions, head, bytes) {
        Ok(effects) => effects,
        Err(_) => return Err(WriteFault::OutOfMemory),
    };
    take_changes(alloc, desk, &setup.roster, run, effects.changes.as_slice())
}
