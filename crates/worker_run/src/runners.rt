//! Rounds, one after the other.

ghost use Rattle.std.specs.Prelude.{◌≡◌, ◌+◌, ◌≤◌, ◌++◌, ℕ, List as Sequence, false, length, IfOk, OnOk};
ghost use Rattle.control_files.specs.declared.segments.Segment.{Segment as Given};
ghost use Rattle.sfc_routes.specs.declared.route_changes.RouteChange.{RouteChange as Change};
ghost use Rattle.sfc_routes.specs.LastWords.{Stands as AreAfter};
ghost use Rattle.session_machine.specs.Groups.{Entry};
ghost use Rattle.session_machine.specs.Peers.{AllHold};
ghost use Rattle.control_histories.specs.Versions.{TableAfter};
ghost use Rattle.worker_run.specs.Batches.{AreWithinLimits};
ghost use Rattle.worker_run.specs.Controls.{FollowsSome, Publishes, Ready, bytes_in};
ghost use Rattle.worker_run.specs.Steps.{Ran};

use crate::batches::Batch;
use crate::controls::Control;
use crate::forwarding::forward_all;
use crate::thread_rounds::run_threads;
use control_files::Segment;
use control_histories::table_after;
use forwarder::{Gate, Workspace};
use path_selection::Table;
use session_machine::Sessions;
use sfc_config::Setup;
use sfc_routes::{Roster, RouteList};
use std::alloc::Global;
use std::sync::Wait;
use std::thread::Threads;
use wire_base::{Bytes, List, OutOfMemory};

/// Brings the table to the version of the control side, where that has risen.
fn refresh(
    alloc: Global,
    roster: &Roster,
    control: &Control,
    before: u64,
    table: &mut Table,
) -> Result<(), OutOfMemory>
    requires { before ≤ control.now.version }
    ensures { (changes more : Sequence Change) → TableAfter roster.now changes table.old → AreAfter control.now.routes (changes ++ more)
        → before ≡ length changes → control.now.version ≡ length (changes ++ more) → OnOk result (TableAfter roster.now (changes ++ more) table.new) }
{
    if control.version == before {
        return Ok(());
    }
    *table = table_after(alloc, roster, &control.routes)?;
    Ok(())
}

/// A round: the segments are taken, the table is brought up to date, and the frames are forwarded over it.
fn run_round(
    alloc: Global,
    setup: &Setup,
    control: &mut Control,
    table: &mut Table,
    work: &mut Workspace,
    batch: &mut Batch,
    segments: &[Segment],
) -> Result<Bytes, OutOfMemory>
    requires limits { AreWithinLimits batch.old }
    requires ready { Ready control.old segments.now }
    requires some { FollowsSome control.old }
    ensures history { (history : Sequence Given) (log : Sequence Entry) → Publishes setup.now control.old table.old history log
        → IfOk result (λ replies. Ran setup.now control.new table.new history log segments.now batch.old batch.new replies) }
    ensures frames { length batch.new ≡ length batch.old }
    ensures count { (most : ℕ) → AllHold most control.old.sessions.sessions.items
        → OnOk result (AllHold (most + bytes_in segments.now) control.new.sessions.sessions.items) }
{
    let before = control.version;
    let mut replies = Bytes::new(alloc);
    control.take(segments, &mut replies)?;
    refresh(alloc, &setup.roster, control, before, table)?;
    forward_all(setup, table, control.version, work, batch)?;
    Ok(replies)
}

/// The sessions, the routes and the table of a setup, and what forwards frames over the table.
///
/// Clauses see what it stands for: the segments so far, and the log of their effects (`Stands`).
#[derive(Debug, Drop)]
pub struct Runner {
    alloc: Global,
    setup: Setup,
    workers: u32,
    control: Control,
    table: Table,
    work: Workspace,
    failed: bool,
}

impl Runner {
    ghost use Rattle.std.specs.Prelude.{[], true, OnErr};
    ghost use Rattle.control_histories.specs.Logs.{AreOfPeers};
    ghost use Rattle.worker_run.specs.Controls.{AreShort, HasRoomFor};
    ghost use Rattle.worker_run.specs.Runners.{IsSound, Rounded, RoundedOnThreads, Stands};

    /// A runner before the first segment, for 1 to 16 workers: version 0, which has no path.
    pub fn new(alloc: Global, setup: Setup, workers: u32) -> Result<Runner, OutOfMemory>
        requires { (1 ≤ workers) × (workers ≤ 16) }
        ensures setup { IfOk result (λ runner. runner.setup ≡ setup) }
        ensures workers { IfOk result (λ runner. runner.workers ≡ workers) }
        ensures history { IfOk result (λ runner. Stands runner [] []) }
        ensures sound { IfOk result (λ runner. IsSound runner) }
        ensures count { IfOk result (λ runner. AllHold 0 runner.control.sessions.sessions.items) }
    {
        let sessions = Sessions::new(alloc, setup.local, &setup.peers)?;
        let work = Workspace::new(alloc, false)?;
        let control = Control {
            sessions,
            routes: RouteList::new(alloc),
            version: 0,
        };
        Ok(Runner {
            alloc,
            setup,
            workers,
            control,
            table: Table::empty(alloc),
            work,
            failed: false,
        })
    }

    /// One round on one thread: the segments step the sessions, then all frames are forwarded over the table of the last version, as
    /// worker 0. The answer is what the segments are answered, as segments of a control file. After want of memory the runner has
    /// failed, and the batch has as many frames as before.
    pub fn single_round(
        &mut self,
        batch: &mut Batch,
        segments: &List<Segment>,
    ) -> Result<Bytes, OutOfMemory>
        requires sound { IsSound self.old }
        requires limits { AreWithinLimits batch.old }
        requires peers { AreOfPeers self.old.setup.peers segments.now }
        requires short { AreShort segments.now }
        requires room { HasRoomFor self.old.control segments.now }
        ensures history { (history : Sequence Given) (log : Sequence Entry) → Stands self.old history log
            → IfOk result (λ replies. Rounded self.new history log segments.now batch.old batch.new replies) }
        ensures sound { IsSound self.new }
        ensures setup { self.new.setup ≡ self.old.setup }
        ensures workers { self.new.workers ≡ self.old.workers }
        ensures again { self.old.failed ≡ true → OnOk result ⊥ }
        ensures failed { OnErr result (self.new.failed ≡ true) }
        ensures frames { length batch.new ≡ length batch.old }
        ensures count { (most : ℕ) → AllHold most self.old.control.sessions.sessions.items
            → OnOk result (AllHold (most + bytes_in segments.now) self.new.control.sessions.sessions.items) }
    {
        if self.failed {
            return Err(OutOfMemory);
        }
        match run_round(
            self.alloc,
            &self.setup,
            &mut self.control,
            &mut self.table,
            &mut self.work,
            batch,
            segments.as_slice(),
        ) {
            Ok(replies) => Ok(replies),
            Err(fault) => {
                self.failed = true;
                Err(fault)
            }
        }
    }

    /// One round on threads: the segments step the sessions, and each change of routes that they give makes a version. Workers forward
    /// the frames, each in a thread of its own where one can be made, in consecutive shares whose sizes differ by at most 1, while
    /// the versions are published one by one; the threads end with the round. The gate is told of each lookup and each version.
    ///
    /// A worker without a seat forwards over the table that the round opens with. Where a lookup is refused, this frame and the later
    /// ones of its share are forwarded over the last table, by the same worker. The answer is what the segments are answered, as
    /// segments of a control file. After want of memory the runner has failed, and the batch has as many frames as before.
    pub fn round<R: Threads + Wait + Sync, G: Gate>(
        &mut self,
        rt: &R,
        gate: &G,
        batch: &mut Batch,
        segments: &List<Segment>,
    ) -> Result<Bytes, OutOfMemory>
        requires sound { IsSound self.old }
        requires workers { (1 ≤ self.old.workers) × (self.old.workers ≤ 16) }
        requires limits { AreWithinLimits batch.old }
        requires peers { AreOfPeers self.old.setup.peers segments.now }
        requires short { AreShort segments.now }
        requires room { HasRoomFor self.old.control segments.now }
        ensures history { (history : Sequence Given) (log : Sequence Entry) → Stands self.old history log
            → IfOk result (λ replies. RoundedOnThreads self.new history log segments.now batch.old batch.new replies) }
        ensures sound { IsSound self.new }
        ensures setup { self.new.setup ≡ self.old.setup }
        ensures workers { self.new.workers ≡ self.old.workers }
        ensures again { self.old.failed ≡ true → OnOk result ⊥ }
        ensures failed { OnErr result (self.new.failed ≡ true) }
        ensures frames { length batch.new ≡ length batch.old }
        ensures count { (most : ℕ) → AllHold most self.old.control.sessions.sessions.items
            → OnOk result (AllHold (most + bytes_in segments.now) self.new.control.sessions.sessions.items) }
    {
        if self.failed {
            return Err(OutOfMemory);
        }
        match run_threads(
            rt,
            self.alloc,
            &self.setup,
            gate,
            self.workers,
            &mut self.control,
            &mut self.table,
            batch,
            segments.as_slice(),
        ) {
            Ok(replies) => Ok(replies),
            Err(fault) => {
                self.failed = true;
                Err(fault)
            }
        }
    }

    /// How many workers there are, 1 to 16. On one thread there is worker 0 alone.
    pub fn workers(&self) -> u32
        ensures { result ≡ self.now.workers }
    {
        self.workers
    }

    /// The version of the table: how many changes of routes there were.
    pub fn version(&self) -> u64
        ensures { result ≡ self.now.control.version }
    {
        self.control.version
    }

    /// The table of the last version.
    pub fn table(&self) -> &Table
        ensures { result.now ≡ self.now.table }
    {
        &self.table
    }

    /// The setup, which no call changes.
    pub fn setup(&self) -> &Setup
        ensures { result.now ≡ self.now.setup }
    {
        &self.setup
    }
}
