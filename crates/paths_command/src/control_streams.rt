//! The bound control file, a segment at a time.

ghost use Rattle.std.specs.Prelude.{◌≡◌, ◌≢◌, ◌+◌, ◌-◌, ◌*◌, ◌^◌, ◌<◌, ◌≤◌, true, false, length, IfOk, IfErr, OnOk};
ghost use Rattle.sfc_desk.specs.declared.ports.Port.{Port as DeskPort};
ghost use Rattle.sfc_desk.specs.Desks.{Shown as PortShown, Moves};
ghost use Rattle.sfc_config.specs.Parts.{AreParts};
ghost use Rattle.paths_command.specs.PathsSteps.{status_of_fault, ReadsPiece, ReadStops, EndSays, StreamOn, StreamEnded, StreamSays};

use crate::version_runs::{VersionRun, show_version, take_segment, version_zero};
use commands::{PIECE, Status, WriteFault, read_into};
use control_files::{ControlFault, ControlFeed};
use sfc_config::Setup;
use sfc_desk::{Desk, Port};
use std::alloc::Global;

/// The most bytes that are read of a control file.
const LIMIT: u64 = 1 << 40;

/// The status of a version that was not written.
fn status_of(fault: WriteFault) -> Status
    ensures { result ≡ status_of_fault fault }
{
    match fault {
        WriteFault::File => Status::File(Port::Report),
        WriteFault::OutOfMemory => Status::Memory,
    }
}

/// Reads a piece into the feed, and tells whether there was one.
fn read_piece<D: Desk>(desk: &mut D, feed: &mut ControlFeed) -> Result<bool, Status>
    requires bound { (D.at desk.old Port.Control).bound ≡ true }
    requires few { feed.old.place + length feed.old.rest ≤ 2 ^ 40 }
    ensures reads { IfOk result (ReadsPiece D.tells (D.at desk.old) (D.at desk.new) feed.old feed.new) }
    ensures stops { IfErr result (ReadStops D.tells (D.at desk.old) (D.at desk.new) feed.old) }
    ensures moves { Moves D.tells Port.Control (D.held desk.old) (D.held desk.new) (D.at desk.old) (D.at desk.new) }
{
    if feed.make_room(PIECE).is_err() {
        return Err(Status::Memory);
    }
    let Ok(count) = read_into(desk, Port::Control, feed.room()) else {
        return Err(Status::File(Port::Control));
    };
    feed.filled(count);
    if feed.place() + feed.held() as u64 > LIMIT {
        return Err(Status::Long(Port::Control));
    }
    Ok(count != 0)
}

/// Takes the next segment, or reads a piece where none is whole; tells whether there may be more.
fn take_next<D: Desk>(
    alloc: Global,
    desk: &mut D,
    setup: &Setup,
    feed: &mut ControlFeed,
    run: &mut VersionRun,
) -> Result<bool, Status>
    requires { (then : DeskPort → PortShown) × StreamOn setup.now D.tells then (D.at desk.old) feed.old run.old }
    ensures goes_on { (then : DeskPort → PortShown) → StreamOn setup.now D.tells then (D.at desk.old) feed.old run.old
        → IfOk result (λ more. more ≡ true → StreamOn setup.now D.tells then (D.at desk.new) feed.new run.new) }
    ensures ended { (then : DeskPort → PortShown) → StreamOn setup.now D.tells then (D.at desk.old) feed.old run.old
        → IfOk result (λ more. more ≡ false → StreamEnded setup.now D.tells then (D.at desk.new) feed.new run.new) }
    ensures stops { (then : DeskPort → PortShown) → StreamOn setup.now D.tells then (D.at desk.old) feed.old run.old
        → IfErr result (StreamSays setup.now D.tells then (D.at desk.new)) }
    ensures falls { IfOk result (λ more. more ≡ true
        → 2 * (2 ^ 40 - (feed.new.place + length feed.new.rest)) + length feed.new.rest
        < 2 * (2 ^ 40 - (feed.old.place + length feed.old.rest)) + length feed.old.rest) }
{
    match feed.next_segment() {
        Ok(Some(head)) => match take_segment(alloc, desk, setup, run, head, &feed.segment()[23..]) {
            Ok(()) => Ok(true),
            Err(fault) => Err(status_of(fault)),
        },
        Ok(None) => read_piece(desk, feed),
        Err(refusal) => Err(Status::Control(refusal.place, refusal.reason)),
    }
}

/// How a control file ends that was read to its end.
fn end_of(feed: &ControlFeed) -> Status
    ensures { EndSays feed.now result }
{
    match feed.finish() {
        Ok(()) => Status::Ok,
        Err(ControlFault::Bad(place, reason)) => Status::Control(place, reason),
        Err(ControlFault::OutOfMemory) => Status::Memory,
    }
}

/// Takes the segments to the end of the control file, and says how that ends.
fn take_all<D: Desk>(
    alloc: Global,
    desk: &mut D,
    setup: &Setup,
    feed: &mut ControlFeed,
    run: &mut VersionRun,
) -> Status
    requires { (then : DeskPort → PortShown) × StreamOn setup.now D.tells then (D.at desk.old) feed.old run.old }
    ensures { (then : DeskPort → PortShown) → StreamOn setup.now D.tells then (D.at desk.old) feed.old run.old
        → StreamSays setup.now D.tells then (D.at desk.new) result }
{
    'segments: loop {
        match take_next(alloc, desk, setup, feed, run) {
            Ok(true) => {}
            Ok(false) => return end_of(feed),
            Err(status) => return status,
        }
    }
}

/// Writes version 0, and then the versions that the segments of the bound control file make, each as it is made.
pub(crate) fn paths_stream<D: Desk>(alloc: Global, desk: &mut D, setup: &Setup) -> Status
    requires control { (D.at desk.old Port.Control).bound ≡ true }
    ensures says { StreamSays setup.now D.tells (D.at desk.old) (D.at desk.new) result }
    ensures kept { AreParts setup.now }
{
    let (peers, roster) = (&setup.peers, &setup.roster);
    let Ok(mut feed) = ControlFeed::new(alloc, peers) else {
        return Status::Memory;
    };
    let Ok(mut run) = version_zero(alloc, setup) else {
        return Status::Memory;
    };
    match show_version(alloc, desk, roster, &run) {
        Ok(()) => take_all(alloc, desk, setup, &mut feed, &mut run),
        Err(fault) => status_of(fault),
    }
}
