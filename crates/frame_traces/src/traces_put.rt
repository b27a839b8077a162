//! The packets between forwarders of the frames of a batch.

ghost use Rattle.std.specs.Prelude.{◌≡◌, ◌+◌, ◌<◌, List as Sequence, ℕ, true, length, take, IfSome, IfOk, OnOk};
ghost use Rattle.std.specs.List.{AllZip, HoldsAt};
ghost use Rattle.wire_base.specs.Numbers.{AreBytes};
ghost use Rattle.control_files.specs.declared.segments.Segment.{Segment};
ghost use Rattle.session_machine.specs.Groups.{Entry};
ghost use Rattle.pcap_io.specs.Captures.{packet, packets};
ghost use Rattle.control_histories.specs.Logs.{changes_of};
ghost use Rattle.worker_run.specs.Batches.{AreWithinLimits, frames_in};
ghost use Rattle.worker_run.specs.Runners.{Stands};
ghost use Rattle.round_outputs.specs.RoundOutputs.{Puts};
ghost use Rattle.frame_traces.specs.Keeping.{KeepsWalk, PutsEach, PutsFirst, as_captured};
ghost use Rattle.frame_traces.specs.Traces.{OneWalkEach, TracesFrame, trace_packets};

use commands::{Output, WriteFault};
use forwarder::{FrameIn, OpenGate, Workspace, forward};
use path_selection::Still;
use pcap_io::{Form, MAX_CAPTURED};
use round_outputs::put_packet;
use sfc_desk::Desk;
use worker_run::{Batch, Runner};

/// Forwards the frame at a place over the table of the last version, as worker 0. The workspace then keeps the packets of its walk.
fn forward_frame(runner: &Runner, work: &mut Workspace, batch: &Batch, i: usize)
    requires there { i < length batch.now }
    requires limits { AreWithinLimits batch.now }
    requires kept { work.old.traced ≡ true }
    ensures kept { work.new.traced ≡ true }
    ensures walk { (history : Sequence Segment) (log : Sequence Entry) → Stands runner.now history log
        → HoldsAt (λ c. KeepsWalk runner.now.setup (changes_of log) c.frame work.new.packets) batch.now i }
{
    let mut still = Still::new(runner.table(), runner.version());
    let frame = FrameIn {
        bytes: batch.bytes_of(i),
        original: batch.original_of(i),
    };
    match forward(runner.setup(), &mut still, &OpenGate, work, frame, 0) {
        Some(_) => {}
        None => unreachable!(),
    }
}

/// The length on the wire of a packet, of whose frame so many bytes were not captured. None has 2^32 bytes.
fn original_of(whole: &[u8], missing: u32) -> Option<u32>
    ensures { IfSome result (λ original. original ≡ length whole.now + missing) }
{
    match u32::try_from(whole.len()) {
        Ok(captured) => captured.checked_add(missing),
        Err(_) => None,
    }
}

/// Puts one packet, of which at most 262,144 bytes are captured.
fn put_handed<D: Desk>(
    desk: &mut D,
    trace: &mut Output,
    form: Form,
    times: (u32, u32),
    missing: u32,
    whole: &[u8],
) -> Result<(), WriteFault>
    requires bound { (D.at desk.old trace.old.port).bound ≡ true }
    ensures puts { Puts D.tells (D.at desk.old) (D.at desk.new) (D.held desk.old) (D.held desk.new) trace.old trace.new result
        (packet form (as_captured times.0 times.1 missing whole.now)) }
    ensures are_bytes { AreBytes whole.now }
{
    let Some(original) = original_of(whole, missing) else {
        return Err(WriteFault::OutOfMemory);
    };
    let captured = (MAX_CAPTURED as usize).min(whole.len());
    put_packet(desk, trace, form, times, original, &whole[..captured])
}

/// Puts the packets that a workspace keeps of a walk, in order.
fn put_walk<D: Desk>(
    desk: &mut D,
    trace: &mut Output,
    form: Form,
    times: (u32, u32),
    missing: u32,
    work: &Workspace,
) -> Result<(), WriteFault>
    requires bound { (D.at desk.old trace.old.port).bound ≡ true }
    ensures { PutsFirst D.tells (D.at desk.old) (D.at desk.new) (D.held desk.old) (D.held desk.new) trace.old trace.new result
        form times.0 times.1 missing work.now.packets }
{
    for k in 0..work.trace_len() {
        if let Err(fault) = put_handed(desk, trace, form, times, missing, work.trace(k)) {
            return Err(fault);
        }
    }
    Ok(())
}

/// Forwards the frame at a place, and puts the packets of its walk.
fn trace_frame<D: Desk>(
    desk: &mut D,
    trace: &mut Output,
    form: Form,
    runner: &Runner,
    work: &mut Workspace,
    batch: &Batch,
    i: usize,
) -> Result<(), WriteFault>
    requires bound { (D.at desk.old trace.old.port).bound ≡ true }
    requires there { i < length batch.now }
    requires limits { AreWithinLimits batch.now }
    requires kept { work.old.traced ≡ true }
    ensures kept { work.new.traced ≡ true }
    ensures puts { (bytes : Sequence ℕ) × Puts D.tells (D.at desk.old) (D.at desk.new) (D.held desk.old) (D.held desk.new) trace.old trace.new result bytes }
    ensures traces { (history : Sequence Segment) (log : Sequence Entry) → Stands runner.now history log → OneWalkEach runner.now.setup (changes_of log)
        → HoldsAt (λ c. PutsEach D.tells (D.at desk.old) (D.at desk.new) (D.held desk.old) (D.held desk.new) trace.old trace.new result
        (TracesFrame runner.now.setup (changes_of log) c.frame) (packets form)) batch.now i }
{
    forward_frame(runner, work, batch, i);
    let missing = batch.original_of(i) - batch.bytes_of(i).len() as u32;
    put_walk(desk, trace, form, batch.times_of(i), missing, work)
}

/// Forwards the frames of a batch in order over the table of the runner's last version, as worker 0, and appends the packets between
/// forwarders of each to what the port took and what waits, in order of the frames and then of the turns. They have the times of
/// their frame, in the file's form, and at most 262,144 captured bytes.
///
/// The workspace is one that keeps packets. The batch stays as it is.
pub fn put_traces<D: Desk>(
    desk: &mut D,
    trace: &mut Output,
    form: Form,
    runner: &Runner,
    work: &mut Workspace,
    batch: &Batch,
) -> Result<(), WriteFault>
    requires bound { (D.at desk.old trace.old.port).bound ≡ true }
    requires limits { AreWithinLimits batch.now }
    requires kept { work.old.traced ≡ true }
    ensures kept { work.new.traced ≡ true }
    ensures puts { (bytes : Sequence ℕ) × Puts D.tells (D.at desk.old) (D.at desk.new) (D.held desk.old) (D.held desk.new) trace.old trace.new result bytes }

    // By `a_frame_has_one_single_walk` a frame has one walk. What was taken after a fault is a front of what every run hands over.
    ensures traces { (history : Sequence Segment) (log : Sequence Entry) → Stands runner.now history log → OneWalkEach runner.now.setup (changes_of log)
        → PutsEach D.tells (D.at desk.old) (D.at desk.new) (D.held desk.old) (D.held desk.new) trace.old trace.new result
        (AllZip (λ frame handed. TracesFrame runner.now.setup (changes_of log) frame handed) (frames_in batch.now)) (trace_packets form) }
{
    for i in 0..batch.len() {
        if let Err(fault) = trace_frame(desk, trace, form, runner, work, batch, i) {
            return Err(fault);
        }
    }
    Ok(())
}
