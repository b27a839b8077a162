//! The packets of a batch.

ghost use Rattle.std.specs.Prelude.{◌≡◌, ◌<◌, ◌++◌, true, length, OnOk, IsErrOf};
ghost use Rattle.std.specs.List.{HoldsAt};
ghost use Rattle.sfc_desk.specs.Desks.{Rose, Moves};
ghost use Rattle.pcap_io.specs.Captures.{packet};
ghost use Rattle.commands.specs.Fronts.{IsFront};
ghost use Rattle.commands.specs.Pieces.{SameCounts};
ghost use Rattle.worker_run.specs.Outputs.{goes_out as end_goes_out, packet_out, packets_out};
ghost use Rattle.round_outputs.specs.RoundOutputs.{Puts};

use commands::{Output, WriteFault};
use pcap_io::{Form, packet_head};
use record_text::End;
use sfc_desk::Desk;
use worker_run::Batch;

/// Whether a frame goes out at an end.
fn goes_out(end: End) -> bool
    ensures { result ≡ end_goes_out end }
{
    match end {
        End::Egress => true,
        End::Bypass => true,
        End::Drop(_) => false,
    }
}

/// Appends one packet, its head and then its bytes, to what the port took and what waits, as one `Output::put` of them would.
///
/// Its head says in 32 bits how many bytes it has. Where there are more, the answer is want of memory.
pub fn put_packet<D: Desk>(
    desk: &mut D,
    egress: &mut Output,
    form: Form,
    times: (u32, u32),
    original: u32,
    bytes: &[u8],
) -> Result<(), WriteFault>
    requires bound { (D.at desk.old egress.old.port).bound ≡ true }
    ensures { Puts D.tells (D.at desk.old) (D.at desk.new) (D.held desk.old) (D.held desk.new) egress.old egress.new result
        (packet form (record { seconds = times.0; fraction = times.1; original = original; bytes = bytes.now })) }
{
    let (seconds, fraction) = times;
    let Ok(captured) = u32::try_from(bytes.len()) else {
        return Err(WriteFault::OutOfMemory);
    };
    let head = packet_head(form, seconds, fraction, captured, original);
    if let Err(fault) = egress.put(desk, &head) {
        return Err(fault);
    }
    egress.put(desk, bytes)
}

/// Puts the packet of the frame at a place, where it goes out.
fn put_left<D: Desk>(
    desk: &mut D,
    egress: &mut Output,
    form: Form,
    batch: &Batch,
    i: usize,
) -> Result<(), WriteFault>
    requires bound { (D.at desk.old egress.old.port).bound ≡ true }
    requires there { i < length batch.now }
    ensures { HoldsAt (λ c. Puts D.tells (D.at desk.old) (D.at desk.new) (D.held desk.old) (D.held desk.new) egress.old egress.new result
        (packet_out form c)) batch.now i }
{
    if !goes_out(batch.end_of(i).end) {
        return Ok(());
    }
    put_packet(
        desk,
        egress,
        form,
        batch.times_of(i),
        batch.original_of(i),
        batch.bytes_of(i),
    )
}

/// Puts the packets of all frames that go out.
fn put_all<D: Desk>(
    desk: &mut D,
    egress: &mut Output,
    form: Form,
    batch: &Batch,
) -> Result<(), WriteFault>
    requires bound { (D.at desk.old egress.old.port).bound ≡ true }
    ensures { Puts D.tells (D.at desk.old) (D.at desk.new) (D.held desk.old) (D.held desk.new) egress.old egress.new result
        (packets_out form batch.now) }
{
    for i in 0..batch.len() {
        if let Err(fault) = put_left(desk, egress, form, batch, i) {
            return Err(fault);
        }
    }
    Ok(())
}

/// Appends the packets of the frames of a batch that go out, in order, to what the port took and what waits. Each has the times and the
/// original length that the batch has, in the file's form.
///
/// Where a frame has 2^32 bytes or more, as none of a capture has, the answer is want of memory.
pub fn put_packets<D: Desk>(
    desk: &mut D,
    egress: &mut Output,
    form: Form,
    batch: &Batch,
) -> Result<(), WriteFault>
    requires bound { (D.at desk.old egress.old.port).bound ≡ true }
    ensures port { egress.new.port ≡ egress.old.port }
    ensures ok { D.tells ≡ true → OnOk result ((D.at desk.new egress.old.port).written ++ egress.new.bytes
        ≡ ((D.at desk.old egress.old.port).written ++ egress.old.bytes) ++ packets_out form batch.now) }
    ensures front { D.tells ≡ true → IsFront (D.at desk.new egress.old.port).written
        (((D.at desk.old egress.old.port).written ++ egress.old.bytes) ++ packets_out form batch.now) }
    ensures cause { IsErrOf result WriteFault.File → Rose (D.at desk.old egress.old.port) (D.at desk.new egress.old.port) }
    ensures quiet { OnOk result (SameCounts (D.at desk.old) (D.at desk.new)) }
    ensures spared { IsErrOf result WriteFault.OutOfMemory → SameCounts (D.at desk.old) (D.at desk.new) }
    ensures moves { Moves D.tells egress.old.port (D.held desk.old) (D.held desk.new) (D.at desk.old) (D.at desk.new) }
{
    put_all(desk, egress, form, batch)
}
