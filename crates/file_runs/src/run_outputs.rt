//! The outputs of a run: the egress, the lines and the replies.

ghost use Rattle.std.specs.Prelude.{◌≡◌, ◌++◌, true, false, [], IfOk, OnOk};
ghost use Rattle.sfc_desk.specs.Ports.{is_input};
ghost use Rattle.sfc_desk.specs.declared.ports.Port.{Port};
ghost use Rattle.pcap_io.specs.declared.forms.Form.{Form as CaptureForm};
ghost use Rattle.pcap_io.specs.Heads.{file_head};
ghost use Rattle.round_outputs.specs.RoundOutputs.{AreNamed};
ghost use Rattle.worker_run.specs.Batches.{records_in};
ghost use Rattle.worker_run.specs.Outputs.{lines_from};
ghost use Rattle.round_inputs.specs.declared.halts.Halt.{Halt as RunHalt};
ghost use Rattle.file_runs.specs.Means.{halt_of_fault};
ghost use Rattle.file_runs.specs.RunPuts.{OutsFinish, OutsOpen, PutsAt, PutsTexts, batch_texts, head_in, packets_in};

use commands::{Output, WriteFault};
use pcap_io::{Form, capture_head};
use round_inputs::Halt;
use round_outputs::{put_lines, put_packets};
use sfc_desk::{Desk, Port};
use sfc_routes::Roster;
use std::alloc::Global;
use wire_base::{Bytes, OutOfMemory};
use worker_run::Batch;

/// The three outputs, and the buffer in which lines are made.
#[derive(Debug, Drop)]
pub struct RunOutputs {
    pub(crate) egress: Output,
    pub(crate) lines: Output,
    pub(crate) replies: Output,
    pub(crate) text: Bytes,
}

impl RunOutputs {
    /// Outputs where nothing waits.
    pub fn new(alloc: Global) -> Result<RunOutputs, OutOfMemory>
        ensures egress { IfOk result (λ outs. (outs.egress.port ≡ Port.Egress) × (outs.egress.bytes ≡ [])) }
        ensures lines { IfOk result (λ outs. (outs.lines.port ≡ Port.Lines) × (outs.lines.bytes ≡ [])) }
        ensures replies { IfOk result (λ outs. (outs.replies.port ≡ Port.Replies) × (outs.replies.bytes ≡ [])) }
    {
        Ok(RunOutputs {
            egress: Output::new(alloc, Port::Egress)?,
            lines: Output::new(alloc, Port::Lines)?,
            replies: Output::new(alloc, Port::Replies)?,
            text: Bytes::new(alloc),
        })
    }
}

/// Why a run stops where a write to the port failed.
fn halt_of(fault: WriteFault, port: Port) -> Halt
    ensures { result ≡ halt_of_fault fault port }
{
    match fault {
        WriteFault::File => Halt::File(port),
        WriteFault::OutOfMemory => Halt::OutOfMemory,
    }
}

/// Puts bytes at one of the outputs.
fn put_bytes<D: Desk>(
    desk: &mut D,
    output: &mut Output,
    port: Port,
    bytes: &[u8],
) -> Result<(), Halt>
    requires own { output.old.port ≡ port }
    requires bound { (D.at desk.old port).bound ≡ true }
    ensures { PutsAt D.tells port (D.at desk.old) (D.at desk.new) (D.held desk.old) (D.held desk.new) output.old output.new result bytes.now }
{
    match output.put(desk, bytes) {
        Ok(()) => Ok(()),
        Err(fault) => Err(halt_of(fault, port)),
    }
}

/// Puts the file header of the capture's form, where there is one.
fn put_head<D: Desk>(desk: &mut D, egress: &mut Output, form: Option<Form>) -> Result<(), Halt>
    requires own { egress.old.port ≡ Port.Egress }
    requires bound { (D.at desk.old Port.Egress).bound ≡ true }
    ensures { PutsAt D.tells Port.Egress (D.at desk.old) (D.at desk.new) (D.held desk.old) (D.held desk.new) egress.old egress.new result (head_in form) }
{
    match form {
        Some(form) => put_bytes(desk, egress, Port::Egress, &capture_head(form)),
        None => Ok(()),
    }
}

/// Puts the packets of the frames that go out.
fn put_frames<D: Desk>(
    desk: &mut D,
    egress: &mut Output,
    form: Form,
    batch: &Batch,
) -> Result<(), Halt>
    requires own { egress.old.port ≡ Port.Egress }
    requires bound { (D.at desk.old Port.Egress).bound ≡ true }
    ensures { PutsAt D.tells Port.Egress (D.at desk.old) (D.at desk.new) (D.held desk.old) (D.held desk.new) egress.old egress.new result (packets_in (Some form) batch.now) }
{
    match put_packets(desk, egress, form, batch) {
        Ok(()) => Ok(()),
        Err(fault) => Err(halt_of(fault, Port::Egress)),
    }
}

/// Puts the packets of the frames that go out, where there is a form.
fn put_egress<D: Desk>(
    desk: &mut D,
    egress: &mut Output,
    form: Option<Form>,
    batch: &Batch,
) -> Result<(), Halt>
    requires own { egress.old.port ≡ Port.Egress }
    requires bound { (D.at desk.old Port.Egress).bound ≡ true }
    ensures { PutsAt D.tells Port.Egress (D.at desk.old) (D.at desk.new) (D.held desk.old) (D.held desk.new) egress.old egress.new result (packets_in form batch.now) }
{
    match form {
        Some(form) => put_frames(desk, egress, form, batch),
        None => Ok(()),
    }
}

/// Puts the lines of the records.
fn put_records<D: Desk>(
    desk: &mut D,
    lines: &mut Output,
    text: &mut Bytes,
    roster: &Roster,
    place: u64,
    batch: &Batch,
) -> Result<(), Halt>
    requires own { lines.old.port ≡ Port.Lines }
    requires bound { (D.at desk.old Port.Lines).bound ≡ true }
    requires named { AreNamed roster.now batch.now }
    ensures { PutsAt D.tells Port.Lines (D.at desk.old) (D.at desk.new) (D.held desk.old) (D.held desk.new) lines.old lines.new result
        (lines_from roster.now place (records_in batch.now)) }
{
    match put_lines(desk, lines, text, roster, place, batch) {
        Ok(()) => Ok(()),
        Err(fault) => Err(halt_of(fault, Port::Lines)),
    }
}

/// Writes what waits at one of the outputs.
fn finish<D: Desk>(desk: &mut D, output: &mut Output, port: Port) -> Result<(), Halt>
    requires own { output.old.port ≡ port }
    requires bound { (D.at desk.old port).bound ≡ true }
    ensures puts { PutsAt D.tells port (D.at desk.old) (D.at desk.new) (D.held desk.old) (D.held desk.new) output.old output.new result [] }
    ensures nothing { output.new.bytes ≡ [] }
{
    match output.finish(desk) {
        Ok(()) => Ok(()),
        Err(_) => Err(Halt::File(port)),
    }
}

impl RunOutputs {
    ghost use Rattle.file_runs.specs.RunPuts.{NothingWaits, nothing_more, only_head};

    /// Puts the file header of the capture's form at the egress, where there is one.
    pub fn put_header<D: Desk>(&mut self, desk: &mut D, form: Option<Form>) -> Result<(), Halt>
        requires ready { OutsOpen (D.at desk.old) self.old }
        ensures { PutsTexts D.tells (D.at desk.old) (D.at desk.new) (D.held desk.old) (D.held desk.new) self.old self.new result (only_head form) }
    {
        put_head(desk, &mut self.egress, form)
    }

    /// Puts what a round comes to: the packets of the frames that go out, a line for each record, numbered from a place on, and the
    /// replies.
    fn put_texts<D: Desk>(
        &mut self,
        desk: &mut D,
        form: Option<Form>,
        roster: &Roster,
        place: u64,
        batch: &Batch,
        replies: &[u8],
    ) -> Result<(), Halt>
        requires ready { OutsOpen (D.at desk.old) self.old }
        requires named { AreNamed roster.now batch.now }
        ensures { PutsTexts D.tells (D.at desk.old) (D.at desk.new) (D.held desk.old) (D.held desk.new) self.old self.new result
            (batch_texts form roster.now place batch.now replies.now) }
    {
        if let Err(halt) = put_egress(desk, &mut self.egress, form, batch) {
            return Err(halt);
        }
        if let Err(halt) = put_records(
            desk,
            &mut self.lines,
            &mut self.text,
            roster,
            place,
            batch,
        ) {
            return Err(halt);
        }
        put_bytes(desk, &mut self.replies, Port::Replies, replies)
    }

    /// Writes what waits at each output.
    fn write_waiting<D: Desk>(&mut self, desk: &mut D) -> Result<(), Halt>
        requires ready { OutsOpen (D.at desk.old) self.old }
        ensures puts { PutsTexts D.tells (D.at desk.old) (D.at desk.new) (D.held desk.old) (D.held desk.new) self.old self.new result nothing_more }
        ensures nothing { OnOk result (NothingWaits self.new) }
    {
        if let Err(halt) = finish(desk, &mut self.egress, Port::Egress) {
            return Err(halt);
        }
        if let Err(halt) = finish(desk, &mut self.lines, Port::Lines) {
            return Err(halt);
        }
        finish(desk, &mut self.replies, Port::Replies)
    }

    /// Puts what a round comes to, and writes it: whoever reads an output sees each round as soon as it is done.
    pub fn put_round<D: Desk>(
        &mut self,
        desk: &mut D,
        form: Option<Form>,
        roster: &Roster,
        place: u64,
        batch: &Batch,
        replies: &[u8],
    ) -> Result<(), Halt>
        requires ready { OutsOpen (D.at desk.old) self.old }
        requires named { AreNamed roster.now batch.now }
        ensures { PutsTexts D.tells (D.at desk.old) (D.at desk.new) (D.held desk.old) (D.held desk.new) self.old self.new result
            (batch_texts form roster.now place batch.now replies.now) }
    {
        if let Err(halt) = self.put_texts(desk, form, roster, place, batch, replies) {
            return Err(halt);
        }
        self.write_waiting(desk)
    }

    /// Writes what waits at each output.
    pub fn finish<D: Desk>(&mut self, desk: &mut D) -> Result<(), Halt>
        requires ready { OutsOpen (D.at desk.old) self.old }
        ensures { OutsFinish D.tells (D.at desk.old) (D.at desk.new) (D.held desk.old) (D.held desk.new) self.old result }
    {
        self.write_waiting(desk)
    }
}
