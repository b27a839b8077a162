ghost use Rattle.std.specs.Prelude.{◌≡◌, true, [], IfOk};
ghost use Rattle.sfc_desk.specs.Desks.{Moves};
ghost use Rattle.commands.specs.Commands.{Behaves};
ghost use Rattle.from_pcapng_command.specs.FromPcapngCommand.{FromPcapngCall, FromPcapngRuns, count_line, from_pcapng_ports};
ghost use Rattle.from_pcapng_command.specs.FromPcapngSteps.{MakesCapture, ReportsCounts, from_pcapng_of};

use crate::capture_makers::CaptureMaker;
use crate::from_pcapng_words::{FromPcapngWords, from_pcapng_words};
use commands::{Status, Words, open_port, report};
use frame_streams::convert;
use sfc_desk::{Desk, Port};
use std::alloc::Global;
use text_words::print_number;
use wire_base::{Bytes, OutOfMemory};

/// The line of the two counts.
fn counts_text(alloc: Global, chosen: u64, skipped: u64) -> Result<Bytes, OutOfMemory>
    ensures { IfOk result (λ text. text ≡ count_line chosen skipped) }
{
    let mut text = Bytes::new(alloc);
    text.push_all(b"frames=")?;
    print_number(&mut text, chosen)?;
    text.push_all(b" skipped=")?;
    print_number(&mut text, skipped)?;
    text.push_all(b"\n")?;
    Ok(text)
}

/// Writes the line of the two counts to Report.
fn report_counts<D: Desk>(alloc: Global, desk: &mut D, chosen: u64, skipped: u64) -> Status
    ensures reports { ReportsCounts chosen skipped D.tells (D.at desk.old) (D.at desk.new) result }
    ensures moves { Moves D.tells Port.Report (D.held desk.old) (D.held desk.new) (D.at desk.old) (D.at desk.new) }
{
    let Ok(text) = counts_text(alloc, chosen, skipped) else {
        return Status::Memory;
    };
    match report(desk, text.as_slice()) {
        Ok(()) => Status::Ok,
        Err(_) => Status::File(Port::Report),
    }
}

/// Makes the capture of the bound source in the bound Made, and writes the counts where that is done.
fn make_capture<D: Desk>(alloc: Global, desk: &mut D, interface: Option<u32>) -> Status
    requires source { (D.at desk.old Port.Source).bound ≡ true }
    requires made { (D.at desk.old Port.Made).bound ≡ true }
    requires empty { D.tells ≡ true → (D.at desk.old Port.Made).written ≡ [] }
    ensures { MakesCapture interface D.tells (D.at desk.old) (D.at desk.new) result }
{
    let mut maker = CaptureMaker::new(alloc, interface);
    match convert(alloc, desk, &mut maker, Port::Source, Port::Made) {
        Status::Ok => report_counts(alloc, desk, maker.chosen, maker.skipped),
        status => status,
    }
}

/// What `from-pcapng` does where its words are said.
fn run_from_pcapng<D: Desk>(alloc: Global, desk: &mut D, said: &FromPcapngWords<'_>) -> Status
    ensures runs { FromPcapngRuns (from_pcapng_of said.now) D.tells (D.held desk.old) (D.at desk.old) (D.at desk.new) result }
    ensures behaves { Behaves (from_pcapng_ports (from_pcapng_of said.now)) D.tells (D.held desk.old) (D.at desk.old) (D.at desk.new) result }
{
    if open_port(desk, Port::Source, said.source).is_err() {
        return Status::File(Port::Source);
    }
    if open_port(desk, Port::Made, said.made).is_err() {
        return Status::File(Port::Made);
    }
    make_capture(alloc, desk, said.interface)
}

/// The command `from-pcapng SOURCE INTERFACE MADE`: the frames of the pcapng file that are of an Ethernet and of the interface with
/// this number, in whatever section, or of every interface for `*`, as a capture of nanoseconds in little-endian order.
///
/// Source is bound, then Made. The source is read in pieces; the capture's file header is written once the first section header is
/// there and not refused. At the end Report gets `frames=N skipped=M`: how many frames were written, and how many of the file's were
/// not. Where the file is refused, the chosen frames before are written, and Report gets nothing.
pub fn from_pcapng_call<D: Desk>(alloc: Global, words: &Words, desk: &mut D) -> Status
    ensures { FromPcapngCall words.now D.tells (D.held desk.old) (D.at desk.old) (D.at desk.new) result }
{
    match from_pcapng_words(words) {
        Some(said) => run_from_pcapng(alloc, desk, &said),
        None => Status::Words,
    }
}
