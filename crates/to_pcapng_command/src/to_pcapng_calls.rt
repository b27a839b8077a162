ghost use Rattle.commands.specs.Commands.{Behaves};
ghost use Rattle.to_pcapng_command.specs.ToPcapngCommand.{ToPcapngCall, ToPcapngRuns, to_pcapng_ports};
ghost use Rattle.to_pcapng_command.specs.ToPcapngSteps.{to_pcapng_of};

use crate::ng_writers::NgWriter;
use crate::to_pcapng_words::{ToPcapngWords, to_pcapng_words};
use commands::{Status, Words, open_port};
use frame_streams::convert;
use sfc_desk::{Desk, Port};
use std::alloc::Global;

/// What `to-pcapng` does where its words are said.
fn run_to_pcapng<D: Desk>(alloc: Global, desk: &mut D, said: &ToPcapngWords<'_>) -> Status
    ensures runs { ToPcapngRuns (to_pcapng_of said.now) D.tells (D.held desk.old) (D.at desk.old) (D.at desk.new) result }
    ensures behaves { Behaves (to_pcapng_ports (to_pcapng_of said.now)) D.tells (D.held desk.old) (D.at desk.old) (D.at desk.new) result }
{
    if open_port(desk, Port::Capture, said.capture).is_err() {
        return Status::File(Port::Capture);
    }
    if open_port(desk, Port::Made, said.made).is_err() {
        return Status::File(Port::Made);
    }
    let mut writer = NgWriter::new(alloc);
    convert(alloc, desk, &mut writer, Port::Capture, Port::Made)
}

/// The command `to-pcapng CAPTURE MADE`: the frames of the capture as a pcapng file of one section and one Ethernet interface, in
/// little-endian order, with the resolution of the capture's fractions (pcapng, sections 4.1 to 4.3).
///
/// Capture is bound, then Made. The capture is read in pieces, and may have any of the four forms. The 60 bytes before the packets
/// are written once its file header is accepted. A fraction past a second is carried into the seconds; a frame that this brings past
/// 4,294,967,295 seconds is refused as `capture PLACE time` at its fraction. After a refusal the frames before are written.
pub fn to_pcapng_call<D: Desk>(alloc: Global, words: &Words, desk: &mut D) -> Status
    ensures { ToPcapngCall words.now D.tells (D.held desk.old) (D.at desk.old) (D.at desk.new) result }
{
    match to_pcapng_words(words) {
        Some(said) => run_to_pcapng(alloc, desk, &said),
        None => Status::Words,
    }
}
