ghost use Rattle.std.specs.Prelude.{◌≡◌, true};
ghost use Rattle.sfc_desk.specs.declared.ports.Port.{Port};
ghost use Rattle.commands.specs.Commands.{Behaves};
ghost use Rattle.show_command.specs.ShowCommand.{ShowCall, ShowRuns, show_ports};
ghost use Rattle.show_command.specs.ShowSteps.{ShowsSource, show_of};

use crate::header_texts::show_header;
use crate::show_words::{Format, ShowWords, show_words};
use crate::streams::show_stream;
use commands::{Status, Words, open_port};
use sfc_desk::{Desk, Port};
use std::alloc::Global;

/// Shows the bytes of the bound source.
fn show_bound<D: Desk>(alloc: Global, desk: &mut D, format: Format) -> Status
    requires source { (D.at desk.old Port.Source).bound ≡ true }
    ensures { ShowsSource format D.tells (D.at desk.old) (D.at desk.new) result }
{
    match format {
        Format::Nsh => show_header(alloc, desk),
        Format::Bgp => show_stream(alloc, desk),
    }
}

/// What `show` does where its words are said.
fn run_show<D: Desk>(alloc: Global, desk: &mut D, said: &ShowWords<'_>) -> Status
    ensures runs { ShowRuns (show_of said.now) D.tells (D.held desk.old) (D.at desk.old) (D.at desk.new) result }
    ensures behaves { Behaves (show_ports (show_of said.now)) D.tells (D.held desk.old) (D.at desk.old) (D.at desk.new) result }
{
    if open_port(desk, Port::Source, said.source).is_err() {
        return Status::File(Port::Source);
    }
    show_bound(alloc, desk, said.format)
}

/// The commands `show nsh FILE` and `show bgp FILE`: the lines that show the bytes of the file, or say where they
/// are refused.
///
/// Source is bound and read to its end, and Report gets the lines: of a header at the end, of a stream as it is read.
pub fn show_call<D: Desk>(alloc: Global, words: &Words, desk: &mut D) -> Status
    ensures { ShowCall words.now D.tells (D.held desk.old) (D.at desk.old) (D.at desk.new) result }
{
    match show_words(words) {
        Some(said) => run_show(alloc, desk, &said),
        None => Status::Words,
    }
}
