ghost use Rattle.std.specs.Prelude.{◌≡◌, ◌≢◌, ◌↔◌, true};
ghost use Rattle.sfc_desk.specs.declared.ports.Port.{Port};
ghost use Rattle.commands.specs.declared.statuses.Status.{Status as Answered};
ghost use Rattle.commands.specs.Commands.{NoneRose};
ghost use Rattle.sfc_program.specs.SfcCalls.{Command, Spells, Runs, Wants, RowCall, row_of as row_of_words};

use announce_command::announce_call;
use commands::{Status, Words};
use forwarder::Gate;
use from_pcapng_command::from_pcapng_call;
use generate_command::generate_call;
use paths_command::paths_call;
use run_command::run_call;
use sfc_desk::Desk;
use show_command::show_call;
use single_command::single_call;
use std::alloc::Global;
use std::sync::Wait;
use std::thread::Threads;
use to_pcapng_command::to_pcapng_call;
use walk_command::walk_call;

/// The commands, by their first words.
#[derive(Clone, Copy, Debug, PartialEq, Eq)]
pub(crate) enum Row {
    Walk,
    Show,
    Announce,
    Paths,
    Single,
    Run,
    Generate,
    FromPcapng,
    ToPcapng,
    /// No command has these words.
    Unknown,
}

/// The command that the first word names.
fn row_of(words: &Words) -> Row
    ensures { result ≡ row_of_words words.now }
{
    if words.len() == 0 {
        return Row::Unknown;
    }
    if words.word(0) == "walk" {
        return Row::Walk;
    }
    if words.word(0) == "show" {
        return Row::Show;
    }
    if words.word(0) == "announce" {
        return Row::Announce;
    }
    if words.word(0) == "paths" {
        return Row::Paths;
    }
    if words.word(0) == "single" {
        return Row::Single;
    }
    if words.word(0) == "run" {
        return Row::Run;
    }
    if words.word(0) == "generate" {
        return Row::Generate;
    }
    if words.word(0) == "from-pcapng" {
        return Row::FromPcapng;
    }
    if words.word(0) == "to-pcapng" {
        return Row::ToPcapng;
    }
    Row::Unknown
}

/// Hands the words to the call of their command, of which `run` alone takes the runtime and the gate.
fn call_row<R: Threads + Wait + Sync, D: Desk, G: Gate>(
    rt: &R,
    alloc: Global,
    row: Row,
    words: &Words,
    desk: &mut D,
    gate: &G,
) -> Status
    ensures { RowCall row words.now D.tells (D.held desk.old) (D.at desk.old) (D.at desk.new) result }
{
    match row {
        Row::Walk => walk_call(alloc, words, desk),
        Row::Show => show_call(alloc, words, desk),
        Row::Announce => announce_call(alloc, words, desk),
        Row::Paths => paths_call(alloc, words, desk),
        Row::Single => single_call(alloc, words, desk),
        Row::Run => run_call(rt, alloc, words, desk, gate),
        Row::Generate => generate_call(alloc, words, desk),
        Row::FromPcapng => from_pcapng_call(alloc, words, desk),
        Row::ToPcapng => to_pcapng_call(alloc, words, desk),
        Row::Unknown => Status::Words,
    }
}

/// All that the program does: the command that the words spell, over the desk.
///
/// The command `run` starts threads and may wait for them; the gate is told of their lookups, and of the versions that are published. Each
/// other command is a call of its own that waits for nobody and returns.
pub fn sfc_call<R: Threads + Wait + Sync, D: Desk, G: Gate>(
    rt: &R,
    alloc: Global,
    words: &Words,
    desk: &mut D,
    gate: &G,
) -> Status
    // Words comes exactly where the words spell no command.
    ensures words { (result ≡ Status.Words) ↔ ((command : Command) → Spells words.now command → ⊥) }
    // Each answer has its cause, and says what was written.
    ensures runs { (command : Command) → Spells words.now command
        → Runs command D.tells (D.held desk.old) (D.at desk.old) (D.at desk.new) result }
    // At Words no port is touched.
    ensures untouched { result ≡ Status.Words → (port : Port) → D.at desk.new port ≡ D.at desk.old port }
    // What the files ask for is the answer, where the desk tells, no call failed and memory was there.
    ensures exact { (command : Command) (wanted : Answered) → Spells words.now command
        → Wants command (D.held desk.old) wanted
        → D.tells ≡ true → NoneRose (D.at desk.old) (D.at desk.new) → result ≢ Status.Memory → result ≡ wanted }
{
    let row = row_of(words);
    call_row(rt, alloc, row, words, desk, gate)
}
