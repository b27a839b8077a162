//! The next pieces of both inputs.

ghost use Rattle.std.specs.Prelude.{◌≡◌, ◌+◌, ◌^◌, ◌<◌, ◌≤◌, ℕ, true, false, List, [], ◌++◌, take, length, IfOk, OnOk, OnErr, Err};
ghost use Rattle.sfc_desk.specs.Ports.{is_input};
ghost use Rattle.sfc_desk.specs.Desks.{Moves};
ghost use Rattle.sfc_desk.specs.declared.ports.Port.{Port};
ghost use Rattle.pcap_io.specs.declared.frames.Captured.{Captured};
ghost use Rattle.control_files.specs.declared.segments.Segment.{Segment};
ghost use Rattle.round_inputs.specs.declared.halts.Halt.TheVariants as halts;
ghost use Rattle.round_inputs.specs.Halts.{Counts, IsPort, IsRead};
ghost use Rattle.round_inputs.specs.Reading.{FramesRead, SegmentsRead};

use crate::halts::Halt;
use commands::PIECE;
use control_files::ControlFeed;
use pcap_io::CaptureFeed;
use sfc_desk::{Desk, Port};

/// The most bytes that are read of an input.
const LIMIT: u64 = 1 << 40;

/// Moves the next bytes of one of the inputs to the front of the slice, and tells how many there were.
fn read_at<D: Desk>(desk: &mut D, port: Port, into: &mut [u8]) -> Result<usize, Halt>
    requires bound { (D.at desk.old port).bound ≡ true }
    requires read { IsRead port }
    ensures count { IfOk result (λ n. n ≤ length into.new) }
    ensures room { length into.new ≡ length into.old }
    ensures bytes { D.tells ≡ true → IfOk result (λ n.
        (D.at desk.old port).left ≡ take n into.new ++ (D.at desk.new port).left) }
    ensures end { D.tells ≡ true → IfOk result (λ n.
        n ≡ 0 → 0 < length into.new → (D.at desk.old port).left ≡ []) }
    ensures counts { Counts (IsPort port) (D.at desk.old) (D.at desk.new) result }
    ensures halt { OnErr result (result ≡ Err (halts.File port)) }
    ensures moves { Moves D.tells port (D.held desk.old) (D.held desk.new) (D.at desk.old) (D.at desk.new) }
{
    match desk.read(port, into) {
        Ok(count) => Ok(count),
        Err(_) => Err(Halt::File(port)),
    }
}

/// Reads a piece of the capture into the feed, and tells whether there was one.
pub(crate) fn read_capture<D: Desk>(desk: &mut D, feed: &mut CaptureFeed) -> Result<bool, Halt>
    requires bound { (D.at desk.old Port.Capture).bound ≡ true }
    requires few { feed.old.place + length feed.old.rest ≤ 2 ^ 40 }
    ensures follows { (input : List ℕ) (given : List Captured) → FramesRead D.tells input (D.at desk.old Port.Capture).left feed.old given
        → OnOk result (FramesRead D.tells input (D.at desk.new Port.Capture).left feed.new given) }
    ensures long { (input : List ℕ) (given : List Captured) → FramesRead D.tells input (D.at desk.old Port.Capture).left feed.old given
        → result ≡ Err (halts.Long Port.Capture) → D.tells ≡ true → 2 ^ 40 < length input }
    ensures end { D.tells ≡ true → IfOk result (λ some. some ≡ false → (D.at desk.new Port.Capture).left ≡ []) }
    ensures still { IfOk result (λ some. some ≡ false → feed.new.rest ≡ feed.old.rest) }
    ensures more { IfOk result (λ some. some ≡ true → feed.old.place + length feed.old.rest < feed.new.place + length feed.new.rest) }
    ensures few { OnOk result (feed.new.place + length feed.new.rest ≤ 2 ^ 40) }
    ensures form { feed.new.form ≡ feed.old.form }
    ensures place { feed.new.place ≡ feed.old.place }
    ensures counts { Counts (IsPort Port.Capture) (D.at desk.old) (D.at desk.new) result }
    ensures moves { Moves D.tells Port.Capture (D.held desk.old) (D.held desk.new) (D.at desk.old) (D.at desk.new) }
{
    match feed.make_room(PIECE) {
        Ok(()) => {}
        Err(_) => return Err(Halt::OutOfMemory),
    }
    let room = feed.room();
    let count = match read_at(desk, Port::Capture, room) {
        Ok(count) => count,
        Err(halt) => return Err(halt),
    };
    feed.filled(count);
    if count == 0 {
        return Ok(false);
    }
    if feed.place() + feed.held() as u64 > LIMIT {
        return Err(Halt::Long(Port::Capture));
    }
    Ok(true)
}

/// Reads a piece of the control file into the feed, and tells whether there was one.
pub(crate) fn read_control<D: Desk>(desk: &mut D, feed: &mut ControlFeed) -> Result<bool, Halt>
    requires bound { (D.at desk.old Port.Control).bound ≡ true }
    requires few { feed.old.place + length feed.old.rest ≤ 2 ^ 40 }
    ensures follows { (input : List ℕ) (given : List Segment) → SegmentsRead D.tells input (D.at desk.old Port.Control).left feed.old given
        → OnOk result (SegmentsRead D.tells input (D.at desk.new Port.Control).left feed.new given) }
    ensures long { (input : List ℕ) (given : List Segment) → SegmentsRead D.tells input (D.at desk.old Port.Control).left feed.old given
        → result ≡ Err (halts.Long Port.Control) → D.tells ≡ true → 2 ^ 40 < length input }
    ensures end { D.tells ≡ true → IfOk result (λ some. some ≡ false → (D.at desk.new Port.Control).left ≡ []) }
    ensures still { IfOk result (λ some. some ≡ false → feed.new.rest ≡ feed.old.rest) }
    ensures more { IfOk result (λ some. some ≡ true → feed.old.place + length feed.old.rest < feed.new.place + length feed.new.rest) }
    ensures few { OnOk result (feed.new.place + length feed.new.rest ≤ 2 ^ 40) }
    ensures peers { feed.new.peers ≡ feed.old.peers }
    ensures mark { feed.new.mark ≡ feed.old.mark }
    ensures place { feed.new.place ≡ feed.old.place }
    ensures counts { Counts (IsPort Port.Control) (D.at desk.old) (D.at desk.new) result }
    ensures moves { Moves D.tells Port.Control (D.held desk.old) (D.held desk.new) (D.at desk.old) (D.at desk.new) }
{
    match feed.make_room(PIECE) {
        Ok(()) => {}
        Err(_) => return Err(Halt::OutOfMemory),
    }
    let room = feed.room();
    let count = match read_at(desk, Port::Control, room) {
        Ok(count) => count,
        Err(halt) => return Err(halt),
    };
    feed.filled(count);
    if count == 0 {
        return Ok(false);
    }
    if feed.place() + feed.held() as u64 > LIMIT {
        return Err(Halt::Long(Port::Control));
    }
    Ok(true)
}
