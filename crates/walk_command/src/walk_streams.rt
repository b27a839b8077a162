//! The frames of a capture, walked as they come.

ghost use Rattle.std.specs.Prelude.{◌≡◌, ◌≢◌, ℕ, ◌+◌, ◌^◌, ◌<◌, ◌≤◌, true, List, Option, Some, [], ◌++◌, length, take, drop, IfOk, IfSome, IsSome, IsNone, OnOk, OnErr, IsErrOf};
ghost use Rattle.sfc_desk.specs.Ports.{is_input};
ghost use Rattle.sfc_desk.specs.Desks.{Rose, Moves};
ghost use Rattle.sfc_desk.specs.declared.ports.Port.{Port};
ghost use Rattle.pcap_io.specs.declared.frames.Captured.{Captured};
ghost use Rattle.pcap_io.specs.Calls.{HeldIn};
ghost use Rattle.pcap_io.specs.Heads.{file_head};
ghost use Rattle.commands.specs.Fronts.{IsFront};
ghost use Rattle.commands.specs.Pieces.{NoneBound};
ghost use Rattle.static_walks.specs.Walks.{EachWalksTo};
ghost use Rattle.static_walks.specs.declared.walks.StaticPath.{StaticPath as Path};
ghost use Rattle.walk_command.specs.WalkSteps.{kept_at, IsPutFault, NoWriteFault, NeverReads, NeverPuts, Follows, State, Begins, Puts, Reaches, Known, Ends, IsShortWithin};

use commands::{PIECE, WriteFault, empty, fill};
use pcap_io::{CaptureFault, CaptureFeed, Form, Refusal, capture_head};
use record_text::End;
use sfc_desk::{Desk, Failed, Port};
use static_walks::{StaticPath, walk_frame};
use std::alloc::Global;
use wire_base::OutOfMemory;

/// The most bytes that are read of a capture.
const LIMIT: u64 = 1 << 40;

/// Why a walk did not end well.
#[derive(Clone, Copy, Debug, PartialEq, Eq)]
pub(crate) enum WalkFault {
    /// A read of the capture failed.
    Read,
    /// A write of the egress failed.
    Write,
    /// The capture is refused.
    Capture(Refusal),
    /// The capture has more bytes than are read.
    Long,
    OutOfMemory,
}

impl From<OutOfMemory> for WalkFault {
    ghost use Rattle.std.specs.Prelude.{◌≡◌};
    ghost use Rattle.walk_command.specs.declared.walk_streams.WalkFault.TheVariants.{OutOfMemory};

    ghost from_gives = { λ _ e. e ≡ OutOfMemory };

    fn from(_fault: OutOfMemory) -> WalkFault {
        WalkFault::OutOfMemory
    }
}

impl From<Failed> for WalkFault {
    ghost use Rattle.std.specs.Prelude.{◌≡◌};
    ghost use Rattle.walk_command.specs.declared.walk_streams.WalkFault.TheVariants.{Read};

    ghost from_gives = { λ _ e. e ≡ Read };

    fn from(_fault: Failed) -> WalkFault {
        WalkFault::Read
    }
}

impl From<WriteFault> for WalkFault {
    ghost use Rattle.walk_command.specs.WalkSteps.{IsWalkFault};

    ghost from_gives = { λ w e. IsWalkFault w e };

    fn from(fault: WriteFault) -> WalkFault {
        match fault {
            WriteFault::File => WalkFault::Write,
            WriteFault::OutOfMemory => WalkFault::OutOfMemory,
        }
    }
}

/// How the walk of a packet's frame ends. The frame stands behind the packet's head of 16 bytes.
fn walk_packet(path: &StaticPath, packet: &[u8]) -> End
    requires { 16 ≤ length packet.now }
    ensures { EachWalksTo path.now.spi path.now.count (drop 16 packet.now) result }
{
    walk_frame(path, &packet[16..])
}

/// What a packet leaves where its frame's walk ended so: all of it, or nothing.
fn what_leaves(end: End, packet: &[u8]) -> &[u8]
    ensures { result.now ≡ kept_at end packet.now }
{
    match end {
        End::Egress => packet,
        End::Bypass => &packet[..0],
        End::Drop(_) => &packet[..0],
    }
}

/// Reads a piece into the feed, and tells whether it was as long as was asked for; none is the end.
fn read_piece<D: Desk>(desk: &mut D, feed: &mut CaptureFeed) -> Result<Option<bool>, WalkFault>
    requires bound { (D.at desk.old Port.Capture).bound ≡ true }
    requires few { feed.old.place + length feed.old.rest ≤ 2 ^ 40 }
    ensures follows { D.tells ≡ true → (input : List ℕ) (given : List Captured)
        → Follows feed.old input (D.at desk.old Port.Capture).left given
        → OnOk result (Follows feed.new input (D.at desk.new Port.Capture).left given) }
    ensures end { D.tells ≡ true → IfOk result (λ n. IsNone n → (D.at desk.new Port.Capture).left ≡ []) }
    ensures still { IfOk result (λ n. IsNone n → feed.new.rest ≡ feed.old.rest) }
    ensures more { IfOk result (λ n. IsSome n → feed.old.place + length feed.old.rest < feed.new.place + length feed.new.rest) }
    ensures form { feed.new.form ≡ feed.old.form }
    ensures place { feed.new.place ≡ feed.old.place }
    ensures never { NeverPuts result }
    ensures cause { IsErrOf result WalkFault.Read → Rose (D.at desk.old Port.Capture) (D.at desk.new Port.Capture) }
    ensures spared { (IsErrOf result WalkFault.Read → ⊥) → (D.at desk.new Port.Capture).faults ≡ (D.at desk.old Port.Capture).faults }
    ensures moves { Moves D.tells Port.Capture (D.held desk.old) (D.held desk.new) (D.at desk.old) (D.at desk.new) }
{
    feed.make_room(PIECE)?;
    let room = feed.room();
    let asked = room.len();
    let count = desk.read(Port::Capture, room)?;
    feed.filled(count);
    if count == 0 {
        return Ok(None);
    }
    Ok(Some(count == asked))
}

/// Puts the file header of the egress.
fn put_head<D: Desk>(desk: &mut D, buffer: &mut Vec<u8>, form: Form) -> Result<(), WalkFault>
    requires bound { (D.at desk.old Port.Egress).bound ≡ true }
    requires small { length buffer.old.items < PIECE }
    ensures ok { D.tells ≡ true → OnOk result ((D.at desk.new Port.Egress).written ++ buffer.new.items
        ≡ ((D.at desk.old Port.Egress).written ++ buffer.old.items) ++ file_head form) }
    ensures small { OnOk result (length buffer.new.items < PIECE) }
    ensures front { D.tells ≡ true → IsFront (D.at desk.new Port.Egress).written
        (((D.at desk.old Port.Egress).written ++ buffer.old.items) ++ file_head form) }
    ensures quiet { OnOk result ((D.at desk.new Port.Egress).faults ≡ (D.at desk.old Port.Egress).faults) }
    ensures faults { OnErr result (IsPutFault result (D.at desk.old Port.Egress) (D.at desk.new Port.Egress)) }
    ensures moves { Moves D.tells Port.Egress (D.held desk.old) (D.held desk.new) (D.at desk.old) (D.at desk.new) }
{
    fill(desk, Port::Egress, buffer, &capture_head(form))?;
    Ok(())
}

/// Puts a packet where its frame leaves.
fn put_packet<D: Desk>(
    desk: &mut D,
    buffer: &mut Vec<u8>,
    end: End,
    packet: &[u8],
) -> Result<(), WalkFault>
    requires bound { (D.at desk.old Port.Egress).bound ≡ true }
    requires small { length buffer.old.items < PIECE }
    ensures ok { D.tells ≡ true → OnOk result ((D.at desk.new Port.Egress).written ++ buffer.new.items
        ≡ ((D.at desk.old Port.Egress).written ++ buffer.old.items) ++ kept_at end packet.now) }
    ensures small { OnOk result (length buffer.new.items < PIECE) }
    ensures front { D.tells ≡ true → IsFront (D.at desk.new Port.Egress).written
        (((D.at desk.old Port.Egress).written ++ buffer.old.items) ++ kept_at end packet.now) }
    ensures quiet { OnOk result ((D.at desk.new Port.Egress).faults ≡ (D.at desk.old Port.Egress).faults) }
    ensures faults { OnErr result (IsPutFault result (D.at desk.old Port.Egress) (D.at desk.new Port.Egress)) }
    ensures moves { Moves D.tells Port.Egress (D.held desk.old) (D.held desk.new) (D.at desk.old) (D.at desk.new) }
{
    fill(desk, Port::Egress, buffer, what_leaves(end, packet))?;
    Ok(())
}

/// Uses up the file header where it is there, and then puts that of the egress.
fn begin_egress<D: Desk>(
    desk: &mut D,
    feed: &mut CaptureFeed,
    buffer: &mut Vec<u8>,
) -> Result<Option<Form>, WalkFault>
    requires bound { (D.at desk.old Port.Egress).bound ≡ true }
    requires small { length buffer.old.items < PIECE }
    ensures begins { D.tells ≡ true → (path : Path) (input left : List ℕ)
        → State path input left ((D.at desk.old Port.Egress).written ++ buffer.old.items) feed.old
        → Begins path input left ((D.at desk.new Port.Egress).written ++ buffer.new.items) (D.at desk.new Port.Egress).written feed.new result }
    ensures form { IfOk result (λ f. IfSome f (λ form. feed.new.form ≡ Some form)) }
    ensures count { feed.new.place + length feed.new.rest ≡ feed.old.place + length feed.old.rest }
    ensures small { NoWriteFault result → length buffer.new.items < PIECE }
    ensures cause { IsErrOf result WalkFault.Write → Rose (D.at desk.old Port.Egress) (D.at desk.new Port.Egress) }
    ensures never { NeverReads result }
    ensures spared { (IsErrOf result WalkFault.Write → ⊥) → (D.at desk.new Port.Egress).faults ≡ (D.at desk.old Port.Egress).faults }
    ensures moves { Moves D.tells Port.Egress (D.held desk.old) (D.held desk.new) (D.at desk.old) (D.at desk.new) }
{
    if let Some(form) = feed.form() {
        return Ok(Some(form));
    }
    match feed.begin() {
        Ok(Some(form)) => match put_head(desk, buffer, form) {
            Ok(()) => Ok(Some(form)),
            Err(fault) => Err(fault),
        },
        Ok(None) => Ok(None),
        Err(refusal) => Err(WalkFault::Capture(refusal)),
    }
}

/// Puts what the whole packets leave that the feed holds behind the file header.
fn put_packets<D: Desk>(
    desk: &mut D,
    feed: &mut CaptureFeed,
    form: Form,
    buffer: &mut Vec<u8>,
    path: &StaticPath,
) -> Result<(), WalkFault>
    requires bound { (D.at desk.old Port.Egress).bound ≡ true }
    requires small { length buffer.old.items < PIECE }
    requires form { feed.old.form ≡ Some form }
    ensures puts { D.tells ≡ true → (input left : List ℕ)
        → State path.now input left ((D.at desk.old Port.Egress).written ++ buffer.old.items) feed.old
        → Puts path.now input left ((D.at desk.new Port.Egress).written ++ buffer.new.items) (D.at desk.new Port.Egress).written feed.new result }
    ensures count { feed.new.place + length feed.new.rest ≡ feed.old.place + length feed.old.rest }
    ensures small { NoWriteFault result → length buffer.new.items < PIECE }
    ensures cause { IsErrOf result WalkFault.Write → Rose (D.at desk.old Port.Egress) (D.at desk.new Port.Egress) }
    ensures never { NeverReads result }
    ensures spared { (IsErrOf result WalkFault.Write → ⊥) → (D.at desk.new Port.Egress).faults ≡ (D.at desk.old Port.Egress).faults }
    ensures moves { Moves D.tells Port.Egress (D.held desk.old) (D.held desk.new) (D.at desk.old) (D.at desk.new) }
{
    'packets: loop {
        match feed.next_packet() {
            Ok(Some(_)) => {
                let end = walk_packet(path, feed.packet());
                if let Err(fault) = put_packet(desk, buffer, end, feed.packet()) {
                    return Err(fault);
                }
            }
            Ok(None) => return Ok(()),
            Err(refusal) => return Err(WalkFault::Capture(refusal)),
        }
    }
}

/// Puts what the whole packets leave that the feed holds.
fn put_piece<D: Desk>(
    desk: &mut D,
    feed: &mut CaptureFeed,
    buffer: &mut Vec<u8>,
    path: &StaticPath,
) -> Result<(), WalkFault>
    requires bound { (D.at desk.old Port.Egress).bound ≡ true }
    requires small { length buffer.old.items < PIECE }
    ensures puts { D.tells ≡ true → (input left : List ℕ)
        → State path.now input left ((D.at desk.old Port.Egress).written ++ buffer.old.items) feed.old
        → Puts path.now input left ((D.at desk.new Port.Egress).written ++ buffer.new.items) (D.at desk.new Port.Egress).written feed.new result }
    ensures count { feed.new.place + length feed.new.rest ≡ feed.old.place + length feed.old.rest }
    ensures small { NoWriteFault result → length buffer.new.items < PIECE }
    ensures cause { IsErrOf result WalkFault.Write → Rose (D.at desk.old Port.Egress) (D.at desk.new Port.Egress) }
    ensures never { NeverReads result }
    ensures spared { (IsErrOf result WalkFault.Write → ⊥) → (D.at desk.new Port.Egress).faults ≡ (D.at desk.old Port.Egress).faults }
    ensures moves { Moves D.tells Port.Egress (D.held desk.old) (D.held desk.new) (D.at desk.old) (D.at desk.new) }
{
    match begin_egress(desk, feed, buffer) {
        Ok(Some(form)) => put_packets(desk, feed, form, buffer, path),
        Ok(None) => Ok(()),
        Err(fault) => Err(fault),
    }
}

/// Writes all that waits.
fn finish_all<D: Desk>(desk: &mut D, buffer: &mut Vec<u8>) -> Result<(), WalkFault>
    requires bound { (D.at desk.old Port.Egress).bound ≡ true }
    ensures ok { D.tells ≡ true → OnOk result ((D.at desk.new Port.Egress).written
        ≡ (D.at desk.old Port.Egress).written ++ buffer.old.items) }
    ensures front { D.tells ≡ true → IsFront (D.at desk.new Port.Egress).written
        ((D.at desk.old Port.Egress).written ++ buffer.old.items) }
    ensures nothing { buffer.new.items ≡ [] }
    ensures quiet { OnOk result ((D.at desk.new Port.Egress).faults ≡ (D.at desk.old Port.Egress).faults) }
    ensures faults { OnErr result (IsPutFault result (D.at desk.old Port.Egress) (D.at desk.new Port.Egress)) }
    ensures moves { Moves D.tells Port.Egress (D.held desk.old) (D.held desk.new) (D.at desk.old) (D.at desk.new) }
{
    match empty(desk, Port::Egress, buffer) {
        Ok(()) => Ok(()),
        Err(_) => Err(WalkFault::Write),
    }
}

/// Writes what waits, where less was read than was asked for.
fn flush_short<D: Desk>(desk: &mut D, buffer: &mut Vec<u8>, full: bool) -> Result<(), WalkFault>
    requires bound { (D.at desk.old Port.Egress).bound ≡ true }
    requires small { length buffer.old.items < PIECE }
    ensures ok { D.tells ≡ true → OnOk result ((D.at desk.new Port.Egress).written ++ buffer.new.items
        ≡ (D.at desk.old Port.Egress).written ++ buffer.old.items) }
    ensures small { OnOk result (length buffer.new.items < PIECE) }
    ensures front { D.tells ≡ true → IsFront (D.at desk.new Port.Egress).written
        ((D.at desk.old Port.Egress).written ++ buffer.old.items) }
    ensures quiet { OnOk result ((D.at desk.new Port.Egress).faults ≡ (D.at desk.old Port.Egress).faults) }
    ensures faults { OnErr result (IsPutFault result (D.at desk.old Port.Egress) (D.at desk.new Port.Egress)) }
    ensures moves { Moves D.tells Port.Egress (D.held desk.old) (D.held desk.new) (D.at desk.old) (D.at desk.new) }
{
    if full {
        return Ok(());
    }
    finish_all(desk, buffer)?;
    Ok(())
}

/// Walks the capture piece by piece.
fn walk_pieces<D: Desk>(
    desk: &mut D,
    feed: &mut CaptureFeed,
    buffer: &mut Vec<u8>,
    path: &StaticPath,
) -> Result<(), WalkFault>
    requires capture { (D.at desk.old Port.Capture).bound ≡ true }
    requires egress { (D.at desk.old Port.Egress).bound ≡ true }
    requires small { length buffer.old.items < PIECE }
    requires few { feed.old.place + length feed.old.rest ≤ 2 ^ 40 }
    requires held { HeldIn feed.old.form feed.old.rest }
    ensures reaches { D.tells ≡ true → (input : List ℕ)
        → State path.now input (D.at desk.old Port.Capture).left ((D.at desk.old Port.Egress).written ++ buffer.old.items) feed.old
        → Reaches path.now input (D.at desk.new Port.Capture).left ((D.at desk.new Port.Egress).written ++ buffer.new.items)
        (D.at desk.new Port.Egress).written feed.new result }
    ensures read { IsErrOf result WalkFault.Read → Rose (D.at desk.old Port.Capture) (D.at desk.new Port.Capture) }
    ensures write { IsErrOf result WalkFault.Write → Rose (D.at desk.old Port.Egress) (D.at desk.new Port.Egress) }
    ensures few { OnOk result (feed.new.place + length feed.new.rest ≤ 2 ^ 40) }
    ensures read_spared { (IsErrOf result WalkFault.Read → ⊥) → (D.at desk.new Port.Capture).faults ≡ (D.at desk.old Port.Capture).faults }
    ensures write_spared { (IsErrOf result WalkFault.Write → ⊥) → (D.at desk.new Port.Egress).faults ≡ (D.at desk.old Port.Egress).faults }
    ensures still_bound { (D.at desk.new Port.Egress).bound ≡ true }
    ensures none_bound { NoneBound D.tells (D.at desk.old) (D.at desk.new) }
    ensures others { (port : Port) → port ≢ Port.Capture → port ≢ Port.Egress → D.at desk.new port ≡ D.at desk.old port }
{
    'pieces: loop {
        let full = match read_piece(desk, feed) {
            Ok(Some(full)) => full,
            Ok(None) => return Ok(()),
            Err(fault) => return Err(fault),
        };
        if feed.place() + feed.held() as u64 > LIMIT {
            return Err(WalkFault::Long);
        }
        if let Err(fault) = put_piece(desk, feed, buffer, path) {
            return Err(fault);
        }
        if let Err(fault) = flush_short(desk, buffer, full) {
            return Err(fault);
        }
    }
}

/// Writes what waits.
fn end_whole<D: Desk>(desk: &mut D, buffer: &mut Vec<u8>) -> Result<(), WalkFault>
    requires bound { (D.at desk.old Port.Egress).bound ≡ true }
    ensures ends { D.tells ≡ true → (path : Path) (input left : List ℕ) → left ≡ [] → length input ≤ 2 ^ 40
        → Known path input ((D.at desk.old Port.Egress).written ++ buffer.old.items) None
        → Ends path input left (D.at desk.new Port.Egress).written result }
    ensures never { NeverReads result }
    ensures write { IsErrOf result WalkFault.Write → Rose (D.at desk.old Port.Egress) (D.at desk.new Port.Egress) }
    ensures spared { (IsErrOf result WalkFault.Write → ⊥) → (D.at desk.new Port.Egress).faults ≡ (D.at desk.old Port.Egress).faults }
    ensures moves { Moves D.tells Port.Egress (D.held desk.old) (D.held desk.new) (D.at desk.old) (D.at desk.new) }
{
    finish_all(desk, buffer)
}

/// Writes what waits, and then tells the refusal.
fn end_refused<D: Desk>(
    desk: &mut D,
    buffer: &mut Vec<u8>,
    refusal: Refusal,
) -> Result<(), WalkFault>
    requires bound { (D.at desk.old Port.Egress).bound ≡ true }
    ensures ends { D.tells ≡ true → (path : Path) (input left : List ℕ) → IsShortWithin refusal input
        → Known path input ((D.at desk.old Port.Egress).written ++ buffer.old.items) (Some refusal)
        → Ends path input left (D.at desk.new Port.Egress).written result }
    ensures never { NeverReads result }
    ensures write { IsErrOf result WalkFault.Write → Rose (D.at desk.old Port.Egress) (D.at desk.new Port.Egress) }
    ensures spared { (IsErrOf result WalkFault.Write → ⊥) → (D.at desk.new Port.Egress).faults ≡ (D.at desk.old Port.Egress).faults }
    ensures moves { Moves D.tells Port.Egress (D.held desk.old) (D.held desk.new) (D.at desk.old) (D.at desk.new) }
{
    match finish_all(desk, buffer) {
        Ok(()) => Err(WalkFault::Capture(refusal)),
        Err(fault) => Err(fault),
    }
}

/// Writes what waits, and then tells how the capture ends that was read to its end.
fn end_walk<D: Desk>(
    desk: &mut D,
    buffer: &mut Vec<u8>,
    feed: &CaptureFeed,
) -> Result<(), WalkFault>
    requires bound { (D.at desk.old Port.Egress).bound ≡ true }
    ensures ends { D.tells ≡ true → (path : Path) (input left : List ℕ) → left ≡ [] → length input ≤ 2 ^ 40
        → State path input left ((D.at desk.old Port.Egress).written ++ buffer.old.items) feed.now → HeldIn feed.now.form feed.now.rest
        → Ends path input left (D.at desk.new Port.Egress).written result }
    ensures never { NeverReads result }
    ensures write { IsErrOf result WalkFault.Write → Rose (D.at desk.old Port.Egress) (D.at desk.new Port.Egress) }
    ensures spared { (IsErrOf result WalkFault.Write → ⊥) → (D.at desk.new Port.Egress).faults ≡ (D.at desk.old Port.Egress).faults }
    ensures moves { Moves D.tells Port.Egress (D.held desk.old) (D.held desk.new) (D.at desk.old) (D.at desk.new) }
{
    match feed.finish() {
        Ok(()) => end_whole(desk, buffer),
        Err(CaptureFault::Bad(place, reason)) => end_refused(
            desk,
            buffer,
            Refusal { place, reason },
        ),
        Err(CaptureFault::OutOfMemory) => Err(WalkFault::OutOfMemory),
    }
}

/// Walks the bound capture into the bound egress: piece by piece, each whole frame as it comes, and what waits is written each
/// time that less was read than was asked for.
pub(crate) fn walk_stream<D: Desk>(
    alloc: Global,
    desk: &mut D,
    path: &StaticPath,
) -> Result<(), WalkFault>
    requires capture { (D.at desk.old Port.Capture).bound ≡ true }
    requires egress { (D.at desk.old Port.Egress).bound ≡ true }
    requires empty { D.tells ≡ true → (D.at desk.old Port.Egress).written ≡ [] }
    ensures ends { D.tells ≡ true → Ends path.now (D.at desk.old Port.Capture).left (D.at desk.new Port.Capture).left (D.at desk.new Port.Egress).written result }
    ensures read { IsErrOf result WalkFault.Read → Rose (D.at desk.old Port.Capture) (D.at desk.new Port.Capture) }
    ensures write { IsErrOf result WalkFault.Write → Rose (D.at desk.old Port.Egress) (D.at desk.new Port.Egress) }
    ensures read_spared { (IsErrOf result WalkFault.Read → ⊥) → (D.at desk.new Port.Capture).faults ≡ (D.at desk.old Port.Capture).faults }
    ensures write_spared { (IsErrOf result WalkFault.Write → ⊥) → (D.at desk.new Port.Egress).faults ≡ (D.at desk.old Port.Egress).faults }
    ensures none_bound { NoneBound D.tells (D.at desk.old) (D.at desk.new) }
    ensures others { (port : Port) → port ≢ Port.Capture → port ≢ Port.Egress → D.at desk.new port ≡ D.at desk.old port }
{
    let mut feed = CaptureFeed::new(alloc);
    let Ok(mut buffer) = Vec::with_capacity(alloc, PIECE) else {
        return Err(WalkFault::OutOfMemory);
    };
    match walk_pieces(desk, &mut feed, &mut buffer, path) {
        Ok(()) => end_walk(desk, &mut buffer, &feed),
        Err(WalkFault::Capture(refusal)) => end_refused(desk, &mut buffer, refusal),
        Err(WalkFault::Read) => Err(WalkFault::Read),
        Err(WalkFault::Write) => Err(WalkFault::Write),
        Err(WalkFault::Long) => Err(WalkFault::Long),
        Err(WalkFault::OutOfMemory) => Err(WalkFault::OutOfMemory),
    }
}
