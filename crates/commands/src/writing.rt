ghost use Rattle.std.specs.Prelude.{◌≡◌, ◌+◌, ◌<◌, ◌≤◌, true, false, [], ◌++◌, length, take, IfOk, OnOk, OnErr, IsErrOf};
ghost use Rattle.sfc_desk.specs.Ports.{is_input};
ghost use Rattle.sfc_desk.specs.Desks.{Rose, Moves};
ghost use Rattle.commands.specs.Fronts.{IsFront};
ghost use Rattle.commands.specs.Pieces.{SameCounts};

use crate::reading::PIECE;
use sfc_desk::{Desk, Failed, Port};
use std::alloc::AllocError;
use wire_base::OutOfMemory;

/// Why an output was not written whole.
#[derive(Clone, Copy, Debug, PartialEq, Eq)]
pub enum WriteFault {
    /// A write failed.
    File,
    OutOfMemory,
}

impl From<AllocError> for WriteFault {
    ghost use Rattle.std.specs.Prelude.{◌≡◌};
    ghost use Rattle.commands.specs.declared.writing.WriteFault.TheVariants.{OutOfMemory};

    ghost from_gives = { λ _ e. e ≡ OutOfMemory };

    fn from(_fault: AllocError) -> WriteFault {
        WriteFault::OutOfMemory
    }
}

impl From<OutOfMemory> for WriteFault {
    ghost use Rattle.std.specs.Prelude.{◌≡◌};
    ghost use Rattle.commands.specs.declared.writing.WriteFault.TheVariants.{OutOfMemory as NoMemory};

    ghost from_gives = { λ _ e. e ≡ NoMemory };

    fn from(_fault: OutOfMemory) -> WriteFault {
        WriteFault::OutOfMemory
    }
}

impl From<Failed> for WriteFault {
    ghost use Rattle.std.specs.Prelude.{◌≡◌};
    ghost use Rattle.commands.specs.declared.writing.WriteFault.TheVariants.{File};

    ghost from_gives = { λ _ e. e ≡ File };

    fn from(_fault: Failed) -> WriteFault {
        WriteFault::File
    }
}

/// Writes a front of the bytes, at most a piece, and tells its length, which is not 0 for bytes that are not
/// empty.
fn write_piece<D: Desk>(desk: &mut D, port: Port, bytes: &[u8]) -> Result<usize, Failed>
    requires bound { (D.at desk.old port).bound ≡ true }
    requires output { is_input port ≡ false }
    ensures count { IfOk result (λ n. n ≤ length bytes.now) }
    ensures some { IfOk result (λ n. 0 < length bytes.now → 0 < n) }
    ensures bytes { D.tells ≡ true → IfOk result (λ n.
        (D.at desk.new port).written ≡ (D.at desk.old port).written ++ take n bytes.now) }
    ensures kept { D.tells ≡ true → OnErr result ((D.at desk.new port).written ≡ (D.at desk.old port).written) }
    ensures cause { OnErr result (Rose (D.at desk.old port) (D.at desk.new port)) }
    ensures quiet { OnOk result (SameCounts (D.at desk.old) (D.at desk.new)) }
    ensures moves { Moves D.tells port (D.held desk.old) (D.held desk.new) (D.at desk.old) (D.at desk.new) }
{
    let most = bytes.len().min(PIECE);
    desk.write(port, &bytes[..most])
}

/// Writes all of the bytes, in pieces.
pub fn write_all<D: Desk>(desk: &mut D, port: Port, bytes: &[u8]) -> Result<(), Failed>
    requires bound { (D.at desk.old port).bound ≡ true }
    requires output { is_input port ≡ false }
    ensures ok { D.tells ≡ true → OnOk result
        ((D.at desk.new port).written ≡ (D.at desk.old port).written ++ bytes.now) }
    ensures front { D.tells ≡ true →
        IsFront (D.at desk.new port).written ((D.at desk.old port).written ++ bytes.now) }
    ensures grows { D.tells ≡ true → IsFront (D.at desk.old port).written (D.at desk.new port).written }
    ensures cause { OnErr result (Rose (D.at desk.old port) (D.at desk.new port)) }
    ensures quiet { OnOk result (SameCounts (D.at desk.old) (D.at desk.new)) }
    ensures moves { Moves D.tells port (D.held desk.old) (D.held desk.new) (D.at desk.old) (D.at desk.new) }
{
    let mut rest = bytes;
    'pieces: while !rest.is_empty() {
        let count = write_piece(desk, port, rest)?;
        rest = &rest[count..];
    }
    Ok(())
}

/// Writes what the buffer holds, and empties it whether that succeeds or not.
pub fn empty<D: Desk>(desk: &mut D, port: Port, buffer: &mut Vec<u8>) -> Result<(), Failed>
    requires bound { (D.at desk.old port).bound ≡ true }
    requires output { is_input port ≡ false }
    ensures empty { buffer.new.items ≡ [] }
    ensures ok { D.tells ≡ true → OnOk result
        ((D.at desk.new port).written ≡ (D.at desk.old port).written ++ buffer.old.items) }
    ensures front { D.tells ≡ true →
        IsFront (D.at desk.new port).written ((D.at desk.old port).written ++ buffer.old.items) }
    ensures cause { OnErr result (Rose (D.at desk.old port) (D.at desk.new port)) }
    ensures quiet { OnOk result (SameCounts (D.at desk.old) (D.at desk.new)) }
    ensures moves { Moves D.tells port (D.held desk.old) (D.held desk.new) (D.at desk.old) (D.at desk.new) }
{
    let written = write_all(desk, port, buffer);
    buffer.clear();
    written
}

/// Writes what the buffer holds where it is full.
fn empty_full<D: Desk>(desk: &mut D, port: Port, buffer: &mut Vec<u8>) -> Result<(), Failed>
    requires bound { (D.at desk.old port).bound ≡ true }
    requires output { is_input port ≡ false }
    requires small { length buffer.old.items ≤ PIECE }
    ensures small { length buffer.new.items < PIECE }
    ensures ok { D.tells ≡ true → OnOk result ((D.at desk.new port).written ++ buffer.new.items
        ≡ (D.at desk.old port).written ++ buffer.old.items) }
    ensures front { D.tells ≡ true →
        IsFront (D.at desk.new port).written ((D.at desk.old port).written ++ buffer.old.items) }
    ensures cause { OnErr result (Rose (D.at desk.old port) (D.at desk.new port)) }
    ensures quiet { OnOk result (SameCounts (D.at desk.old) (D.at desk.new)) }
    ensures moves { Moves D.tells port (D.held desk.old) (D.held desk.new) (D.at desk.old) (D.at desk.new) }
{
    if buffer.len() < PIECE {
        return Ok(());
    }
    empty(desk, port, buffer)
}

/// Appends bytes to what the port took and the buffer holds. The buffer is written when it is full.
pub fn fill<D: Desk>(
    desk: &mut D,
    port: Port,
    buffer: &mut Vec<u8>,
    bytes: &[u8],
) -> Result<(), WriteFault>
    requires bound { (D.at desk.old port).bound ≡ true }
    requires output { is_input port ≡ false }
    requires small { length buffer.old.items < PIECE }
    ensures small { length buffer.new.items < PIECE }
    ensures ok { D.tells ≡ true → OnOk result ((D.at desk.new port).written ++ buffer.new.items
        ≡ ((D.at desk.old port).written ++ buffer.old.items) ++ bytes.now) }
    ensures front { D.tells ≡ true →
        IsFront (D.at desk.new port).written (((D.at desk.old port).written ++ buffer.old.items) ++ bytes.now) }
    ensures cause { IsErrOf result WriteFault.File → Rose (D.at desk.old port) (D.at desk.new port) }
    ensures quiet { OnOk result (SameCounts (D.at desk.old) (D.at desk.new)) }
    ensures spared { IsErrOf result WriteFault.OutOfMemory → SameCounts (D.at desk.old) (D.at desk.new) }
    ensures moves { Moves D.tells port (D.held desk.old) (D.held desk.new) (D.at desk.old) (D.at desk.new) }
{
    let mut rest = bytes;
    'pieces: while !rest.is_empty() {
        let count = rest.len().min(PIECE - buffer.len());
        buffer.extend_from_slice(&rest[..count])?;
        rest = &rest[count..];
        empty_full(desk, port, buffer)?;
    }
    Ok(())
}
