ghost use Rattle.std.specs.Prelude.{◌≡◌, true, false, [], ◌++◌, IfOk, OnOk, OnErr, IsErrOf};
ghost use Rattle.sfc_desk.specs.Ports.{is_input};
ghost use Rattle.sfc_desk.specs.Desks.{Rose, Moves};
ghost use Rattle.commands.specs.Fronts.{IsFront};
ghost use Rattle.commands.specs.Pieces.{SameCounts};

use crate::reading::PIECE;
use crate::writing::{WriteFault, empty, fill};
use sfc_desk::{Desk, Failed, Port};
use std::alloc::Global;
use std::marker::Model;
use wire_base::OutOfMemory;

/// An output that is written in pieces: its port, and the bytes that wait for the next piece, fewer than
/// 65,536.
///
/// After a fault some of these bytes are lost, and it is used no more.
#[derive(Debug, Drop)]
pub struct Output {
    port: Port,
    buffer: Vec<u8>,
}

impl Model for Output {
    ghost use Rattle.std.specs.Prelude.{◌≡◌, ◌<◌, false, length};
    ghost use Rattle.sfc_desk.specs.Ports.{is_input};
    ghost use Rattle.commands.specs.Pieces.{Waiting};

    ghost Value = { Waiting };

    ghost view = { λ o. record { port = o.port; bytes = o.buffer.items } };

    ghost invariant = { λ o. (length o.buffer.items < 65536) × (is_input o.port ≡ false) };
}

impl Output {
    /// No byte waits. It takes the room for a piece.
    pub fn new(alloc: Global, port: Port) -> Result<Output, OutOfMemory>
        requires { is_input port ≡ false }
        ensures port { IfOk result (λ o. o.port ≡ port) }
        ensures nothing { IfOk result (λ o. o.bytes ≡ []) }
    {
        let buffer = Vec::with_capacity(alloc, PIECE)?;
        Ok(Output { port, buffer })
    }

    /// Appends bytes to what the port took and what waits. A full piece is written.
    pub fn put<D: Desk>(&mut self, desk: &mut D, bytes: &[u8]) -> Result<(), WriteFault>
        requires bound { (D.at desk.old self.old.port).bound ≡ true }
        ensures port { self.new.port ≡ self.old.port }
        ensures ok { D.tells ≡ true → OnOk result ((D.at desk.new self.old.port).written ++ self.new.bytes
            ≡ ((D.at desk.old self.old.port).written ++ self.old.bytes) ++ bytes.now) }
        ensures front { D.tells ≡ true → IsFront (D.at desk.new self.old.port).written
            (((D.at desk.old self.old.port).written ++ self.old.bytes) ++ bytes.now) }
        ensures cause { IsErrOf result WriteFault.File → Rose (D.at desk.old self.old.port) (D.at desk.new self.old.port) }
        ensures quiet { OnOk result (SameCounts (D.at desk.old) (D.at desk.new)) }
        ensures spared { IsErrOf result WriteFault.OutOfMemory → SameCounts (D.at desk.old) (D.at desk.new) }
        ensures moves { Moves D.tells self.old.port (D.held desk.old) (D.held desk.new) (D.at desk.old) (D.at desk.new) }
    {
        fill(desk, self.port, &mut self.buffer, bytes)
    }

    /// Writes what waits.
    pub fn finish<D: Desk>(&mut self, desk: &mut D) -> Result<(), Failed>
        requires bound { (D.at desk.old self.old.port).bound ≡ true }
        ensures port { self.new.port ≡ self.old.port }
        ensures nothing { self.new.bytes ≡ [] }
        ensures ok { D.tells ≡ true → OnOk result
            ((D.at desk.new self.old.port).written ≡ (D.at desk.old self.old.port).written ++ self.old.bytes) }
        ensures front { D.tells ≡ true → IsFront (D.at desk.new self.old.port).written
            ((D.at desk.old self.old.port).written ++ self.old.bytes) }
        ensures cause { OnErr result (Rose (D.at desk.old self.old.port) (D.at desk.new self.old.port)) }
        ensures quiet { OnOk result (SameCounts (D.at desk.old) (D.at desk.new)) }
        ensures moves { Moves D.tells self.old.port (D.held desk.old) (D.held desk.new) (D.at desk.old) (D.at desk.new) }
    {
        empty(desk, self.port, &mut self.buffer)
    }
}
