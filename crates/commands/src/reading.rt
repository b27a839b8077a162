ghost use Rattle.std.specs.Prelude.{◌≡◌, ◌+◌, ◌^◌, ◌<◌, ◌≤◌, true, [], ◌++◌, take, length, IfOk, OnOk, OnErr, IsErrOf};
ghost use Rattle.sfc_desk.specs.Ports.{is_input};
ghost use Rattle.sfc_desk.specs.Desks.{Rose, Moves};
ghost use Rattle.commands.specs.Pieces.{SameCounts};

use sfc_desk::{Desk, Failed, Port};
use std::alloc::{AllocError, Global};

/// The most bytes that one call on a desk moves.
pub const PIECE: usize = 65_536;

/// Why an input was not read to its end.
#[derive(Clone, Copy, Debug, PartialEq, Eq)]
pub enum ReadFault {
    /// A read failed.
    File,
    /// The input has more bytes than the limit.
    Long,
    OutOfMemory,
}

impl From<AllocError> for ReadFault {
    ghost use Rattle.std.specs.Prelude.{◌≡◌};
    ghost use Rattle.commands.specs.declared.reading.ReadFault.TheVariants.{OutOfMemory};

    ghost from_gives = { λ _ e. e ≡ OutOfMemory };

    fn from(_fault: AllocError) -> ReadFault {
        ReadFault::OutOfMemory
    }
}

impl From<Failed> for ReadFault {
    ghost use Rattle.std.specs.Prelude.{◌≡◌};
    ghost use Rattle.commands.specs.declared.reading.ReadFault.TheVariants.{File};

    ghost from_gives = { λ _ e. e ≡ File };

    fn from(_fault: Failed) -> ReadFault {
        ReadFault::File
    }
}

/// Moves the next bytes of an input to the front of the slice, at most 65,536, and tells how many there
/// were. For a slice that is not empty 0 is the end.
pub fn read_into<D: Desk>(desk: &mut D, port: Port, into: &mut [u8]) -> Result<usize, Failed>
    requires bound { (D.at desk.old port).bound ≡ true }
    requires input { is_input port ≡ true }
    ensures count { IfOk result (λ n. n ≤ length into.new) }
    ensures piece { IfOk result (λ n. n ≤ 65536) }
    ensures room { length into.new ≡ length into.old }
    ensures bytes { D.tells ≡ true → IfOk result (λ n.
        (D.at desk.old port).left ≡ take n into.new ++ (D.at desk.new port).left) }
    ensures end { D.tells ≡ true → IfOk result (λ n.
        n ≡ 0 → 0 < length into.new → (D.at desk.old port).left ≡ []) }
    ensures kept { D.tells ≡ true → OnErr result ((D.at desk.new port).left ≡ (D.at desk.old port).left) }
    ensures cause { OnErr result (Rose (D.at desk.old port) (D.at desk.new port)) }
    ensures quiet { OnOk result (SameCounts (D.at desk.old) (D.at desk.new)) }
    ensures moves { Moves D.tells port (D.held desk.old) (D.held desk.new) (D.at desk.old) (D.at desk.new) }
{
    let most = into.len().min(PIECE);
    desk.read(port, &mut into[..most])
}

/// Appends the input's next bytes, at most `most`, and tells how many there were. 0 is the end. They are read
/// into the piece first.
fn read_piece<D: Desk>(
    desk: &mut D,
    port: Port,
    piece: &mut [u8],
    all: &mut Vec<u8>,
    most: usize,
) -> Result<usize, ReadFault>
    requires bound { (D.at desk.old port).bound ≡ true }
    requires input { is_input port ≡ true }
    requires some { 0 < most }
    requires room { most ≤ length piece.old }
    requires fits { length all.old.items + most < 2 ^ 63 }
    ensures grown { IfOk result (λ n. length all.new.items ≡ length all.old.items + n) }
    ensures most { IfOk result (λ n. n ≤ most) }
    ensures room { length piece.new ≡ length piece.old }
    ensures bytes { D.tells ≡ true → OnOk result
        (all.old.items ++ (D.at desk.old port).left ≡ all.new.items ++ (D.at desk.new port).left) }
    ensures end { D.tells ≡ true → IfOk result (λ n. n ≡ 0 → (D.at desk.old port).left ≡ []) }
    ensures never_long { IsErrOf result ReadFault.Long → ⊥ }
    ensures cause { IsErrOf result ReadFault.File → Rose (D.at desk.old port) (D.at desk.new port) }
    ensures quiet { OnOk result (SameCounts (D.at desk.old) (D.at desk.new)) }
    ensures spared { IsErrOf result ReadFault.OutOfMemory → SameCounts (D.at desk.old) (D.at desk.new) }
    ensures moves { Moves D.tells port (D.held desk.old) (D.held desk.new) (D.at desk.old) (D.at desk.new) }
{
    let count = read_into(desk, port, &mut piece[..most])?;
    all.extend_from_slice(&piece[..count])?;
    Ok(count)
}

/// All bytes of an input, of which there are at most `limit`, read in pieces.
///
/// One byte past the limit is read before the answer is Long.
pub fn read_all<D: Desk>(
    alloc: Global,
    desk: &mut D,
    port: Port,
    limit: usize,
) -> Result<Vec<u8>, ReadFault>
    requires bound { (D.at desk.old port).bound ≡ true }
    requires input { is_input port ≡ true }
    requires fits { limit < 2 ^ 62 }
    ensures all { D.tells ≡ true → IfOk result (λ all. (D.at desk.old port).left ≡ all.items) }
    ensures end { D.tells ≡ true → OnOk result ((D.at desk.new port).left ≡ []) }
    ensures within { IfOk result (λ all. length all.items ≤ limit) }
    ensures long { D.tells ≡ true → IsErrOf result ReadFault.Long → limit < length (D.at desk.old port).left }
    ensures cause { IsErrOf result ReadFault.File → Rose (D.at desk.old port) (D.at desk.new port) }
    ensures quiet { OnOk result (SameCounts (D.at desk.old) (D.at desk.new)) }
    ensures long_quiet { IsErrOf result ReadFault.Long → SameCounts (D.at desk.old) (D.at desk.new) }
    ensures spared { IsErrOf result ReadFault.OutOfMemory → SameCounts (D.at desk.old) (D.at desk.new) }
    ensures moves { Moves D.tells port (D.held desk.old) (D.held desk.new) (D.at desk.old) (D.at desk.new) }
{
    let mut piece = Vec::new(alloc);
    piece.resize(PIECE, 0)?;
    let mut all = Vec::new(alloc);
    'pieces: loop {
        let most = PIECE.min(limit + 1 - all.len());
        let count = read_piece(desk, port, &mut piece, &mut all, most)?;
        if count == 0 {
            return Ok(all);
        }
        if all.len() > limit {
            return Err(ReadFault::Long);
        }
    }
}
