//! The bound source, a piece at a time.

ghost use Rattle.std.specs.Prelude.{◌≡◌, ◌+◌, ◌^◌, ◌<◌, ◌≤◌, true, [], ◌++◌, take, length, IfOk, OnOk, IsErrOf};
ghost use Rattle.sfc_desk.specs.Desks.{Rose, Moves};
ghost use Rattle.commands.specs.Pieces.{SameCounts};

use commands::{ReadFault, read_into};
use sfc_desk::{Desk, Port};
use std::alloc::Global;
use wire_base::OutOfMemory;

/// The most bytes that are read of the source.
const SOURCE_LIMIT: u64 = 1 << 40;

/// The most bytes that one call on a desk moves.
const PIECE: usize = 65_536;

/// Room for a piece.
pub(crate) fn piece_room(alloc: Global) -> Result<Vec<u8>, OutOfMemory>
    ensures { IfOk result (λ piece. length piece.items ≡ 65536) }
{
    let mut piece = Vec::new(alloc);
    piece.resize(PIECE, 0)?;
    Ok(piece)
}

/// Moves the next bytes of the source to the front of the piece, where so many were read before, and tells how
/// many. 0 is the end.
pub(crate) fn next_piece<D: Desk>(
    desk: &mut D,
    piece: &mut [u8],
    total: u64,
) -> Result<usize, ReadFault>
    requires bound { (D.at desk.old Port.Source).bound ≡ true }
    requires some { 0 < length piece.old }
    requires small { total ≤ 2 ^ 40 }
    ensures room { length piece.new ≡ length piece.old }
    ensures count { IfOk result (λ n. n ≤ length piece.new) }
    ensures within { IfOk result (λ n. total + n ≤ 2 ^ 40) }
    ensures bytes { D.tells ≡ true → IfOk result (λ n.
        (D.at desk.old Port.Source).left ≡ take n piece.new ++ (D.at desk.new Port.Source).left) }
    ensures end { D.tells ≡ true → IfOk result (λ n. n ≡ 0 → (D.at desk.old Port.Source).left ≡ []) }
    ensures long { D.tells ≡ true → IsErrOf result ReadFault.Long → 2 ^ 40 < total + length (D.at desk.old Port.Source).left }
    ensures cause { IsErrOf result ReadFault.File → Rose (D.at desk.old Port.Source) (D.at desk.new Port.Source) }
    ensures quiet { OnOk result (SameCounts (D.at desk.old) (D.at desk.new)) }
    ensures long_quiet { IsErrOf result ReadFault.Long → SameCounts (D.at desk.old) (D.at desk.new) }
    ensures has_memory { IsErrOf result ReadFault.OutOfMemory → ⊥ }
    ensures moves { Moves D.tells Port.Source (D.held desk.old) (D.held desk.new) (D.at desk.old) (D.at desk.new) }
{
    let count = read_into(desk, Port::Source, piece)?;
    if total + count as u64 > SOURCE_LIMIT {
        return Err(ReadFault::Long);
    }
    Ok(count)
}
