//! Lookups of a seat.

ghost use Rattle.std.specs.Prelude.{◌≡◌};

use crate::faults::Fault;
use path_selection::{Found, Tables};
use std::thread::{Threads, join_mut};
use table_publish::Seat;
use wire_base::Spi;

/// What the seat finds. Once a lookup was refused, each one is.
pub(crate) fn look_once(seat: &mut Seat, spi: Spi, si: u8) -> Result<Found, Fault>
    ensures { seat.new.window ≡ seat.old.window }
{
    if seat.refused_count() > 0 {
        return Err(Fault::Refused);
    }
    match seat.lookup(spi, si) {
        None => Err(Fault::Refused),
        Some(found) => Ok(found),
    }
}

/// What the seat finds in a thread of its own.
pub(crate) fn look_beside<R: Threads + Sync>(
    rt: &R,
    seat: &mut Seat,
    spi: Spi,
    si: u8,
) -> Result<Found, Fault>
    ensures { seat.new.window ≡ seat.old.window }
{
    let (found, ()) = join_mut(
        rt,
        &mut || -> Result<Found, Fault>
            ensures { seat.exit.now.window ≡ seat.entry.now.window }
        { look_once(seat, spi, si) },
        &mut || (),
    );
    found
}
