//! Many lookups over a thousand paths.

ghost use Rattle.std.specs.Prelude.{◌≡◌, ◌-◌, ◌^◌, ◌<◌};

use crate::faults::Fault;
use path_selection::{Answer, Still, Table, Tables};
use std::thread::{Threads, join_mut};
use table_publish::Seat;
use wire_base::Spi;

/// How many paths are looked up, from identifier 1 on.
const PATHS: u64 = 1000;

fn instance_of(answer: Answer) -> u64 {
    match answer {
        Answer::At(_, _, instance) => u64::from(instance.0),
        _ => 0,
    }
}

/// The sum of the instances of so many lookups, over all paths and their hops 255, 254 and 253 in turn. None where one
/// was refused.
fn sum_of<T: Tables>(tables: &mut T, count: u64) -> Option<u64>
    requires { T.refused tables.old < 2 ^ 64 - 1 }
    ensures { T.origin tables.new ≡ T.origin tables.old }
{
    let mut sum = 0u64;
    for turn in 0..count {
        let spi = Spi::of((turn.wrapping_mul(611) % PATHS + 1) as u32)?;
        let si = 255 - (turn % 3) as u8;
        sum = sum.wrapping_add(instance_of(tables.lookup(spi, si)?.answer));
    }
    Some(sum)
}

/// The sum of lookups in one table.
pub(crate) fn sum_by_table(table: &Table, count: u64) -> Result<u64, Fault> {
    let mut still = Still::new(table, 0);
    sum_of(&mut still, count).ok_or(Fault::Refused)
}

/// The sum of lookups of a seat.
pub(crate) fn sum_by_seat(seat: &mut Seat, count: u64) -> Result<u64, Fault>
    ensures { seat.new.window ≡ seat.old.window }
{
    if seat.refused_count() > 0 {
        return Err(Fault::Refused);
    }
    match sum_of(seat, count) {
        None => Err(Fault::Refused),
        Some(sum) => Ok(sum),
    }
}

/// The sums of lookups of two seats, each in a thread of its own.
pub(crate) fn sums_by_seats<R: Threads + Sync>(
    rt: &R,
    first: &mut Seat,
    second: &mut Seat,
    count: u64,
) -> Result<(u64, u64), Fault>
    ensures first { first.new.window ≡ first.old.window }
    ensures second { second.new.window ≡ second.old.window }
{
    let (one, other) = join_mut(
        rt,
        &mut || -> Result<u64, Fault>
            ensures { first.exit.now.window ≡ first.entry.now.window }
        { sum_by_seat(first, count) },
        &mut || -> Result<u64, Fault>
            ensures { second.exit.now.window ≡ second.entry.now.window }
        { sum_by_seat(second, count) },
    );
    Ok((one?, other?))
}
