//! The words of a row.

ghost use Rattle.std.specs.Prelude.{◌≤◌, IfSome};

use path_selection::{HopRow, Path};
use std::alloc::Global;
use std::str::SplitWhitespace;
use text_words::{Pieces, read_number};
use wire_base::{ForwarderId, InstanceId, List, OutOfMemory, Spi};

/// The next word as a number.
pub(crate) fn next_number(words: &mut SplitWhitespace, most: u64) -> Option<u64>
    ensures { IfSome result (λ n. n ≤ most) }
{
    read_number(words.next()?.as_bytes(), 0, most)
}

/// The path of a row `put SPI HOP ..`; None where the row tells none.
pub(crate) fn path_of(
    alloc: Global,
    mut words: SplitWhitespace,
) -> Result<Option<Path>, OutOfMemory> {
    let Some(number) = next_number(&mut words, 16_777_215) else {
        return Ok(None);
    };
    let Some(spi) = Spi::of(number as u32) else {
        return Ok(None);
    };
    let mut rows = List::new(alloc);
    for word in words {
        let Some(row) = hop(word.as_bytes()) else {
            return Ok(None);
        };
        rows.push(row)?;
    }
    Ok(Path::of(spi, rows))
}

/// `SI:FORWARDER:INSTANCE` or `SI:-`.
fn hop(word: &[u8]) -> Option<HopRow> {
    let mut parts = Pieces::of(word, b':');
    let si = parts.next_number(0, 255)? as u8;
    let served = parts.next()?;
    if served[..] == b"-"[..] {
        return Some(HopRow { si, choice: None });
    }
    let forwarder = read_number(served, 0, 255)? as u8;
    let instance = parts.next_number(0, 65_535)? as u16;
    Some(HopRow {
        si,
        choice: Some((ForwarderId(forwarder), InstanceId(instance))),
    })
}
