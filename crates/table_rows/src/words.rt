//! The words of a row.

use path_selection::{HopRow, Path};
use std::alloc::Global;
use std::str::SplitWhitespace;
use text_words::{Pieces, read_number};
use wire_base::{ForwarderId, InstanceId, List, OutOfMemory, Spi};

/// The next word as a service path identifier.
pub(crate) fn next_spi(words: &mut SplitWhitespace) -> Option<Spi> {
    let number = read_number(words.next()?.as_bytes(), 0, 16_777_215)?;
    Spi::of(number as u32)
}

/// The next word as a service index.
pub(crate) fn next_index(words: &mut SplitWhitespace) -> Option<u8> {
    let number = read_number(words.next()?.as_bytes(), 0, 255)?;
    Some(number as u8)
}

/// The path of a row `put SPI HOP ..`; None where the row tells none.
pub(crate) fn path_of(
    alloc: Global,
    mut words: SplitWhitespace,
) -> Result<Option<Path>, OutOfMemory> {
    let Some(spi) = next_spi(&mut words) else {
        return Ok(None);
    };
    let mut rows = List::new(alloc);
    for word in words {
        let Some(row) = hop(word.as_bytes()) else {
            return Ok(None);
        };
        rows.push(row)?;
    }
    Ok(Path::of(spi, rows))
}

/// `SI:FORWARDER:INSTANCE` or `SI:-`.
fn hop(word: &[u8]) -> Option<HopRow> {
    let mut parts = Pieces::of(word, b':');
    let si = parts.next_number(0, 255)? as u8;
    let served = parts.next()?;
    if served[..] == b"-"[..] {
        return Some(HopRow { si, choice: None });
    }
    let forwarder = read_number(served, 0, 255)? as u8;
    let instance = parts.next_number(0, 65_535)? as u16;
    Some(HopRow {
        si,
        choice: Some((ForwarderId(forwarder), InstanceId(instance))),
    })
}
