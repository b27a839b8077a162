//! The words of a row.

ghost use Rattle.std.specs.Prelude.{◌≤◌, IfSome};

use crate::open_windows::Place;
use std::str::SplitWhitespace;
use text_words::read_number;
use wire_base::Spi;

/// The next word as a number within bounds.
pub(crate) fn next_number(words: &mut SplitWhitespace, least: u64, most: u64) -> Option<u64>
    ensures { IfSome result (λ n. (least ≤ n) × (n ≤ most)) }
{
    read_number(words.next()?.as_bytes(), least, most)
}

/// The next word as a service path identifier.
pub(crate) fn next_spi(words: &mut SplitWhitespace) -> Option<Spi> {
    let number = next_number(words, 0, 16_777_215)?;
    Spi::of(number as u32)
}

/// The next word as a number of a path.
pub(crate) fn next_path(words: &mut SplitWhitespace) -> Option<u8> {
    let number = next_number(words, 0, 199)?;
    Some(number as u8)
}

/// The next word as a seat.
pub(crate) fn next_place(words: &mut SplitWhitespace) -> Option<Place> {
    match words.next()? {
        "1" => Some(Place::First),
        "2" => Some(Place::Second),
        _ => None,
    }
}

/// What a seat is asked.
#[derive(Clone, Copy)]
pub(crate) struct Question {
    pub place: Place,
    pub spi: Spi,
    pub si: u8,
}

/// `SEAT SPI SI`
pub(crate) fn next_question(mut words: SplitWhitespace) -> Option<Question> {
    let place = next_place(&mut words)?;
    let spi = next_spi(&mut words)?;
    let si = next_number(&mut words, 0, 255)? as u8;
    Some(Question { place, spi, si })
}
