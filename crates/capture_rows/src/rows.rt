use crate::forms::form_of;
use crate::readings::Reading;
use pcap_io::{Form, capture_head, packet_head};
use std::alloc::{AllocError, Global};

/// The most bytes that a generated packet has.
const MOST_GIVEN: u32 = 300_000;

/// What a row shows.
pub fn show(alloc: Global, line: &str) -> Result<String, AllocError> {
    let Some((kind, rest)) = line.split_once(' ') else {
        return format!(in alloc; "no row");
    };
    match kind {
        "read" => read(alloc, rest),
        "fronts" => fronts(alloc, rest),
        "long" => long(alloc, rest),
        "heads" => heads(alloc, rest),
        _ => format!(in alloc; "no row"),
    }
}

/// The reading of the bytes in one piece.
fn whole(alloc: Global, bytes: &[u8]) -> Result<Reading, AllocError> {
    let mut reading = Reading::new(alloc);
    reading.take(bytes)?;
    Ok(reading)
}

/// The line of the reading in two pieces.
fn in_two(alloc: Global, front: &[u8], behind: &[u8]) -> Result<String, AllocError> {
    let mut reading = Reading::new(alloc);
    reading.take(front)?;
    reading.take(behind)?;
    reading.line()
}

/// The line of the reading byte by byte.
fn in_bytes(alloc: Global, bytes: &[u8]) -> Result<String, AllocError> {
    let mut reading = Reading::new(alloc);
    for byte in bytes {
        reading.take(&[*byte])?;
    }
    reading.line()
}

/// The reading of the bytes, and whether it is the same in every cutting.
fn read(alloc: Global, word: &str) -> Result<String, AllocError> {
    let Ok(bytes) = hex::decode(alloc, word) else {
        return format!(in alloc; "no bytes");
    };
    let line = whole(alloc, &bytes)?.line()?;
    let mut same = in_bytes(alloc, &bytes)? == line;
    for cut in 0..=bytes.len() {
        let (front, behind) = bytes.split_at(cut);
        same = same && in_two(alloc, front, behind)? == line;
    }
    let cuts = if same {
        "so in every cutting"
    } else {
        "not so in every cutting"
    };
    format!(in alloc; "{line} {cuts}")
}

/// The number of frames and the end of each front of the bytes.
fn fronts(alloc: Global, word: &str) -> Result<String, AllocError> {
    let Ok(bytes) = hex::decode(alloc, word) else {
        return format!(in alloc; "no bytes");
    };
    let mut lines = String::new(alloc);
    for cut in 0..=bytes.len() {
        let (front, _) = bytes.split_at(cut);
        let reading = whole(alloc, front)?;
        let end = reading.end()?;
        let line = format!(in alloc; "{cut}: {} {} {end}\n", reading.form(), reading.count)?;
        lines.push_str(line.as_str())?;
    }
    Ok(lines)
}

/// The head of one packet, and how many bytes are behind it.
#[derive(Clone, Copy)]
struct LongRow {
    form: Form,
    captured: u32,
    original: u32,
    given: u32,
}

/// Reads `FORM CAPTURED ORIGINAL GIVEN`.
fn long_row(rest: &str) -> Option<LongRow> {
    let (form, rest) = rest.split_once(' ')?;
    let (captured, rest) = rest.split_once(' ')?;
    let (original, given) = rest.split_once(' ')?;
    Some(LongRow {
        form: form_of(form)?,
        captured: captured.parse().ok()?,
        original: original.parse().ok()?,
        given: given.parse().ok()?,
    })
}

/// The capture of one packet, of which the first bytes are there: 0, 1, and so on to 250, and again.
fn long_capture(alloc: Global, row: &LongRow) -> Result<Vec<u8>, AllocError> {
    let mut bytes = Vec::from_slice(alloc, &capture_head(row.form))?;
    bytes.extend_from_slice(&packet_head(row.form, 1, 2, row.captured, row.original))?;
    for i in 0..row.given.min(MOST_GIVEN) {
        bytes.push((i % 251) as u8)?;
    }
    Ok(bytes)
}

/// The reading of that capture.
fn long(alloc: Global, rest: &str) -> Result<String, AllocError> {
    let Some(row) = long_row(rest) else {
        return format!(in alloc; "no packet");
    };
    let bytes = long_capture(alloc, &row)?;
    whole(alloc, &bytes)?.line()
}

/// The four numbers of a packet's head.
#[derive(Clone, Copy)]
struct HeadRow {
    form: Form,
    seconds: u32,
    fraction: u32,
    captured: u32,
    original: u32,
}

/// Reads `FORM SECONDS FRACTION CAPTURED ORIGINAL`.
fn head_row(rest: &str) -> Option<HeadRow> {
    let (form, rest) = rest.split_once(' ')?;
    let (seconds, rest) = rest.split_once(' ')?;
    let (fraction, rest) = rest.split_once(' ')?;
    let (captured, original) = rest.split_once(' ')?;
    Some(HeadRow {
        form: form_of(form)?,
        seconds: seconds.parse().ok()?,
        fraction: fraction.parse().ok()?,
        captured: captured.parse().ok()?,
        original: original.parse().ok()?,
    })
}

/// The bytes before the frames and before each frame.
fn heads(alloc: Global, rest: &str) -> Result<String, AllocError> {
    let Some(row) = head_row(rest) else {
        return format!(in alloc; "no heads");
    };
    let file = hex::encode(alloc, capture_head(row.form).as_slice())?;
    let head = packet_head(
        row.form,
        row.seconds,
        row.fraction,
        row.captured,
        row.original,
    );
    let packet = hex::encode(alloc, head.as_slice())?;
    format!(in alloc; "{file} {packet}")
}
