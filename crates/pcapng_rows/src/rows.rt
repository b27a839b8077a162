use crate::readings::Reading;
use pcap_io::{Captured, Form};
use pcapng_io::{encode_ng, has_time, ng_head};
use std::alloc::{AllocError, Global};
use wire_base::Bytes;

/// The most times that a row repeats its pattern.
const MOST_TIMES: u32 = 1_100_000;

/// What a row shows.
pub fn show(alloc: Global, line: &str) -> Result<String, AllocError> {
    let Some((kind, rest)) = line.split_once(' ') else {
        return format!(in alloc; "no row");
    };
    match kind {
        "read" => read(alloc, rest),
        "fronts" => fronts(alloc, rest),
        "repeat" => repeat(alloc, rest),
        "head" => hex::encode(alloc, &ng_head(form_of(rest))),
        "encode" => encode(alloc, rest),
        _ => format!(in alloc; "no row"),
    }
}

/// The bytes of a word.
fn bytes_of(alloc: Global, word: &str) -> Result<Vec<u8>, AllocError> {
    match hex::decode(alloc, word) {
        Ok(bytes) => Ok(bytes),
        Err(_) => Ok(Vec::new(alloc)),
    }
}

/// The reading of the bytes in one piece.
fn whole(alloc: Global, bytes: &[u8]) -> Result<Reading, AllocError> {
    let mut reading = Reading::new(alloc);
    reading.take(bytes)?;
    Ok(reading)
}

/// The line of the reading in two pieces.
fn in_two(alloc: Global, front: &[u8], behind: &[u8]) -> Result<String, AllocError> {
    let mut reading = Reading::new(alloc);
    reading.take(front)?;
    reading.take(behind)?;
    reading.line()
}

/// The line of the reading byte by byte, with each frame lent.
fn in_bytes(alloc: Global, bytes: &[u8]) -> Result<String, AllocError> {
    let mut reading = Reading::new(alloc);
    for byte in bytes {
        reading.take_lent(&[*byte])?;
    }
    reading.line()
}

/// The reading of the bytes, and whether it is the same in every cutting.
fn read(alloc: Global, word: &str) -> Result<String, AllocError> {
    let bytes = bytes_of(alloc, word)?;
    let line = whole(alloc, &bytes)?.line()?;
    let mut same = in_bytes(alloc, &bytes)? == line;
    for cut in 0..=bytes.len() {
        let (front, behind) = bytes.split_at(cut);
        same = same && in_two(alloc, front, behind)? == line;
    }
    let cuts = if same {
        "so in every cutting"
    } else {
        "not so in every cutting"
    };
    format!(in alloc; "{line} {cuts}")
}

/// The number of frames and the end of each front of the bytes.
fn fronts(alloc: Global, word: &str) -> Result<String, AllocError> {
    let bytes = bytes_of(alloc, word)?;
    let mut lines = String::new(alloc);
    for cut in 0..=bytes.len() {
        let (front, _) = bytes.split_at(cut);
        let reading = whole(alloc, front)?;
        let end = reading.end()?;
        let line = format!(in alloc; "{cut}: {} {} {end}\n", reading.begun(), reading.count)?;
        lines.push_str(line.as_str())?;
    }
    Ok(lines)
}

/// The number of frames and the end of a front, a pattern so many times, and a back.
fn repeat(alloc: Global, rest: &str) -> Result<String, AllocError> {
    let mut words = rest.split(' ');
    let front = words.next().unwrap_or("-");
    let pattern = bytes_of(alloc, words.next().unwrap_or("-"))?;
    let count = words.next().unwrap_or("0").parse().unwrap_or(0u32);
    let back = bytes_of(alloc, words.next().unwrap_or("-"))?;
    let mut bytes = bytes_of(alloc, front)?;
    for _ in 0..count.min(MOST_TIMES) {
        bytes.extend_from_slice(&pattern)?;
    }
    bytes.extend_from_slice(&back)?;
    let reading = whole(alloc, &bytes)?;
    let end = reading.end()?;
    format!(in alloc; "{} frames of {} bytes, {end}", reading.count, bytes.len())
}

/// The form of a capture whose fractions have this unit.
fn form_of(unit: &str) -> Form {
    Form {
        nano: unit == "nano",
        big: false,
    }
}

/// The packet of a frame.
fn encode(alloc: Global, rest: &str) -> Result<String, AllocError> {
    let mut words = rest.split(' ');
    let form = form_of(words.next().unwrap_or("micro"));
    let seconds = words.next().unwrap_or("0").parse().unwrap_or(0u32);
    let fraction = words.next().unwrap_or("0").parse().unwrap_or(0u32);
    let original = words.next().unwrap_or("0").parse().unwrap_or(0u32);
    let own = bytes_of(alloc, words.next().unwrap_or("-"))?;
    if !has_time(form, seconds, fraction) {
        return format!(in alloc; "no time");
    }
    if own.len() > 1_000 || original < 1_000 || original > 2_147_483_647 {
        return format!(in alloc; "no frame of a row");
    }
    let bytes = Bytes::copy_of(alloc, &own).map_err(|_| AllocError)?;
    let frame = Captured {
        seconds,
        fraction,
        original,
        bytes,
    };
    match encode_ng(alloc, form, &frame) {
        Ok(block) => hex::encode(alloc, block.as_slice()),
        Err(_) => Err(AllocError),
    }
}
