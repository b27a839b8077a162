use crate::readings::{Reading, memory_fault};
use control_files::segment_head;
use std::alloc::{AllocError, Global};
use wire_base::List;

/// The most bytes that a generated segment has.
const MOST_GIVEN: u32 = 70_000;

/// What a row shows.
pub fn show(alloc: Global, line: &str) -> Result<String, AllocError> {
    let Some((kind, rest)) = line.split_once(' ') else {
        return format!(in alloc; "no row");
    };
    match kind {
        "read" => read(alloc, rest),
        "fronts" => fronts(alloc, rest),
        "long" => long(alloc, rest),
        "head" => head(alloc, rest),
        _ => format!(in alloc; "no row"),
    }
}

/// The peers of a word, each with an AS.
fn peers_of(alloc: Global, word: &str) -> Result<List<(u16, u32)>, AllocError> {
    let mut peers = List::new(alloc);
    for number in word.split(',') {
        if let Ok(number) = number.parse() {
            peers.push((number, 65_000)).map_err(memory_fault)?;
        }
    }
    Ok(peers)
}

/// The bytes of a word.
fn bytes_of(alloc: Global, word: &str) -> Result<Vec<u8>, AllocError> {
    match hex::decode(alloc, word) {
        Ok(bytes) => Ok(bytes),
        Err(_) => Ok(Vec::new(alloc)),
    }
}

/// The reading of the bytes in one piece.
fn whole(alloc: Global, peers: &List<(u16, u32)>, bytes: &[u8]) -> Result<Reading, AllocError> {
    let mut reading = Reading::new(alloc, peers)?;
    reading.take(bytes)?;
    Ok(reading)
}

/// The line of the reading in two pieces.
fn in_two(
    alloc: Global,
    peers: &List<(u16, u32)>,
    front: &[u8],
    behind: &[u8],
) -> Result<String, AllocError> {
    let mut reading = Reading::new(alloc, peers)?;
    reading.take(front)?;
    reading.take(behind)?;
    reading.line()
}

/// The line of the reading byte by byte, with each segment lent.
fn in_bytes(alloc: Global, peers: &List<(u16, u32)>, bytes: &[u8]) -> Result<String, AllocError> {
    let mut reading = Reading::new(alloc, peers)?;
    for byte in bytes {
        reading.take_lent(&[*byte])?;
    }
    reading.line()
}

/// The reading of the bytes, and whether it is the same in every cutting.
fn read(alloc: Global, rest: &str) -> Result<String, AllocError> {
    let Some((numbers, word)) = rest.split_once(' ') else {
        return format!(in alloc; "no bytes");
    };
    let peers = peers_of(alloc, numbers)?;
    let bytes = bytes_of(alloc, word)?;
    let line = whole(alloc, &peers, &bytes)?.line()?;
    let mut same = in_bytes(alloc, &peers, &bytes)? == line;
    for cut in 0..=bytes.len() {
        let (front, behind) = bytes.split_at(cut);
        same = same && in_two(alloc, &peers, front, behind)? == line;
    }
    let cuts = if same {
        "so in every cutting"
    } else {
        "not so in every cutting"
    };
    format!(in alloc; "{line} {cuts}")
}

/// The number of segments and the end of each front of the bytes.
fn fronts(alloc: Global, rest: &str) -> Result<String, AllocError> {
    let Some((numbers, word)) = rest.split_once(' ') else {
        return format!(in alloc; "no bytes");
    };
    let peers = peers_of(alloc, numbers)?;
    let bytes = bytes_of(alloc, word)?;
    let mut lines = String::new(alloc);
    for cut in 0..=bytes.len() {
        let (front, _) = bytes.split_at(cut);
        let reading = whole(alloc, &peers, front)?;
        let end = reading.end()?;
        let line = format!(in alloc; "{cut}: {} {end}\n", reading.count)?;
        lines.push_str(line.as_str())?;
    }
    Ok(lines)
}

/// The head of one segment of peer 1, and how many bytes are behind it.
#[derive(Clone, Copy)]
struct LongRow {
    kind: u8,
    length: u32,
    given: u32,
}

/// Reads `KIND LENGTH GIVEN`.
fn long_row(rest: &str) -> Option<LongRow> {
    let (kind, rest) = rest.split_once(' ')?;
    let (length, given) = rest.split_once(' ')?;
    Some(LongRow {
        kind: kind.parse().ok()?,
        length: length.parse().ok()?,
        given: given.parse().ok()?,
    })
}

/// The file of that segment: its bytes are 0, 1, and so on to 250, and again.
fn long_file(alloc: Global, row: &LongRow) -> Result<Vec<u8>, AllocError> {
    let mut bytes = Vec::from_slice(alloc, &segment_head(row.kind, 1, 2, 3, row.length))?;
    for i in 0..row.given.min(MOST_GIVEN) {
        bytes.push((i % 251) as u8)?;
    }
    Ok(bytes)
}

/// The reading of that file.
fn long(alloc: Global, rest: &str) -> Result<String, AllocError> {
    let Some(row) = long_row(rest) else {
        return format!(in alloc; "no segment");
    };
    let peers = peers_of(alloc, "1")?;
    let bytes = long_file(alloc, &row)?;
    whole(alloc, &peers, &bytes)?.line()
}

/// Reads `KIND PEER MOMENT POSITION LENGTH`, and gives the bytes before a segment's own.
fn head_row(rest: &str) -> Option<[u8; 23]> {
    let (kind, rest) = rest.split_once(' ')?;
    let (peer, rest) = rest.split_once(' ')?;
    let (moment, rest) = rest.split_once(' ')?;
    let (position, length) = rest.split_once(' ')?;
    Some(segment_head(
        kind.parse().ok()?,
        peer.parse().ok()?,
        moment.parse().ok()?,
        position.parse().ok()?,
        length.parse().ok()?,
    ))
}

/// The bytes before a segment's own.
fn head(alloc: Global, rest: &str) -> Result<String, AllocError> {
    let Some(head) = head_row(rest) else {
        return format!(in alloc; "no head");
    };
    hex::encode(alloc, head.as_slice())
}
