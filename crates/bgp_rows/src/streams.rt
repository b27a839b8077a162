//! A stream of messages.

use anyhow::bail;
use bgp_messages::{BgpFeed, Message, NextFault, encode_message};
use std::alloc::Global;

/// The most bytes that are given to a feed at once, and that it may keep.
const MOST: usize = 65_536;

/// Gives a piece to a feed.
fn give(feed: &mut BgpFeed, piece: &[u8]) -> anyhow::Result<()> {
    if piece.len() > MOST || feed.rest().len() > MOST || feed.place() > 1 << 32 {
        bail!("a stream of more than 65,536 bytes");
    }
    match feed.push(piece) {
        Ok(()) => Ok(()),
        Err(_) => bail!("no memory for a piece"),
    }
}

/// A feed's next answer.
#[derive(Drop)]
enum Answer {
    /// A message, and the line that shows it.
    Given(String),
    Waits,
    /// The line that shows the refusal.
    Refused(String),
}

/// The line of a message; of an OPEN with the peer's AS.
fn line_of(alloc: Global, message: &Message) -> anyhow::Result<String> {
    match message {
        Message::Open(open) => Ok(format!(in alloc; "{open:?} of AS {}", open.peer_as())?),
        other => Ok(format!(in alloc; "{other:?}")?),
    }
}

/// What a feed answers next.
fn next_answer(alloc: Global, feed: &mut BgpFeed) -> anyhow::Result<Answer> {
    match feed.next() {
        Ok(Some(message)) => Ok(Answer::Given(line_of(alloc, &message)?)),
        Ok(None) => Ok(Answer::Waits),
        Err(NextFault::Bad(refusal)) => Ok(Answer::Refused(format!(in alloc; "{refusal:?}")?)),
        Err(NextFault::OutOfMemory) => bail!("no memory for a message"),
    }
}

/// Appends the lines of the messages that a feed gives now, and answers the line of its end: what is refused, or how
/// many bytes are left.
fn drain(alloc: Global, feed: &mut BgpFeed, lines: &mut String) -> anyhow::Result<String> {
    for _ in 0..MOST {
        match next_answer(alloc, feed)? {
            Answer::Given(line) => {
                lines.push_str(line.as_str())?;
                lines.push_str("\n")?;
            }
            Answer::Waits => return Ok(format!(in alloc; "rest {}", feed.rest().len())?),
            Answer::Refused(line) => return Ok(line),
        }
    }
    bail!("more than 65,536 messages")
}

/// The lines of a stream that is given in two pieces.
fn lines_in_two(alloc: Global, first: &[u8], second: &[u8]) -> anyhow::Result<String> {
    let mut feed = BgpFeed::new(alloc);
    let mut lines = String::new(alloc);
    give(&mut feed, first)?;
    drain(alloc, &mut feed, &mut lines)?;
    give(&mut feed, second)?;
    let end = drain(alloc, &mut feed, &mut lines)?;
    lines.push_str(end.as_str())?;
    Ok(lines)
}

/// How many of the cuttings into two answer these lines, up to the first that does not.
fn alike(alloc: Global, stream: &[u8], lines: &str) -> anyhow::Result<usize> {
    for cut in 0..=stream.len() {
        let (first, second) = stream.split_at(cut);
        if lines_in_two(alloc, first, second)?.as_str() != lines {
            return Ok(cut);
        }
    }
    Ok(stream.len() + 1)
}

/// What a feed answers to each of a stream's bytes: a word for each message, with the number of bytes that were given
/// before it came, one for the refusal, and how often that was told again.
fn in_single_bytes(alloc: Global, stream: &[u8]) -> anyhow::Result<String> {
    let mut feed = BgpFeed::new(alloc);
    let mut text = String::new(alloc);
    let mut refused = 0u64;
    for i in 0..stream.len() {
        give(&mut feed, &stream[i..i + 1])?;
        match next_answer(alloc, &mut feed)? {
            Answer::Given(_) => text.push_str(format!(in alloc; " given at {},", i + 1)?.as_str())?,
            Answer::Waits => {}
            Answer::Refused(_) => {
                if refused == 0 {
                    text.push_str(format!(in alloc; " refused at {},", i + 1)?.as_str())?;
                }
                refused = refused.saturating_add(1);
            }
        }
    }
    text.push_str(format!(in alloc; " refused {refused} times")?.as_str())?;
    Ok(text)
}

/// What stands behind the first message where that is written as the bytes that it was read from; None where there is no message
/// or it is written otherwise.
fn behind_written<'a>(alloc: Global, stream: &'a [u8]) -> anyhow::Result<Option<&'a [u8]>> {
    let mut feed = BgpFeed::new(alloc);
    if feed.push(stream).is_err() {
        bail!("no memory for a stream");
    }
    match feed.next() {
        Ok(Some(message)) => match encode_message(alloc, &message) {
            Ok(written) => Ok(stream.strip_prefix(written.as_slice())),
            Err(_) => bail!("no memory for a message"),
        },
        _ => Ok(None),
    }
}

/// How many of a stream's first messages are written as the bytes that they were read from.
fn written_again(alloc: Global, stream: &[u8]) -> anyhow::Result<usize> {
    let mut rest = stream;
    for count in 0..MOST {
        match behind_written(alloc, rest)? {
            Some(behind) => rest = behind,
            None => return Ok(count),
        }
    }
    bail!("more than 65,536 messages")
}

/// Prints what a feed answers to the whole stream, to its bytes one by one and to its cuttings into two, and how many messages are
/// written again.
pub(crate) fn show<R: Print>(rt: &R, alloc: Global, stream: &[u8]) -> anyhow::Result<()> {
    let lines = lines_in_two(alloc, stream, &[])?;
    println!(rt; "{}", lines.as_str())?;
    println!(rt; "single bytes:{}", in_single_bytes(alloc, stream)?.as_str())?;
    println!(rt;
        "cuttings into two: {} of {} alike",
        alike(alloc, stream, lines.as_str())?,
        stream.len() + 1
    )?;
    println!(rt; "written again: {}", written_again(alloc, stream)?)?;
    Ok(())
}
