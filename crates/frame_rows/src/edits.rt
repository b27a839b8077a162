//! The edits of a frame by their words.

use crate::named_frames::FrameTable;
use net_frames::{Frame, Side, lower_hop_limit, pop_vlan, push_vlan, set_dscp, set_ipv4_address};
use std::fmt;
use text_words::read_dotted;

/// How an edit went.
#[derive(Clone, Copy, Debug, PartialEq, Eq)]
pub(crate) enum Outcome {
    Done,
    /// There was no room.
    Full,
    /// The hop limit was 0 or 1.
    Expired,
}

impl fmt::Display for Outcome {
    fn fmt<W: fmt::Write>(&self, f: &mut fmt::Formatter<W>) -> fmt::Result {
        match self {
            Outcome::Done => write!(f, "done"),
            Outcome::Full => write!(f, "full"),
            Outcome::Expired => write!(f, "expired"),
        }
    }
}

/// Makes the edit that the word tells; None where it tells none.
pub(crate) fn edit(frame: &mut Frame, frames: &FrameTable, word: &str) -> Option<Outcome> {
    match word {
        "hoplimit" => Some(hop(frame)),
        "pop-vlan" => {
            pop_vlan(frame);
            Some(Outcome::Done)
        }
        _ => {
            let (kind, value) = word.split_once('=')?;
            edit_with(frame, frames, kind, value)
        }
    }
}

fn edit_with(frame: &mut Frame, frames: &FrameTable, kind: &str, value: &str) -> Option<Outcome> {
    match kind {
        "fill" => {
            let (name, original) = value.split_once('/')?;
            fill(frame, frames.front(name)?, original.parse().ok()?)
        }
        "dscp" => mark(frame, value.parse().ok()?),
        "source" => readdress(frame, Side::Source, value),
        "destination" => readdress(frame, Side::Destination, value),
        "push-vlan" => push(frame, value.parse().ok()?),
        _ => None,
    }
}

/// Puts the bytes in; None where they are more than a frame has, or than were on the wire.
pub(crate) fn fill(frame: &mut Frame, bytes: &[u8], original: u32) -> Option<Outcome> {
    if bytes.len() > 262_144 || bytes.len() > original as usize || original > 2_147_483_647 {
        return None;
    }
    match frame.fill(bytes, original) {
        Ok(()) => Some(Outcome::Done),
        Err(_) => Some(Outcome::Full),
    }
}

fn mark(frame: &mut Frame, dscp: u8) -> Option<Outcome> {
    if dscp >= 64 {
        return None;
    }
    set_dscp(frame, dscp);
    Some(Outcome::Done)
}

fn readdress(frame: &mut Frame, side: Side, address: &str) -> Option<Outcome> {
    set_ipv4_address(frame, side, read_dotted(address.as_bytes())?);
    Some(Outcome::Done)
}

fn hop(frame: &mut Frame) -> Outcome {
    if lower_hop_limit(frame) {
        Outcome::Done
    } else {
        Outcome::Expired
    }
}

fn push(frame: &mut Frame, vid: u16) -> Option<Outcome> {
    if vid >= 4096 {
        return None;
    }
    match push_vlan(frame, vid) {
        Ok(()) => Some(Outcome::Done),
        Err(_) => Some(Outcome::Full),
    }
}
