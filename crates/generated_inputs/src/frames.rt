//! Generated frames.

ghost use Rattle.std.specs.Prelude.{◌≡◌, ◌≤◌, ◌++◌, replicate, IfOk, OnOk};
ghost use Rattle.wire_base.specs.Numbers.{two};
ghost use Rattle.generated_inputs.specs.Frames.{frame_for, generated_frames, to_port};

use crate::draws::Draws;
use crate::headers::push_header;
use pcap_io::Captured;
use std::alloc::Global;
use wire_base::{Bytes, List, OutOfMemory};

/// The Ethernet header: two addresses, and the EtherType of IPv4.
const LINK: [u8; 14] = [2, 0, 0, 0, 0, 2, 2, 0, 0, 0, 0, 1, 8, 0];

/// The fewest bytes of a frame, and how many more it may have, but one.
const LEAST: u32 = 60;

const SPAN: u32 = 1441;

/// The bytes of the Ethernet and IPv4 headers and of the ports.
const HEADERS: u32 = 38;

/// The bytes 0 behind the ports of the longest frame.
const ZEROS: [u8; 1462] = [0; 1462];

/// The port from which every frame comes, and those to which it may go.
const FROM_PORT: u16 = 49_152;

const TELNET: u16 = 23;

const HTTPS: u16 = 443;

/// The port to which a frame goes.
fn to_port(draw: u32) -> u16
    ensures { result ≡ to_port draw }
{
    if draw % 16 == 0 { TELNET } else { HTTPS }
}

/// Appends bytes 0.
fn push_zeros(bytes: &mut Bytes, count: usize) -> Result<(), OutOfMemory>
    requires { count ≤ 1462 }
    ensures { OnOk result (bytes.new ≡ bytes.old ++ replicate count 0) }
{
    bytes.push_all(&ZEROS[..count])
}

/// The frame with this number, for this draw.
fn frame_for(alloc: Global, number: u32, draw: u32) -> Result<Captured, OutOfMemory>
    ensures { IfOk result (λ frame. frame ≡ frame_for number draw) }
{
    let length = LEAST + draw % SPAN;
    let mut bytes = Bytes::new(alloc);
    bytes.reserve(length as usize)?;
    bytes.push_all(&LINK)?;
    push_header(
        &mut bytes,
        (length - 14) as u16,
        (number % 65536) as u16,
        (draw % 256) as u8,
    )?;
    bytes.push_u16(FROM_PORT)?;
    bytes.push_u16(to_port(draw))?;
    push_zeros(&mut bytes, (length - HEADERS) as usize)?;
    Ok(Captured {
        seconds: number,
        fraction: 0,
        original: length,
        bytes,
    })
}

/// So many frames from a seed.
pub(crate) fn generated_frames(
    alloc: Global,
    seed: u64,
    count: u32,
) -> Result<List<Captured>, OutOfMemory>
    ensures { IfOk result (λ frames. frames ≡ generated_frames seed count) }
{
    let mut frames = List::new(alloc);
    let mut draws = Draws { state: seed };
    for number in 0..count {
        let frame = frame_for(alloc, number, draws.draw())?;
        frames.push(frame)?;
    }
    Ok(frames)
}
