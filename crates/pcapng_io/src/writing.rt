//! pcapng files of one section and one interface.

ghost use Rattle.std.specs.Prelude.{◌≡◌, ◌≤◌, ◌+◌, drop, IfOk};
ghost use Rattle.pcapng_io.specs.Options.{padded as padded_to};
ghost use Rattle.pcapng_io.specs.Written.{MayBeWritten, block_end_of, block_head_of, has_time as time_is, ng_head_of, packet_block, ticks_of, unit_of as unit_in};

use crate::interface_options::padded;
use pcap_io::{Captured, Form, PacketHead};
use std::alloc::Global;
use wire_base::{Bytes, OutOfMemory};

/// The most seconds that a time may have.
const MAX_SECONDS: u64 = 4_294_967_295;

/// How many fractions of a capture a second has.
fn unit_of(form: Form) -> u64
    ensures { result ≡ unit_in form }
{
    if form.nano { 1_000_000_000 } else { 1_000_000 }
}

/// The 60 bytes before the packets: a section header, and the description of an Ethernet whose times have the unit of the
/// form's fractions. Numbers have their lowest byte first, whatever the form's order.
#[tactic(auto, unfolding(crate::specs::Written::ng_head_of))]
pub fn ng_head(form: Form) -> [u8; 60]
    ensures { result ≡ ng_head_of form }
{
    let resolution = if form.nano { 9 } else { 6 };
    [
        0x0A, 0x0D, 0x0D, 0x0A, 28, 0, 0, 0, 0x4D, 0x3C, 0x2B, 0x1A, 1, 0, 0, 0, 0xFF, 0xFF, 0xFF,
        0xFF, 0xFF, 0xFF, 0xFF, 0xFF, 28, 0, 0, 0, 1, 0, 0, 0, 32, 0, 0, 0, 1, 0, 0, 0, 0, 0, 4, 0,
        9, 0, 1, 0, resolution, 0, 0, 0, 0, 0, 0, 0, 32, 0, 0, 0,
    ]
}

/// Whether the time of a frame, with what its fraction carries into the seconds, may be written.
pub fn has_time(form: Form, seconds: u32, fraction: u32) -> bool
    ensures { result ≡ time_is form seconds fraction }
{
    u64::from(seconds) + u64::from(fraction) / unit_of(form) <= MAX_SECONDS
}

/// The length of the block of a frame with so many bytes.
fn block_size(captured: u32) -> u32
    requires { captured ≤ 262144 }
    ensures { result ≡ 32 + padded_to captured }
{
    32 + padded(captured as usize) as u32
}

/// The 28 bytes before the bytes of a frame.
#[tactic(auto, unfolding(crate::specs::Written::block_head_of))]
pub fn block_head(form: Form, head: PacketHead) -> [u8; 28]
    requires { head.captured ≤ 262144 }
    ensures { result ≡ block_head_of (ticks_of form head.seconds head.fraction) head.captured head.original }
{
    let ticks = u64::from(head.seconds) * unit_of(form) + u64::from(head.fraction);
    let [s0, s1, s2, s3] = block_size(head.captured).to_le_bytes();
    let [h0, h1, h2, h3] = ((ticks / 4_294_967_296) as u32).to_le_bytes();
    let [l0, l1, l2, l3] = ((ticks % 4_294_967_296) as u32).to_le_bytes();
    let [c0, c1, c2, c3] = head.captured.to_le_bytes();
    let [o0, o1, o2, o3] = head.original.to_le_bytes();
    [
        6, 0, 0, 0, s0, s1, s2, s3, 0, 0, 0, 0, h0, h1, h2, h3, l0, l1, l2, l3, c0, c1, c2, c3, o0,
        o1, o2, o3,
    ]
}

/// The bytes behind those of a frame: `cells` from `from` on.
#[derive(Clone, Copy, Debug)]
pub struct BlockEnd {
    pub cells: [u8; 7],
    pub from: usize,
}

/// What stands behind so many bytes of a frame: 0 up to a multiple of 4, and the block's length again.
#[tactic(auto, unfolding(crate::specs::Written::block_end_of))]
pub fn block_end(captured: u32) -> BlockEnd
    requires { captured ≤ 262144 }
    ensures end { drop result.from result.cells ≡ block_end_of captured }
    ensures there { result.from ≤ 3 }
{
    let [s0, s1, s2, s3] = block_size(captured).to_le_bytes();
    BlockEnd {
        cells: [0, 0, 0, s0, s1, s2, s3],
        from: 3 - (padded(captured as usize) - captured as usize),
    }
}

/// The enhanced packet of a frame of a capture of this form. The frame is one that a capture may have, and its time with what its
/// fraction carries is none past 4,294,967,295 seconds.
pub fn encode_ng(alloc: Global, form: Form, frame: &Captured) -> Result<Bytes, OutOfMemory>
    requires { MayBeWritten form frame.now }
    ensures { IfOk result (λ bytes. bytes ≡ packet_block form frame.now) }
{
    let own = frame.bytes.as_slice();
    let head = PacketHead {
        seconds: frame.seconds,
        fraction: frame.fraction,
        captured: own.len() as u32,
        original: frame.original,
    };
    let end = block_end(head.captured);
    let mut bytes = Bytes::new(alloc);
    bytes.push_all(&block_head(form, head))?;
    bytes.push_all(own)?;
    bytes.push_all(&end.cells[end.from..])?;
    Ok(bytes)
}
