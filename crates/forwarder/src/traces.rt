//! The packets of one walk, in rooms that are made once.

ghost use Rattle.std.specs.Prelude.{◌≡◌, ◌<◌, ◌≤◌, [], ◌++◌, All, length, IfOk};
ghost use Rattle.std.specs.List.{HoldsAt};
ghost use Rattle.forwarder.specs.Traces.{outer, with_packet};

use std::alloc::Global;
use std::marker::Model;
use wire_base::{ForwarderId, OutOfMemory, RoomBuffer};

/// The most packets of a walk: its first TTL is at most 63, and its last turn hands nothing on.
const PACKETS: usize = 62;

/// The most bytes of a packet: 14, and those of a header and of a frame.
const PACKET_LIMIT: usize = 14 + 252 + 262_144;

/// The packets of a walk, or none where they are not kept.
#[derive(Debug, Drop)]
pub(crate) struct Trace {
    kept: bool,
    rooms: Vec<RoomBuffer>,
    count: usize,
}

impl Model for Trace {
    ghost use Rattle.std.specs.Prelude.{◌≡◌, ◌≤◌, true, All, length, map, take};
    ghost use Rattle.wire_base.specs.Rooms.{Roomed};
    ghost use Rattle.forwarder.specs.Traces.{Traced};

    ghost Value = { Traced };

    ghost view = { λ t. record { kept = t.kept; packets = map (λ (b : Roomed). b.bytes) (take t.count t.rooms.items) } };

    ghost invariant = { λ t. (t.kept ≡ true → length t.rooms.items ≡ 62) × (t.count ≤ length t.rooms.items) × All (λ (b : Roomed). b.room ≡ 262410) t.rooms.items };
}

/// A room for each packet. Its bytes are not touched.
fn packet_rooms(alloc: Global) -> Result<Vec<RoomBuffer>, OutOfMemory>
    ensures { IfOk result (λ rooms. (length rooms.items ≡ 62) × All (λ b. b.room ≡ 262410) rooms.items) }
{
    let mut rooms = Vec::with_capacity(alloc, PACKETS)?;
    'rooms: while rooms.len() < PACKETS {
        rooms.push(RoomBuffer::with_room(alloc, PACKET_LIMIT)?)?;
    }
    Ok(rooms)
}

/// Writes a packet into its room: the Ethernet header, the header, the frame.
fn fill_packet(
    room: &mut RoomBuffer,
    other: ForwarderId,
    forwarder: ForwarderId,
    header: &[u8],
    frame: &[u8],
)
    requires room { room.old.room ≡ 262410 }
    requires header { length header.now ≤ 252 }
    requires frame { length frame.now ≤ 262144 }
    ensures { room.new ≡ record { room = 262410; bytes = outer other forwarder ++ (header.now ++ frame.now) } }
{
    let ethernet = [
        2,
        0,
        0,
        0,
        0,
        other.0,
        2,
        0,
        0,
        0,
        0,
        forwarder.0,
        0x89,
        0x4f,
    ];
    room.clear();
    let Ok(()) = room.push_all(&ethernet) else {
        return;
    };
    let Ok(()) = room.push_all(header) else {
        return;
    };
    let Ok(()) = room.push_all(frame) else {
        return;
    };
}

impl Trace {
    /// No packets; where they are kept, with room for those of a walk.
    pub(crate) fn new(alloc: Global, kept: bool) -> Result<Trace, OutOfMemory>
        ensures { IfOk result (λ trace. trace ≡ record { kept = kept; packets = [] }) }
    {
        if kept {
            let rooms = packet_rooms(alloc)?;
            return Ok(Trace {
                kept,
                rooms,
                count: 0,
            });
        }
        Ok(Trace {
            kept,
            rooms: Vec::new(alloc),
            count: 0,
        })
    }

    /// How many packets there are.
    pub(crate) fn len(&self) -> usize
        ensures { result ≡ length self.now.packets }
    {
        self.count
    }

    /// A packet by its place, counted from 0.
    pub(crate) fn packet(&self, i: usize) -> &[u8]
        requires { i < length self.now.packets }
        ensures { HoldsAt (λ packet. result.now ≡ packet) self.now.packets i }
    {
        self.rooms[i].as_slice()
    }

    /// Drops all packets.
    pub(crate) fn clear(&mut self)
        ensures { self.new ≡ record { kept = self.old.kept; packets = [] } }
    {
        self.count = 0;
    }

    /// Keeps a packet that a forwarder hands to another, where packets are kept.
    pub(crate) fn keep(
        &mut self,
        forwarder: ForwarderId,
        other: ForwarderId,
        header: &[u8],
        frame: &[u8],
    )
        requires few { length self.old.packets < 62 }
        requires header { length header.now ≤ 252 }
        requires frame { length frame.now ≤ 262144 }
        ensures { self.new ≡ with_packet self.old (outer other forwarder ++ (header.now ++ frame.now)) }
    {
        if !self.kept {
            return;
        }
        fill_packet(&mut self.rooms[self.count], other, forwarder, header, frame);
        self.count += 1;
    }
}
