ghost use Rattle.std.specs.Prelude.{◌≡◌, ◌<◌, length, IfOk};
ghost use Rattle.std.specs.List.{HoldsAt};

use crate::traces::Trace;
use net_frames::Frame;
use std::alloc::Global;
use std::marker::Model;
use wire_base::OutOfMemory;

/// The most captured bytes of a frame.
const CAPTURE_LIMIT: u32 = 262_144;

/// All that forwarding writes to: the header of a frame under way, in 252 bytes, which is the most that a header has, and
/// the frame beside it.
#[derive(Debug, Drop)]
pub struct Workspace {
    pub(crate) header: [u8; 252],
    pub(crate) frame: Frame,
    pub(crate) trace: Trace,
}

impl Model for Workspace {
    ghost use Rattle.std.specs.Prelude.{◌≡◌};
    ghost use Rattle.forwarder.specs.Traces.{Worked};

    ghost Value = { Worked };

    ghost view = { λ w. record { frame = w.frame; traced = w.trace.kept; packets = w.trace.packets } };

    ghost invariant = { λ w. w.frame.room ≡ 262144 };
}

impl Workspace {
    ghost use Rattle.std.specs.Prelude.{[]};

    /// The buffers for a worker, with an empty frame, and where packets between forwarders are to be kept, with room for those of a walk.
    pub fn new(alloc: Global, trace: bool) -> Result<Workspace, OutOfMemory>
        ensures { IfOk result (λ work. work ≡ record { frame = record { room = 262144; bytes = []; original = 0 }; traced = trace; packets = [] }) }
    {
        let frame = Frame::with_room(alloc, CAPTURE_LIMIT)?;
        Ok(Workspace {
            header: [0; 252],
            frame,
            trace: Trace::new(alloc, trace)?,
        })
    }

    /// The captured bytes of the frame after the last `forward`.
    pub fn frame(&self) -> &[u8]
        ensures { result.now ≡ self.now.frame.bytes }
    {
        self.frame.bytes()
    }

    /// The length on the wire of the frame after the last `forward`.
    pub fn original(&self) -> u32
        ensures { result ≡ self.now.frame.original }
    {
        self.frame.original()
    }

    /// How many packets the last `forward` handed from one forwarder to another, where they are kept, else 0.
    pub fn trace_len(&self) -> usize
        ensures { result ≡ length self.now.packets }
    {
        self.trace.len()
    }

    /// A packet of the last `forward` by its place, counted from 0: 14 bytes of Ethernet header, the header, the frame.
    pub fn trace(&self, i: usize) -> &[u8]
        requires { i < length self.now.packets }
        ensures { HoldsAt (λ packet. result.now ≡ packet) self.now.packets i }
    {
        self.trace.packet(i)
    }
}
