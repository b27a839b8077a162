//! The frames of a round, taken into a batch.

ghost use Rattle.std.specs.Prelude.{◌≡◌, ◌∷◌, ◌++◌, [], length, OnOk};

use pcap_io::PacketHead;
use round_inputs::FrameBuffer;
use wire_base::OutOfMemory;
use worker_run::Batch;

/// A batch that takes the frames of a round.
#[derive(Debug, Drop)]
pub struct RoundFrames {
    pub batch: Batch,
}

impl FrameBuffer for RoundFrames {
    ghost use Rattle.worker_run.specs.Batches.{frames_in};

    ghost frames = { λ b. frames_in b.batch };

    fn push_lent(&mut self, head: PacketHead, bytes: &[u8]) -> Result<(), OutOfMemory> {
        self.batch.push_lent(head, bytes)
    }

    fn len(&self) -> usize {
        self.batch.len()
    }
}
