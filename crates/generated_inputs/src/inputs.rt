//! Generated inputs.

ghost use Rattle.std.specs.Prelude.{◌≤◌, IfOk};
ghost use Rattle.generated_inputs.specs.Inputs.{IsGenerated};

use crate::frames::generated_frames;
use crate::segments::generated_segments;
use crate::setups::generated_setup;
use control_files::Segment;
use pcap_io::Captured;
use sfc_config::Setup;
use std::alloc::Global;
use wire_base::{List, OutOfMemory};

/// A setup, the frames of a capture and the segments of a control file.
#[derive(Debug, Drop)]
pub struct GeneratedInput {
    pub setup: Setup,
    pub frames: List<Captured>,
    pub segments: List<Segment>,
}

/// The inputs from a seed, with so many frames, 1 to 65,536.
///
/// Frame j is captured whole at second j. Its length, the last byte of the address to which it goes, and whether it goes to telnet or to
/// HTTPS are by draw j. A peer announces the routes of three instances and of a path over them before the first frame, withdraws the
/// firewall's route before frame 64, announces it again before frame 128, and so on before each multiple of 64.
pub fn generated_input(alloc: Global, seed: u64, count: u32) -> Result<GeneratedInput, OutOfMemory>
    requires some { 1 ≤ count }
    requires most { count ≤ 65536 }
    ensures { IfOk result (λ input. IsGenerated seed count input.setup input.frames input.segments) }
{
    let setup = generated_setup(alloc)?;
    let frames = generated_frames(alloc, seed, count)?;
    let segments = generated_segments(alloc, &setup.local, count)?;
    Ok(GeneratedInput {
        setup,
        frames,
        segments,
    })
}
