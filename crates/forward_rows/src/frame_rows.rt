//! The frames that rows tell.

ghost use Rattle.std.specs.Prelude.{◌-◌, ◌<◌, ◌^◌};

use crate::words::next_number;
use forwarder::{FrameIn, OpenGate, Workspace, forward};
use path_selection::Tables;
use record_text::Record;
use sfc_config::Setup;
use std::alloc::Global;
use std::str::SplitWhitespace;

/// A frame of a row.
#[derive(Drop)]
pub(crate) struct FrameRow {
    original: u32,
    bytes: Vec<u8>,
}

/// The frame of a row `frame ORIGINAL CAPTURED DIGITS`; None where the row tells none.
pub(crate) fn frame_of(
    alloc: Global,
    mut words: SplitWhitespace,
) -> anyhow::Result<Option<FrameRow>> {
    let Some(original) = next_number(&mut words, 2_147_483_647) else {
        return Ok(None);
    };
    let Some(captured) = next_number(&mut words, 262_144) else {
        return Ok(None);
    };
    let mut bytes = hex::decode(alloc, words.next().unwrap_or(""))?;
    bytes.resize(captured as usize, 0)?;
    Ok(Some(FrameRow {
        original: original as u32,
        bytes,
    }))
}

impl FrameRow {
    /// Forwards the frame; None where it is longer captured than on the wire, and where a lookup could not be made.
    pub(crate) fn forward<T: Tables>(
        &self,
        setup: &Setup,
        tables: &mut T,
        work: &mut Workspace,
    ) -> Option<Record>
        requires { T.refused tables.old < 2 ^ 64 - 1 }
    {
        let bytes = self.bytes.as_slice();
        let original = self.original;
        if bytes.len() > 262_144 || bytes.len() > original as usize || original > 2_147_483_647 {
            return None;
        }
        forward(
            setup,
            tables,
            &OpenGate,
            work,
            FrameIn { bytes, original },
            0,
        )
    }
}
