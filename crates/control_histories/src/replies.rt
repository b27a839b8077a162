//! What an event sent, as a segment.

ghost use Rattle.std.specs.Prelude.{◌≡◌, ◌++◌, length, take, OnOk, OnErr};
ghost use Rattle.control_files.specs.Segments.{segments_bytes};
ghost use Rattle.control_histories.specs.Replies.{reply_to};

use control_files::{BYTES, SegmentHead, append_segment};
use wire_base::{Bytes, OutOfMemory};

/// Appends what the event of a segment with this head sent: a segment of kind 2 with its peer, moment and position, and nothing
/// where nothing was sent. Where there is no memory, what was there before still stands at the front.
pub fn append_reply(out: &mut Bytes, head: SegmentHead, sent: &[u8]) -> Result<(), OutOfMemory>
    ensures ok { OnOk result (out.new ≡ out.old ++ segments_bytes (reply_to head.peer head.moment head.position sent.now)) }
    ensures err { OnErr result (take (length out.old) out.new ≡ out.old) }
{
    if sent.is_empty() {
        return Ok(());
    }
    let Ok(length) = u32::try_from(sent.len()) else {
        return Err(OutOfMemory);
    };
    let head = SegmentHead {
        kind: BYTES,
        peer: head.peer,
        moment: head.moment,
        position: head.position,
        length,
    };
    append_segment(out, head, sent)
}
