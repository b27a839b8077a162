//! A segment as an event of the session with its peer.

ghost use Rattle.std.specs.Prelude.{◌≡◌, ◌+◌, ◌≤◌, ℕ, List as Sequence, [], ◌∷◌, ◌++◌, true, length, map, OnOk, OnErr, IfOk};
ghost use Rattle.std.specs.List.{AllByRecursion};
ghost use Rattle.control_files.specs.declared.segments.Segment.{Segment};
ghost use Rattle.control_files.specs.Steps.{segment_of};
ghost use Rattle.sfc_routes.specs.PeerRoutes.{IsRouteChange};
ghost use Rattle.session_machine.specs.Events.{happening};
ghost use Rattle.session_machine.specs.Groups.{Entry, entry};
ghost use Rattle.session_machine.specs.Peers.{AllHold, HasPeer, HasRoom};
ghost use Rattle.control_histories.specs.Happenings.{happens};
ghost use Rattle.control_histories.specs.Logs.{Hears};

use control_files::{BYTES, CONNECT, SegmentHead};
use session_machine::{Effects, Event, Sessions};
use wire_base::OutOfMemory;

/// What a segment says that happens.
fn event_of<'a>(head: SegmentHead, bytes: &'a [u8]) -> Event<'a>
    ensures { happening result ≡ happens (segment_of head bytes.now) }
{
    if head.kind == CONNECT {
        return Event::Connect(head.moment);
    }
    if head.kind == BYTES {
        return Event::Bytes(head.moment, bytes);
    }
    Event::Close(head.moment)
}

/// Steps the session with a segment's peer by what the segment says, and gives what that leads to. The sessions with other peers
/// stay as they are. After want of memory all sessions have failed.
pub fn step_segment(
    sessions: &mut Sessions,
    head: SegmentHead,
    bytes: &[u8],
) -> Result<Effects, OutOfMemory>
    requires peer { HasPeer head.peer sessions.old.sessions.items }
    requires room { HasRoom head.peer (happens (segment_of head bytes.now)) sessions.old.sessions.items }
    ensures history { (segments : Sequence Segment) (log : Sequence Entry) → Hears sessions.old segments log
        → IfOk result (λ effects. Hears sessions.new (segments ++ segment_of head bytes.now ∷ [])
        (log ++ entry head.peer (happens (segment_of head bytes.now)) effects ∷ [])) }
    ensures changes { (segments : Sequence Segment) (log : Sequence Entry) → Hears sessions.old segments log
        → IfOk result (λ effects. AllByRecursion IsRouteChange effects.changes) }
    ensures again { sessions.old.failed ≡ true → OnOk result ⊥ }
    ensures failed { OnErr result (sessions.new.failed ≡ true) }
    ensures sides { map (λ s. s.side) sessions.new.sessions.items ≡ map (λ s. s.side) sessions.old.sessions.items }
    ensures count { (most : ℕ) → AllHold most sessions.old.sessions.items
        → OnOk result (AllHold (most + length bytes.now) sessions.new.sessions.items) }
{
    let effects = sessions.step(head.peer, event_of(head, bytes))?;
    Ok(effects)
}
