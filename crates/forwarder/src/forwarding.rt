//! A frame from the rules to its end.

ghost use Rattle.std.specs.Prelude.{◌≡◌, ◌-◌, ◌^◌, ◌<◌, ◌≤◌, [], All, length, MatchOption, IfSome, IfErr};
ghost use Rattle.classifier.specs.Verdicts.{IsVerdict};
ghost use Rattle.path_selection.specs.Published.{StartsWith};
ghost use Rattle.sfc_config.specs.Parts.{AreParts};
ghost use Rattle.forwarder.specs.Records.{HasSeen, frame_after};
ghost use Rattle.forwarder.specs.Walks.{functions_of};
ghost use Rattle.forwarder.specs.Workspaces.{Forwarded, taken_in};

use crate::frames_in::FrameIn;
use crate::gates::Gate;
use crate::headers::header_of;
use crate::walking::walk;
use crate::workspaces::Workspace;
use arrayvec::ArrayVec;
use classifier::Verdict;
use net_frames::Frame;
use path_selection::Tables;
use record_text::{End, Reason, Record};
use sfc_config::Setup;

/// The record of a frame that no rule puts on a path.
fn unwalked(worker: u32, end: End) -> Record
    ensures { result ≡ record { worker = worker; path = None; versions = record { items = [] }; visits = record { items = [] }; end = end } }
{
    Record {
        worker,
        path: None,
        versions: ArrayVec::new(),
        visits: ArrayVec::new(),
        end,
    }
}

/// Puts a frame in place of the one that was there.
fn take_in(frame: &mut Frame, given: FrameIn<'_>)
    requires room { frame.old.room ≡ 262144 }
    requires captured { length given.bytes.now ≤ given.original }
    requires limited { length given.bytes.now ≤ 262144 }
    requires short { given.original ≤ 2147483647 }
    ensures { frame.new ≡ taken_in given.entry.bytes.now given.entry.original }
{
    let Ok(()) = frame.fill(given.bytes, given.original) else {
        return;
    };
}

/// Forwards a frame from the rules to its end (RFC 7665, section 4; RFC 8300, sections 2.2 and 2.3), and gives the record of its walk:
/// the versions that its lookups named, the instances that it visited, and its end. A gate is told before each lookup.
///
/// At each turn the TTL is lowered, then the table is asked, and where the hop is at another forwarder, the next turn is there; else
/// its instance serves the frame, in place. An instance number that the setup does not have serves as an aware `pass`.
///
/// None comes exactly where a lookup could not be made; the workspace's frame is then of no use. It takes no memory and waits for
/// nobody.
pub fn forward<T: Tables, G: Gate>(
    setup: &Setup,
    tables: &mut T,
    gate: &G,
    work: &mut Workspace,
    frame: FrameIn<'_>,
    worker: u32,
) -> Option<Record>
    requires captured { length frame.bytes.now ≤ frame.original }
    requires limited { length frame.bytes.now ≤ 262144 }
    requires short { frame.original ≤ 2147483647 }
    requires count { T.refused tables.old < 2 ^ 64 - 1 }
    ensures origin { T.origin tables.new ≡ T.origin tables.old }
    ensures grows { StartsWith (T.known tables.new) (T.known tables.old) }

    // Also where there is no record, the version seen is the last one that a lookup named, or the one seen before.
    ensures seen { HasSeen (T.known tables.new) (T.seen tables.old) (T.seen tables.new) }

    // None exactly where a lookup was refused; else the record is that of the one walk over the tables that the lookups named.
    ensures record { MatchOption result (T.refused tables.old < T.refused tables.new) (λ r. (T.refused tables.new ≡ T.refused tables.old)
        × Forwarded setup.now (taken_in frame.entry.bytes.now frame.entry.original) worker (T.known tables.new) (T.seen tables.old) (T.seen tables.new) work.new r) }
    ensures traced { work.new.traced ≡ work.old.traced }
    ensures frame { IfSome result (λ r. work.new.frame ≡ frame_after (functions_of setup.now.instances) (taken_in frame.entry.bytes.now frame.entry.original) r) }
{
    take_in(&mut work.frame, frame);
    work.trace.clear();
    match setup.rules.classify(&work.frame) {
        Verdict::Path(spi, si, ttl, context) => {
            let nsh = header_of(spi, si, ttl, context);
            walk(
                setup.instances.as_slice(),
                setup.ingress,
                tables,
                gate,
                &mut work.frame,
                &mut work.header,
                &mut work.trace,
                &nsh,
                worker,
            )
        }
        Verdict::Bypass => Some(unwalked(worker, End::Bypass)),
        Verdict::Refuse => Some(unwalked(worker, End::Drop(Reason::Rule))),
        Verdict::NshIngress => Some(unwalked(worker, End::Drop(Reason::NshIngress))),
    }
}
