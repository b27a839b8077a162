//! Turn after turn, from a station to the end.

ghost use Rattle.std.specs.Prelude.{◌≡◌, ◌-◌, ◌^◌, ◌<◌, ◌≤◌, [], All, length, MatchOption, IfSome, IfNone};
ghost use Rattle.service_functions.specs.Functions.{IsFunction};
ghost use Rattle.sfc_config.specs.Parts.{FitsMode};
ghost use Rattle.classifier.specs.Stations.{first_station};
ghost use Rattle.path_selection.specs.Published.{StartsWith};
ghost use Rattle.forwarder.specs.Kept.{WalkedFrom};
ghost use Rattle.forwarder.specs.Records.{HasSeen, frame_after};
ghost use Rattle.forwarder.specs.Walks.{functions_of};

use crate::gates::Gate;
use crate::headers::{age, put_header};
use crate::traces::Trace;
use crate::turns::{Next, reason_of, take_turn};
use arrayvec::ArrayVec;
use net_frames::Frame;
use nsh_metadata::Nsh;
use path_selection::Tables;
use record_text::{End, Reason, Record};
use sfc_config::Bound;
use wire_base::ForwarderId;

/// Walks a frame from the ingress forwarder, with this header before it. The header lies in the buffer as its bytes, and the
/// frame is changed where it lies. None where a lookup could not be made.
pub(crate) fn walk<T: Tables, G: Gate>(
    bounds: &[Bound],
    ingress: ForwarderId,
    tables: &mut T,
    gate: &G,
    frame: &mut Frame,
    header: &mut [u8],
    trace: &mut Trace,
    nsh: &Nsh,
    worker: u32,
) -> Option<Record>
    requires fit { All (λ b. IsFunction b.function) bounds.now }
    requires modes { All FitsMode bounds.now }
    requires room { length header.old ≡ 252 }
    requires untraced { trace.old.packets ≡ [] }
    requires ttl { (1 ≤ nsh.now.head.base.ttl) × (nsh.now.head.base.ttl ≤ 63) }
    requires count { T.refused tables.old < 2 ^ 64 - 1 }
    ensures origin { T.origin tables.new ≡ T.origin tables.old }
    ensures grows { StartsWith (T.known tables.new) (T.known tables.old) }
    ensures seen { HasSeen (T.known tables.new) (T.seen tables.old) (T.seen tables.new) }
    ensures record { MatchOption result (T.refused tables.old < T.refused tables.new) (λ r. (T.refused tables.new ≡ T.refused tables.old)
        × WalkedFrom (functions_of bounds.now) (first_station ingress frame.old nsh.now) worker (T.known tables.new) (T.seen tables.old) (T.seen tables.new) trace.new r) }
    ensures frame { IfSome result (λ r. frame.new ≡ frame_after (functions_of bounds.now) frame.old r) }
    ensures trace { trace.new.kept ≡ trace.old.kept }
    ensures frame_room { frame.new.room ≡ frame.old.room }
{
    let spi = nsh.head.path.spi;
    let mut size = put_header(nsh, header);
    let mut forwarder = ingress;
    let mut versions = ArrayVec::new();
    let mut visits = ArrayVec::new();
    'turns: loop {
        if age(header, size) == 0 {
            return Some(Record {
                worker,
                path: Some(spi),
                versions,
                visits,
                end: End::Drop(Reason::Ttl),
            });
        }
        gate.before_lookup(worker);
        let found = tables.lookup(spi, header[7])?;
        versions.push(found.version);
        match take_turn(bounds, frame, header, size, forwarder, found.answer) {
            Next::Done(end) => {
                return Some(Record {
                    worker,
                    path: Some(spi),
                    versions,
                    visits,
                    end,
                });
            }
            Next::Handed(other) => {
                trace.keep(forwarder, other, &header[..size], frame.bytes());
                forwarder = other;
            }
            Next::Passed(instance, end) => {
                visits.push(instance);
                size = end;
            }
            Next::Dropped(instance, why) => {
                visits.push(instance);
                return Some(Record {
                    worker,
                    path: Some(spi),
                    versions,
                    visits,
                    end: End::Drop(reason_of(why, instance)),
                });
            }
        }
    }
}
