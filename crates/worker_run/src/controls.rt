//! The control side of a runner.

ghost use Rattle.std.specs.Prelude.{◌≡◌, ◌+◌, ◌≤◌, ℕ, ◌∷◌, ◌++◌, List as Sequence, [], length, map, IfOk, OnOk};
ghost use Rattle.std.specs.List.{AllByRecursion};
ghost use Rattle.control_files.specs.declared.segments.Segment.{Segment as Given};
ghost use Rattle.sfc_routes.specs.declared.route_changes.RouteChange.{RouteChange as Change};
ghost use Rattle.sfc_routes.specs.PeerRoutes.{IsRouteChange};
ghost use Rattle.sfc_routes.specs.LastWords.{Stands as AreAfter};
ghost use Rattle.session_machine.specs.Groups.{Entry};
ghost use Rattle.session_machine.specs.Peers.{AllHold};
ghost use Rattle.control_histories.specs.Replies.{reply_to};
ghost use Rattle.control_files.specs.Segments.{segments_bytes};
ghost use Rattle.control_histories.specs.Logs.{Hears, changes_of};
ghost use Rattle.control_histories.specs.Versions.{TableAfter};
ghost use Rattle.worker_run.specs.Publications.{TookEach, latest};
ghost use Rattle.worker_run.specs.Controls.{Follows, FollowsSome, Hearing, Ready, Took, bytes_in};

use crate::versions::Versions;
use control_files::{Segment, SegmentHead};
use control_histories::{append_reply, step_segment};
use path_selection::Table;
use session_machine::{Effects, Sessions};
use sfc_routes::{Roster, RouteChange, RouteList};
use wire_base::{Bytes, List, OutOfMemory};

/// The sessions with all peers, their routes, and how many changes of routes there were.
#[derive(Debug, Drop)]
pub(crate) struct Control {
    pub(crate) sessions: Sessions,
    pub(crate) routes: RouteList,
    pub(crate) version: u64,
}

/// Takes changes of routes in, one after the other.
fn apply_all(routes: &mut RouteList, changes: &[RouteChange]) -> Result<(), OutOfMemory>
    requires { AllByRecursion IsRouteChange changes.now }
    ensures { (before : Sequence Change) → AreAfter routes.old before → OnOk result (AreAfter routes.new (before ++ changes.now)) }
{
    match changes.split_first() {
        None => Ok(()),
        Some((change, rest)) => {
            routes.apply(change)?;
            apply_all(routes, rest)
        }
    }
}

/// The version after so many further changes. No run makes 2^64 of them.
fn version_after(version: u64, changes: usize) -> Result<u64, OutOfMemory>
    ensures { IfOk result (λ after. after ≡ version + changes) }
{
    match version.checked_add(changes as u64) {
        Some(after) => Ok(after),
        None => Err(OutOfMemory),
    }
}

/// The head of a segment.
fn head_of(segment: &Segment) -> SegmentHead
    requires { length segment.now.bytes ≤ 65535 }
    ensures { (result.kind ≡ segment.now.kind) × (result.peer ≡ segment.now.peer) × (result.moment ≡ segment.now.moment) × (result.position ≡ segment.now.position) }
{
    SegmentHead {
        kind: segment.kind,
        peer: segment.peer,
        moment: segment.moment,
        position: segment.position,
        length: segment.bytes.as_slice().len() as u32,
    }
}

impl Control {
    /// The session with the segment's peer steps, and what it sends comes behind the replies. The changes of routes that it gives, which
    /// the routes are still to take, make as many versions.
    fn hear(
        &mut self,
        segment: &Segment,
        replies: &mut Bytes,
    ) -> Result<List<RouteChange>, OutOfMemory>
        requires ready { Ready self.old (segment.now ∷ []) }
        requires some { FollowsSome self.old }
        ensures history { (history : Sequence Given) (log : Sequence Entry) → Hears self.old.sessions history log
            → IfOk result (λ changes. Hearing self.new.sessions history log segment.now changes replies.old replies.new) }
        ensures changes { IfOk result (λ changes. AllByRecursion IsRouteChange changes) }
        ensures routes { self.new.routes ≡ self.old.routes }
        ensures sides { map (λ s. s.side) self.new.sessions.sessions.items ≡ map (λ s. s.side) self.old.sessions.sessions.items }
        ensures version { IfOk result (λ changes. self.new.version ≡ self.old.version + length changes) }
        ensures rises { self.old.version ≤ self.new.version }
        ensures count { (most : ℕ) → AllHold most self.old.sessions.sessions.items
            → OnOk result (AllHold (most + length segment.now.bytes) self.new.sessions.sessions.items) }
    {
        let head = head_of(segment);
        let Effects { bytes, changes } = step_segment(
            &mut self.sessions,
            head,
            segment.bytes.as_slice(),
        )?;
        self.version = version_after(self.version, changes.as_slice().len())?;
        append_reply(replies, head, bytes.as_slice())?;
        Ok(changes)
    }

    /// Takes one segment: the session with its peer steps, the routes take the changes that it gives, and what it sends comes
    /// behind the replies.
    fn step(&mut self, segment: &Segment, replies: &mut Bytes) -> Result<(), OutOfMemory>
        requires ready { Ready self.old (segment.now ∷ []) }
        requires some { FollowsSome self.old }
        ensures history { (history : Sequence Given) (log : Sequence Entry) → Follows self.old history log
            → OnOk result (Took self.new history log (segment.now ∷ []) replies.old replies.new) }
        ensures sides { map (λ s. s.side) self.new.sessions.sessions.items ≡ map (λ s. s.side) self.old.sessions.sessions.items }
        ensures rises { self.old.version ≤ self.new.version }
        ensures count { (most : ℕ) → AllHold most self.old.sessions.sessions.items
            → OnOk result (AllHold (most + length segment.now.bytes) self.new.sessions.sessions.items) }
    {
        let changes = self.hear(segment, replies)?;
        apply_all(&mut self.routes, changes.as_slice())
    }

    /// Takes segments in turn.
    pub(crate) fn take(
        &mut self,
        segments: &[Segment],
        replies: &mut Bytes,
    ) -> Result<(), OutOfMemory>
        requires ready { Ready self.old segments.now }
        requires some { FollowsSome self.old }
        ensures history { (history : Sequence Given) (log : Sequence Entry) → Follows self.old history log
            → OnOk result (Took self.new history log segments.now replies.old replies.new) }
        ensures sides { map (λ s. s.side) self.new.sessions.sessions.items ≡ map (λ s. s.side) self.old.sessions.sessions.items }
        ensures rises { self.old.version ≤ self.new.version }
        ensures count { (most : ℕ) → AllHold most self.old.sessions.sessions.items
            → OnOk result (AllHold (most + bytes_in segments.now) self.new.sessions.sessions.items) }
    {
        match segments.split_first() {
            None => Ok(()),
            Some((segment, rest)) => {
                self.step(segment, replies)?;
                self.take(rest, replies)
            }
        }
    }

    /// Takes one segment, as `step` does, and makes a version for each change of routes that it gives.
    fn step_each(
        &mut self,
        roster: &Roster,
        segment: &Segment,
        replies: &mut Bytes,
        opening: &Table,
        versions: &mut Versions,
    ) -> Result<(), OutOfMemory>
        requires ready { Ready self.old (segment.now ∷ []) }
        requires some { FollowsSome self.old }
        ensures took { (history : Sequence Given) (log : Sequence Entry) → Follows self.old history log
            → OnOk result (Took self.new history log (segment.now ∷ []) replies.old replies.new) }
        ensures history { (history : Sequence Given) (log : Sequence Entry) → Follows self.old history log
            → TableAfter roster.now (changes_of log) (latest opening.now versions.old.last)
            → OnOk result (TookEach roster.now opening.now self.new history log (segment.now ∷ []) replies.old replies.new versions.old versions.new) }
        ensures sides { map (λ s. s.side) self.new.sessions.sessions.items ≡ map (λ s. s.side) self.old.sessions.sessions.items }
        ensures count { (most : ℕ) → AllHold most self.old.sessions.sessions.items
            → OnOk result (AllHold (most + length segment.now.bytes) self.new.sessions.sessions.items) }
    {
        let changes = self.hear(segment, replies)?;
        versions.add_all(opening, roster, &mut self.routes, changes.as_slice())
    }

    /// Takes segments in turn, as `take` does, and makes a version for each change of routes that they give.
    pub(crate) fn take_each(
        &mut self,
        roster: &Roster,
        segments: &[Segment],
        replies: &mut Bytes,
        opening: &Table,
        versions: &mut Versions,
    ) -> Result<(), OutOfMemory>
        requires ready { Ready self.old segments.now }
        requires some { FollowsSome self.old }
        ensures history { (history : Sequence Given) (log : Sequence Entry) → Follows self.old history log
            → TableAfter roster.now (changes_of log) (latest opening.now versions.old.last)
            → OnOk result (TookEach roster.now opening.now self.new history log segments.now replies.old replies.new versions.old versions.new) }
        ensures sides { map (λ s. s.side) self.new.sessions.sessions.items ≡ map (λ s. s.side) self.old.sessions.sessions.items }
        ensures count { (most : ℕ) → AllHold most self.old.sessions.sessions.items
            → OnOk result (AllHold (most + bytes_in segments.now) self.new.sessions.sessions.items) }
    {
        match segments.split_first() {
            None => Ok(()),
            Some((segment, rest)) => {
                self.step_each(roster, segment, replies, opening, versions)?;
                self.take_each(roster, rest, replies, opening, versions)
            }
        }
    }
}
