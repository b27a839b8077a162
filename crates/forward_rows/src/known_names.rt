//! Whether a record names instances of the setup alone.

ghost use Rattle.std.specs.Prelude.{All, IsTrue};
ghost use Rattle.record_text.specs.Names.{IsInstance};
ghost use Rattle.record_text.specs.Ends.{EndNames, ReasonNames};
ghost use Rattle.record_text.specs.Lines.{Names};

use record_text::{End, Reason, Record};
use sfc_routes::Roster;
use wire_base::InstanceId;

fn is_known(instance: InstanceId, roster: &Roster) -> bool
    ensures { IsTrue result → IsInstance roster.now instance }
{
    usize::from(instance.0) < roster.instances()
}

fn are_known(visits: &[InstanceId], roster: &Roster) -> bool
    ensures { IsTrue result → All (IsInstance roster.now) visits.now }
{
    for instance in visits {
        if !is_known(*instance, roster) {
            return false;
        }
    }
    true
}

fn is_reason_known(reason: Reason, roster: &Roster) -> bool
    ensures { IsTrue result → ReasonNames roster.now reason }
{
    match reason {
        Reason::Denied(instance) => is_known(instance, roster),
        Reason::HopLimit(instance) => is_known(instance, roster),
        Reason::Meta(instance) => is_known(instance, roster),
        Reason::MetaFull(instance) => is_known(instance, roster),
        Reason::TooLong(instance) => is_known(instance, roster),
        Reason::Rule => true,
        Reason::NshIngress => true,
        Reason::Ttl => true,
        Reason::NoPath => true,
        Reason::NoInstance(_) => true,
    }
}

fn is_end_known(end: End, roster: &Roster) -> bool
    ensures { IsTrue result → EndNames roster.now end }
{
    match end {
        End::Egress => true,
        End::Bypass => true,
        End::Drop(reason) => is_reason_known(reason, roster),
    }
}

/// Whether the instances that a record names are those of the roster.
pub(crate) fn names_are_known(record: &Record, roster: &Roster) -> bool
    ensures { IsTrue result → Names roster.now record.now }
{
    are_known(record.visits.as_slice(), roster) && is_end_known(record.end, roster)
}
