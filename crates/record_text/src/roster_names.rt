//! Instances and forwarders by their names.

ghost use Rattle.std.specs.Prelude.{◌≡◌, ◌++◌, ◌∷◌, OnOk, OnErr};
ghost use Rattle.text_words.specs.Reading.{Reads};
ghost use Rattle.text_words.specs.Printing.{AppendsFront};
ghost use Rattle.sfc_routes.specs.Entries.{IsRoster};
ghost use Rattle.record_text.specs.Names.{IsInstance, instance_text, IsForwarder, forwarder_text};

use crate::printing::say;
use sfc_routes::Roster;
use text_words::Name;
use wire_base::{Bytes, ForwarderId, InstanceId, OutOfMemory};

/// A roster keeps the form of its names, which is all that this says.
pub(crate) fn roster_is_kept(roster: &Roster)
    ensures { IsRoster roster.now }
{
    let _ = roster.instances();
}

/// Reads the name of an instance of the roster.
pub(crate) fn read_instance(word: &[u8], roster: &Roster) -> Option<InstanceId>
    ensures { Reads (IsInstance roster.now) (instance_text roster.now) word.now result }
{
    roster_is_kept(roster);
    let Some(name) = Name::of(word) else {
        return None;
    };
    roster.instance_named(name.as_str())
}

/// Appends the name of an instance.
pub(crate) fn say_instance(
    out: &mut Bytes,
    id: InstanceId,
    roster: &Roster,
) -> Result<(), OutOfMemory>
    requires { IsInstance roster.now id }
    ensures ok { OnOk result (out.new ≡ out.old ++ instance_text roster.now id) }
    ensures err { OnErr result (AppendsFront out.old (instance_text roster.now id) out.new) }
{
    say(out, roster.instance_name(id).as_bytes())
}

/// Appends the name of a forwarder.
pub(crate) fn say_forwarder(
    out: &mut Bytes,
    id: ForwarderId,
    roster: &Roster,
) -> Result<(), OutOfMemory>
    requires { IsForwarder roster.now id }
    ensures ok { OnOk result (out.new ≡ out.old ++ forwarder_text roster.now id) }
    ensures err { OnErr result (AppendsFront out.old (forwarder_text roster.now id) out.new) }
{
    say(out, roster.forwarder_name(id).as_bytes())
}
