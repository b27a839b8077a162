//! The roster of forwarders, instances and targets.

ghost use Rattle.std.specs.Prelude.{◌≡◌, ◌≢◌, ◌<◌, [], ◌↔◌, length, All, MatchOption, IsTrue, IfOk, OnOk, OnErr, Some};
ghost use Rattle.std.specs.List.{Contains, HoldsAt};
ghost use Rattle.text_words.specs.Names.{IsName};
ghost use Rattle.sfc_routes.specs.Entries.{IsAt, Serves, IsRoster, Accepts, with_forwarder, with_instance, with_target};

use crate::entries::{ForwarderEntry, InstanceEntry, Rd};
use crate::searches::{
    any_among, is_among, place_of_address, place_of_forwarder, place_of_instance, place_of_service,
};
use std::alloc::Global;
use std::marker::Model;
use text_words::{Name, address_has_bytes, octets_are_bytes};
use wire_base::{Fixed, ForwarderId, InstanceId, List, NextHop, OutOfMemory};

/// The forwarders, instances and targets of a setup, at most 64, 1,024 and 16 of them.
#[derive(Debug, Drop)]
pub struct Roster {
    forwarders: List<ForwarderEntry>,
    instances: List<InstanceEntry>,
    targets: List<Fixed<8>>,
}

impl Model for Roster {
    ghost use Rattle.sfc_routes.specs.Entries.{Entries, IsRoster};

    ghost Value = { Entries };

    ghost view = { λ r. record { forwarders = r.forwarders; instances = r.instances; targets = r.targets } };

    ghost invariant = { λ r. IsRoster (record { forwarders = r.forwarders; instances = r.instances; targets = r.targets }) };
}

impl Roster {
    /// A roster without entries.
    pub fn new(alloc: Global) -> Roster
        ensures { result ≡ record { forwarders = []; instances = []; targets = [] } }
    {
        Roster {
            forwarders: List::new(alloc),
            instances: List::new(alloc),
            targets: List::new(alloc),
        }
    }

    /// Adds a forwarder, whose number is how many there were. After want of memory nothing is changed.
    pub fn add_forwarder(
        &mut self,
        name: &str,
        address: NextHop,
    ) -> Result<ForwarderId, OutOfMemory>
        requires form { IsName name.now }
        requires new_name { All (λ f. f.name ≢ name.now) self.old.forwarders }
        requires new_address { All (λ f. f.address ≢ address) self.old.forwarders }
        requires room { length self.old.forwarders < 64 }
        ensures id { IfOk result (λ id. id.0 ≡ length self.old.forwarders) }
        ensures ok { OnOk result (self.new ≡ with_forwarder self.old name.now address) }
        ensures err { OnErr result (self.new ≡ self.old) }
    {
        address_has_bytes(&address);
        let id = ForwarderId(self.forwarders.as_slice().len() as u8);
        let name = own_name(name);
        self.forwarders.push(ForwarderEntry { name, address })?;
        Ok(id)
    }

    /// Adds an instance, whose number is how many there were. After want of memory nothing is changed.
    pub fn add_instance(&mut self, name: &str, rd: Rd, kind: u16) -> Result<InstanceId, OutOfMemory>
        requires form { IsName name.now }
        requires new_name { All (λ i. i.name ≢ name.now) self.old.instances }
        requires new_service { All (λ i. ¬ (Serves rd kind i)) self.old.instances }
        requires room { length self.old.instances < 1024 }
        ensures id { IfOk result (λ id. id.0 ≡ length self.old.instances) }
        ensures ok { OnOk result (self.new ≡ with_instance self.old name.now rd kind) }
        ensures err { OnErr result (self.new ≡ self.old) }
    {
        octets_are_bytes(&rd);
        let id = InstanceId(self.instances.as_slice().len() as u16);
        let name = own_name(name);
        self.instances.push(InstanceEntry { name, rd, kind })?;
        Ok(id)
    }

    /// Adds a target. After want of memory nothing is changed.
    pub fn add_target(&mut self, target: Fixed<8>) -> Result<(), OutOfMemory>
        requires new_target { All (λ t. t ≢ target) self.old.targets }
        requires room { length self.old.targets < 16 }
        ensures ok { OnOk result (self.new ≡ with_target self.old target) }
        ensures err { OnErr result (self.new ≡ self.old) }
    {
        octets_are_bytes(&target);
        self.targets.push(target)?;
        Ok(())
    }

    /// How many forwarders there are.
    pub fn forwarders(&self) -> usize
        ensures value { result ≡ length self.now.forwarders }
        ensures kept { IsRoster self.now }
    {
        self.forwarders.as_slice().len()
    }

    /// How many instances there are.
    pub fn instances(&self) -> usize
        ensures value { result ≡ length self.now.instances }
        ensures kept { IsRoster self.now }
    {
        self.instances.as_slice().len()
    }

    /// How many targets there are.
    pub fn targets(&self) -> usize
        ensures value { result ≡ length self.now.targets }
        ensures kept { IsRoster self.now }
    {
        self.targets.as_slice().len()
    }

    /// The forwarder with a name.
    pub fn forwarder_named(&self, name: &str) -> Option<ForwarderId>
        ensures { MatchOption result (All (λ f. f.name ≢ name.now) self.now.forwarders) (λ id. IsAt (λ f. f.name ≡ name.now) self.now.forwarders id.0) }
    {
        match place_of_forwarder(self.forwarders.as_slice(), name) {
            Some(place) => Some(ForwarderId(place as u8)),
            None => None,
        }
    }

    /// The forwarder at an address.
    pub fn forwarder_at(&self, address: &NextHop) -> Option<ForwarderId>
        ensures { MatchOption result (All (λ f. f.address ≢ address.now) self.now.forwarders) (λ id. IsAt (λ f. f.address ≡ address.now) self.now.forwarders id.0) }
    {
        match place_of_address(self.forwarders.as_slice(), address) {
            Some(place) => Some(ForwarderId(place as u8)),
            None => None,
        }
    }

    /// The instance with a name.
    pub fn instance_named(&self, name: &str) -> Option<InstanceId>
        ensures { MatchOption result (All (λ i. i.name ≢ name.now) self.now.instances) (λ id. IsAt (λ i. i.name ≡ name.now) self.now.instances id.0) }
    {
        match place_of_instance(self.instances.as_slice(), name) {
            Some(place) => Some(InstanceId(place as u16)),
            None => None,
        }
    }

    /// The instance with an RD and a type.
    pub fn instance_at(&self, rd: &Rd, kind: u16) -> Option<InstanceId>
        ensures { MatchOption result (All (λ i. ¬ (Serves rd.now kind i)) self.now.instances) (λ id. IsAt (Serves rd.now kind) self.now.instances id.0) }
    {
        match place_of_service(self.instances.as_slice(), rd, kind) {
            Some(place) => Some(InstanceId(place as u16)),
            None => None,
        }
    }

    /// Whether a target is among those of the roster.
    pub fn has_target(&self, target: &Fixed<8>) -> bool
        ensures { IsTrue result ↔ Contains self.now.targets target.now }
    {
        is_among(self.targets.as_slice(), target)
    }

    /// Whether a route with these targets is taken: the roster has no target, or one of these is among its own
    /// (RFC 4364, section 4.3.1).
    pub fn accepts(&self, targets: &List<Fixed<8>>) -> bool
        ensures { IsTrue result ↔ Accepts self.now targets.now }
    {
        let own = self.targets.as_slice();
        if own.is_empty() {
            return true;
        }
        any_among(own, targets.as_slice())
    }

    /// The name of a forwarder.
    pub fn forwarder_name(&self, id: ForwarderId) -> &str
        requires { id.0 < length self.now.forwarders }
        ensures { HoldsAt (λ f. result.now ≡ f.name) self.now.forwarders id.0 }
    {
        self.forwarders.as_slice()[usize::from(id.0)].name.as_str()
    }

    /// The address of a forwarder.
    pub fn address_of(&self, id: ForwarderId) -> &NextHop
        requires { id.0 < length self.now.forwarders }
        ensures { HoldsAt (λ f. result.now ≡ f.address) self.now.forwarders id.0 }
    {
        &self.forwarders.as_slice()[usize::from(id.0)].address
    }

    /// The name of an instance.
    pub fn instance_name(&self, id: InstanceId) -> &str
        requires { id.0 < length self.now.instances }
        ensures { HoldsAt (λ i. result.now ≡ i.name) self.now.instances id.0 }
    {
        self.instances.as_slice()[usize::from(id.0)].name.as_str()
    }

    /// The RD of an instance.
    pub fn rd_of(&self, id: InstanceId) -> Rd
        requires { id.0 < length self.now.instances }
        ensures { HoldsAt (λ i. result ≡ i.rd) self.now.instances id.0 }
    {
        self.instances.as_slice()[usize::from(id.0)].rd
    }

    /// The type of an instance.
    pub fn kind_of(&self, id: InstanceId) -> u16
        requires { id.0 < length self.now.instances }
        ensures { HoldsAt (λ i. result ≡ i.kind) self.now.instances id.0 }
    {
        self.instances.as_slice()[usize::from(id.0)].kind
    }

    /// A target by its place.
    pub fn target(&self, i: usize) -> Fixed<8>
        requires { i < length self.now.targets }
        ensures { HoldsAt (λ t. result ≡ t) self.now.targets i }
    {
        self.targets.as_slice()[i]
    }
}

/// A name of one's own, from a text that has its form.
fn own_name(text: &str) -> Name
    requires { IsName text.now }
    ensures { result ≡ text.now }
{
    match Name::of(text.as_bytes()) {
        Some(name) => name,
        None => unreachable!(),
    }
}
