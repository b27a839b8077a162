//! A list of rules, of which the first that matches decides.

ghost use Rattle.std.specs.Prelude.{◌≡◌, ◌<◌, [], ◌∷◌, ◌++◌, length, All, OnOk, OnErr};
ghost use Rattle.std.specs.List.{HoldsAt};
ghost use Rattle.classifier.specs.Rules.{IsRule, AreRules};
ghost use Rattle.classifier.specs.Verdicts.{Start, Ruled, IsVerdict};

use crate::matching::is_match;
use crate::rules::Rule;
use crate::verdicts::{Verdict, verdict_by};
use net_frames::{Fields, Frame};
use std::alloc::Global;
use std::marker::Model;
use wire_base::{List, OutOfMemory};

/// The Ethernet type of NSH (RFC 8300, section 10.1).
const NSH: u16 = 0x894f;

/// At most 256 rules, the first first.
#[derive(Debug, Drop)]
pub struct RuleList {
    held: List<Rule>,
}

impl Model for RuleList {
    ghost use Rattle.std.specs.Prelude.{List as Sequence};
    ghost use Rattle.classifier.specs.declared.rules.Rule.{Rule as OneRule};
    ghost use Rattle.classifier.specs.Rules.{AreRules};

    ghost Value = { Sequence OneRule };

    ghost view = { λ l. l.held };

    ghost invariant = { λ l. AreRules l.held };
}

impl RuleList {
    /// No rules.
    pub fn new(alloc: Global) -> RuleList
        ensures { result ≡ [] }
    {
        RuleList {
            held: List::new(alloc),
        }
    }

    /// Appends a rule. After want of memory the list is unchanged.
    pub fn push(&mut self, rule: Rule) -> Result<(), OutOfMemory>
        requires form { IsRule rule }
        requires room { length self.old < 256 }
        ensures ok { OnOk result (self.new ≡ self.old ++ rule ∷ []) }
        ensures err { OnErr result (self.new ≡ self.old) }
    {
        self.held.push(rule)?;
        Ok(())
    }

    /// How many rules there are.
    pub fn len(&self) -> usize
        ensures value { result ≡ length self.now }
        ensures kept { AreRules self.now }
    {
        self.held.as_slice().len()
    }

    /// A rule by its place, counted from 0.
    pub fn rule(&self, i: usize) -> &Rule
        requires { i < length self.now }
        ensures { HoldsAt (λ r. result.now ≡ r) self.now i }
    {
        &self.held.as_slice()[i]
    }

    /// The verdict on a frame (RFC 7665, section 4.7): `NshIngress` where the frame bears NSH already, else
    /// what the first rule that matches does, else `Bypass`. It takes no memory.
    pub fn classify(&self, frame: &Frame) -> Verdict
        ensures value { Start self.now frame.now.bytes result }
        ensures ranges { IsVerdict result }
    {
        let fields = frame.fields();
        if fields.ether == Some(NSH) {
            return Verdict::NshIngress;
        }
        rule_on(self.held.as_slice(), &fields)
    }
}

/// What the rules say of a frame with these fields.
fn rule_on(rules: &[Rule], fields: &Fields) -> Verdict
    requires { All IsRule rules.now }
    ensures value { Ruled rules.now fields.now result }
    ensures ranges { IsVerdict result }
{
    for rule in rules {
        if is_match(rule, fields) {
            return verdict_by(&rule.action);
        }
    }
    Verdict::Bypass
}
