//! The setup of generated inputs.

ghost use Rattle.std.specs.Prelude.{◌≡◌, IfOk};
ghost use Rattle.sfc_config.specs.Texts.{IsSetup};
ghost use Rattle.generated_inputs.specs.Setups.{setup_text};

use sfc_config::{Setup, SetupFault, parse_setup};
use std::alloc::Global;
use wire_base::OutOfMemory;

/// The text of the setup.
const SETUP: &[u8] = b"local 65000 192.0.2.1 90
peer 1 65001
forwarder f0 10.0.0.1
forwarder f1 10.0.0.2
ingress f0
instance fw 0000fde800000001 41 aware firewall tcp 23 23
instance nat 0000fde800000002 42 proxy nat source 10.1.0.5 192.0.2.9
instance vlan 0000fde800000003 43 proxy push-vlan 7
rule * * * * * path 42 255 63 md2
";

/// The setup of generated inputs.
pub(crate) fn generated_setup(alloc: Global) -> Result<Setup, OutOfMemory>
    ensures { IfOk result (IsSetup setup_text) }
{
    match parse_setup(alloc, SETUP) {
        Ok(setup) => Ok(setup),
        Err(SetupFault::OutOfMemory) => Err(OutOfMemory),
        Err(SetupFault::Line(_, _)) => unreachable!(),
    }
}
