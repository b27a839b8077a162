//! The path of an update, from its SFP attribute.

ghost use Rattle.std.specs.Prelude.{IfOk};
ghost use Rattle.sfc_routes.specs.Meanings.{PathIn, PathOf};

use crate::update_parts::first_of;
use bgp_update::{Attribute, Body, Update};
use sfp_attribute::{Sfp, SfpFault, decode_sfp};
use std::alloc::Global;
use wire_base::OutOfMemory;

/// The SFP attribute (RFC 9015, section 3.2).
const SFP: u8 = 37;

/// Flags 0x80 and 0x40, optional and transitive, above the others.
const SHARED: u8 = 3;

/// The path of an SFP attribute; None where it has other flags, or a value that is refused.
fn path_in(alloc: Global, attribute: &Attribute) -> Result<Option<Sfp>, OutOfMemory>
    ensures { IfOk result (λ path. PathIn attribute.now path) }
{
    if attribute.flags >> 6 != SHARED {
        return Ok(None);
    }
    let Body::Raw(value) = &attribute.body else {
        return Ok(None);
    };
    match decode_sfp(alloc, value.as_slice()) {
        Ok(sfp) => Ok(Some(sfp)),
        Err(SfpFault::OutOfMemory) => Err(OutOfMemory),
        Err(_) => Ok(None),
    }
}

/// The path of an update; None where it has no SFP attribute, or the first gives none.
pub(crate) fn path_of(alloc: Global, update: &Update) -> Result<Option<Sfp>, OutOfMemory>
    ensures { IfOk result (λ path. PathOf update.now path) }
{
    match first_of(update, SFP) {
        Some(attribute) => path_in(alloc, attribute),
        None => Ok(None),
    }
}
