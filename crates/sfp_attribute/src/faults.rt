use wire_base::OutOfMemory;

/// Why no SFP attribute was read. Places are counted from the value's first byte.
#[derive(Clone, Copy, Debug, PartialEq, Eq)]
pub enum SfpFault {
    /// Fewer than 3 bytes remain where a part begins, at this place.
    Short(u64),
    /// A kind that may not stand here.
    Kind(u8),
    /// An MPLS form, of this kind.
    Mpls(u8),
    /// The part at this place has a length that does not fit.
    Length(u64),
    /// The service index of a hop is 0, or not below that of the hop before.
    Order(u8),
    /// A service function type below 32.
    SfType(u16),
    /// There is no hop.
    NoHop,
    OutOfMemory,
}

impl From<OutOfMemory> for SfpFault {
    ghost use Rattle.std.specs.Prelude.{◌≡◌};
    ghost use Rattle.sfp_attribute.specs.declared.faults.SfpFault.TheVariants.{OutOfMemory as NoMemory};

    ghost from_gives = { λ _ e. e ≡ NoMemory };

    fn from(_fault: OutOfMemory) -> SfpFault {
        SfpFault::OutOfMemory
    }
}
