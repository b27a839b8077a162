use arrayvec::ArrayVec;
use net_frames::Side;
use wire_base::Fixed;

/// What an instance does with a frame and its context.
#[derive(Debug, Drop)]
pub enum Function {
    /// Lets every frame pass.
    Pass,
    /// Drops TCP (6) or UDP (17) to the ports from `low` to `high`.
    Firewall {
        protocol: u8,
        low: u16,
        high: u16,
    },
    /// Sets the DSCP, 0 to 63 (RFC 2474).
    Remark(u8),
    /// Replaces one IPv4 address by another.
    Nat {
        side: Side,
        from: Fixed<4>,
        to: Fixed<4>,
    },
    /// Lowers the TTL or the hop limit.
    HopLimit,
    /// Puts a VLAN tag in front, 0 to 4,095.
    PushVlan(u16),
    /// Takes the first VLAN tag off.
    PopVlan,
    /// Adds a context item with this class, type and body, at most 127 bytes.
    Stamp {
        class: u16,
        kind: u8,
        body: ArrayVec<u8, 127>,
    },
    /// Lets pass what has a context item of this class and type.
    RequireMeta {
        class: u16,
        kind: u8,
    },
    /// Takes all context away.
    ClearMeta,
}

impl Function {
    ghost use Rattle.std.specs.Prelude.{◌≡◌};
    ghost use Rattle.service_functions.specs.Functions.{on_metadata};

    /// Whether the function reads or writes the context, and so must see the header.
    pub fn is_on_metadata(&self) -> bool
        ensures { result ≡ on_metadata self.now }
    {
        matches!(
            self,
            Function::Stamp { .. } | Function::RequireMeta { .. } | Function::ClearMeta
        )
    }
}
