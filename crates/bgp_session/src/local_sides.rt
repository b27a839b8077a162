/// What the local side says of itself in an OPEN message (RFC 4271, section 4.2).
#[derive(Clone, Copy, Debug, PartialEq, Eq)]
pub struct Local {
    /// The number of the autonomous system, at least 1 (RFC 6793).
    pub asn: u32,
    /// The BGP identifier, at least 1.
    pub id: u32,
    /// The hold time in seconds, 0 for none or at least 3.
    pub hold: u16,
}

impl Local {
    ghost use Rattle.std.specs.Prelude.{◌≡◌, MatchOption};
    ghost use Rattle.bgp_session.specs.LocalSide.{IsLocal, local_side};

    /// The local side with these numbers; None exactly where one of them is out of its range.
    pub fn of(asn: u32, id: u32, hold: u16) -> Option<Local>
        ensures { MatchOption result (¬ (IsLocal (local_side asn id hold))) (λ l. (l ≡ local_side asn id hold) × IsLocal l) }
    {
        if asn == 0 {
            return None;
        }
        if id == 0 {
            return None;
        }
        match hold {
            1 | 2 => None,
            _ => Some(Local { asn, id, hold }),
        }
    }
}
