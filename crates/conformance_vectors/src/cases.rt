//! What a table is made of.

use bgp_messages::Refusal;
use nsh_headers::NshFault;
use sfp_attribute::SfpFault;

/// What a decoder answers to an input.
#[derive(Debug, Drop)]
pub enum Expected {
    /// The input begins with a value of the format.
    Accepted,
    /// A Network Service Header with this fault.
    Nsh(NshFault),
    /// A stream of BGP messages that is refused so.
    Bgp(Refusal),
    /// The content of an UPDATE that is refused with this code and subcode, at this place from its first byte.
    Update(u8, u8, u64),
    /// The value of an SFP attribute with this fault.
    Sfp(SfpFault),
}

/// An input and the answer to it.
#[derive(Debug, Drop)]
pub struct Case {
    /// What the input shows.
    pub name: &'static str,
    pub input: &'static [u8],
    pub answer: Expected,
}

/// A table of N cases.
#[derive(Drop)]
pub struct Cases<const N: usize> {
    pub cases: [Case; N],
}

/// A table from rows `NAME: INPUT => ANSWER,`.
macro_rules! table {
    ($($name:literal: $input:expr => $answer:expr,)+) => {
        Cases { cases: [$(Case { name: $name, input: $input, answer: $answer }),+] }
    };
}

pub(crate) use table;
