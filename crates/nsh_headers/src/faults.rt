//! Why bytes are no header.

/// The first refusal of a header, from the left. Places count bytes from the header's first.
#[derive(Clone, Copy, Debug, PartialEq, Eq)]
pub enum NshFault {
    /// The input ends too early. The number is that of the bytes given.
    Short(u64),
    /// The version, which is not 0.
    Version(u8),
    /// The MD Type, which is neither 1 nor 2.
    MdType(u8),
    /// The Length in words, which is not 6 for MD Type 1, or below 2 for MD Type 2.
    Length(u8),
    /// The first byte of a context item that passes the header's end.
    Context(u64),
}
