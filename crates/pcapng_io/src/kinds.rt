//! The types of blocks that are read, and the lengths that a block may have.

ghost use Rattle.std.specs.Prelude.{◌≡◌};
ghost use Rattle.pcapng_io.specs.Kinds.{kind_of as kind_in, is_length as length_is, least as least_of};

/// The most bytes of a block.
pub const MAX_BLOCK: u32 = 1_048_576;

/// What a block is, by its type.
#[derive(Clone, Copy, Debug, PartialEq, Eq)]
pub enum BlockKind {
    /// A section header, 0A0D0D0A.
    Header,
    /// An interface description, 1.
    Description,
    /// An enhanced packet, 6.
    Enhanced,
    /// A simple packet, 3.
    Simple,
    /// Every other type. Such a block is skipped.
    Other,
}

/// What a block of this type is.
pub(crate) fn kind_of(number: u32) -> BlockKind
    ensures { result ≡ kind_in number }
{
    match number {
        0x0A0D_0D0A => BlockKind::Header,
        1 => BlockKind::Description,
        6 => BlockKind::Enhanced,
        3 => BlockKind::Simple,
        _ => BlockKind::Other,
    }
}

/// The fewest bytes of such a block.
fn least(kind: BlockKind) -> u32
    ensures { result ≡ least_of kind }
{
    match kind {
        BlockKind::Header => 28,
        BlockKind::Description => 20,
        BlockKind::Enhanced => 32,
        BlockKind::Simple => 16,
        BlockKind::Other => 12,
    }
}

/// Whether such a block may have so many bytes.
pub(crate) fn is_length(kind: BlockKind, size: u32) -> bool
    ensures { result ≡ length_is kind size }
{
    least(kind) <= size && size % 4 == 0 && size <= MAX_BLOCK
}
