//! What the first bytes of a block show.

ghost use Rattle.std.specs.Prelude.{◌≡◌, ◌≤◌, length, true};
ghost use Rattle.pcapng_io.specs.declared.kinds.BlockKind.{BlockKind as Kind};
ghost use Rattle.pcapng_io.specs.Sections.{is_header as header_is, has_mark as mark_is};
ghost use Rattle.pcapng_io.specs.Refusals.{header_opening, length_refusal as length_told};
ghost use Rattle.pcapng_io.specs.Steps.{OpeningGives, OpensIn};

use crate::faults::NgReason;
use crate::kinds::{BlockKind, is_length, kind_of};
use crate::numbers::word_at;
use crate::sections::Section;

/// The type of a section header, the same in both orders.
const HEADER: u32 = 0x0A0D_0D0A;

/// The mark of a section header.
const MARK: u32 = 0x1A2B_3C4D;

/// What the bytes at hand show of a block's type, mark and first length.
#[derive(Clone, Copy)]
pub(crate) enum Opening {
    /// Bytes of them are still to come.
    Wait,
    /// What is refused: how far from the block's first byte, and why.
    Refused(usize, NgReason),
    /// What the block is, the order of its numbers, and its length.
    Block(BlockKind, bool, usize),
}

/// Whether a section header begins.
fn is_header(bytes: &[u8]) -> bool
    requires { 4 ≤ length bytes.now }
    ensures { result ≡ header_is bytes.now }
{
    word_at(true, 0, bytes) == HEADER
}

/// Whether the mark of a section header stands there in this order.
fn has_mark(big: bool, bytes: &[u8]) -> bool
    requires { 12 ≤ length bytes.now }
    ensures { result ≡ mark_is big bytes.now }
{
    word_at(big, 8, bytes) == MARK
}

/// Judges the first length.
fn length_opening(kind: BlockKind, big: bool, bytes: &[u8]) -> Opening
    requires { 8 ≤ length bytes.now }
    ensures { OpensIn kind big bytes.now (length_told kind big bytes.now) result }
{
    let size = word_at(big, 4, bytes);
    if !is_length(kind, size) {
        return Opening::Refused(4, NgReason::Block);
    }
    if bytes.len() < 12 {
        return Opening::Wait;
    }
    Opening::Block(kind, big, size as usize)
}

/// Judges the mark, and then the first length.
fn header_step(bytes: &[u8]) -> Opening
    requires { 12 ≤ length bytes.now }
    ensures { OpensIn Kind.Header (mark_is true bytes.now) bytes.now (header_opening bytes.now) result }
{
    if has_mark(true, bytes) {
        return length_opening(BlockKind::Header, true, bytes);
    }
    if has_mark(false, bytes) {
        return length_opening(BlockKind::Header, false, bytes);
    }
    Opening::Refused(8, NgReason::Magic)
}

/// Judges the first bytes of a block: 12 of them, or as many as there are.
pub(crate) fn opening_step(section: &Section, bytes: &[u8]) -> Opening
    requires { length bytes.now ≤ 12 }
    ensures { OpeningGives section.now bytes.now result }
{
    if bytes.len() < 4 {
        return Opening::Wait;
    }
    if is_header(bytes) {
        if bytes.len() < 12 {
            return Opening::Wait;
        }
        return header_step(bytes);
    }
    if !section.begun {
        return Opening::Refused(0, NgReason::Magic);
    }
    if bytes.len() < 8 {
        return Opening::Wait;
    }
    let kind = kind_of(word_at(section.big, 0, bytes));
    length_opening(kind, section.big, bytes)
}
