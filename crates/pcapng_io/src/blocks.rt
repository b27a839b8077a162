//! The blocks of a section: what is refused of each, and what it says.

ghost use Rattle.std.specs.Prelude.{◌≡◌, ◌≤◌, ◌+◌, ◌-◌, ◌==◌, ◌*◌, ◌^◌, length, take, true, false, min, if◌then◌else◌, None, IfSome, IfNone};
ghost use Rattle.pcapng_io.specs.declared.kinds.BlockKind.{BlockKind};
ghost use Rattle.pcapng_io.specs.Numbers.{word_at as word_in};
ghost use Rattle.pcapng_io.specs.Kinds.{is_length};
ghost use Rattle.pcapng_io.specs.Times.{is_resolution as resolution_is};
ghost use Rattle.pcapng_io.specs.Refusals.{resolution_field};
ghost use Rattle.pcapng_io.specs.Sections.{described as described_by, ticks_at as ticks_in, resolution_told, offset_told};
ghost use Rattle.pcapng_io.specs.Options.{first_option as first_in};
ghost use Rattle.pcapng_io.specs.Steps.{AreRead, IsRead, IsReadStep, JudgedAs, StepGives};

use crate::faults::NgReason;
use crate::frames::NgHead;
use crate::interface_options::{OptionAt, Wanted, first_option};
use crate::kinds::BlockKind;
use crate::numbers::{half_at, long_at, word_at};
use crate::openings::{Opening, opening_step};
use crate::sections::{Interface, MAX_INTERFACES, Section};
use crate::times::{is_resolution, nanos_in, per_second, seconds_of};
use pcap_io::{MAX_CAPTURED, MAX_ORIGINAL};

/// The major version of a section.
const MAJOR: u16 = 1;

/// The link type of an Ethernet.
const ETHERNET: u16 = 1;

/// The resolution of an interface that tells none: microseconds.
const MICROSECONDS: u8 = 6;

/// What a whole block says that is not refused.
#[derive(Clone, Copy)]
pub(crate) enum Block {
    /// Nothing.
    Skipped,
    /// A section begins, and its numbers have their highest byte first, or not.
    Header(bool),
    /// The next interface of the section.
    Described(Interface),
    Frame(NgHead),
}

/// What was judged of a whole block.
#[derive(Clone, Copy)]
pub(crate) enum Judged {
    /// What is refused: how far from the block's first byte, and why.
    Refused(usize, NgReason),
    Good(Block),
}

/// What the bytes at hand show of a block.
#[derive(Clone, Copy)]
pub(crate) enum BlockStep {
    /// Bytes of it are still to come.
    Wait,
    /// What is refused: how far from the block's first byte, and why.
    Refused(usize, NgReason),
    /// A block of so many bytes, all of it.
    Whole(usize, Block),
}

/// Whether the second length is the first.
fn has_second_length(big: bool, block: &[u8]) -> bool
    requires { 4 ≤ length block.now }
    ensures { result ≡ (word_in big (length block.now - 4) block.now == length block.now) }
{
    word_at(big, block.len() - 4, block) as usize == block.len()
}

/// A section header.
fn judge_header(section: &Section, big: bool, block: &[u8]) -> Judged
    requires { 28 ≤ length block.now }
    ensures { JudgedAs BlockKind.Header section.now big block.now result }
{
    if !has_second_length(big, block) {
        return Judged::Refused(block.len() - 4, NgReason::Block);
    }
    if half_at(big, 12, block) != MAJOR {
        return Judged::Refused(12, NgReason::Version);
    }
    Judged::Good(Block::Header(big))
}

/// The resolution that the option tells, or that of microseconds.
fn resolution_in(block: &[u8], option: Option<OptionAt>) -> u8
    requires { IfSome option (λ o. o.at + 5 ≤ length block.now) }
    ensures { result ≡ resolution_told block.now option }
{
    match option {
        None => MICROSECONDS,
        Some(option) => block[option.at + 4],
    }
}

/// Where the option stands that tells a resolution that is not read.
fn refused_resolution(block: &[u8], option: Option<OptionAt>) -> Option<usize>
    requires { IfSome option (λ o. o.at + 5 ≤ length block.now) }
    ensures good { IfNone result ((resolution_field block.now option).good ≡ true) }
    ensures read { IfNone result (resolution_is (resolution_told block.now option) ≡ true) }
    ensures bad { IfSome result (λ at. ((resolution_field block.now option).good ≡ false) × ((resolution_field block.now option).at ≡ at) × (at ≤ length block.now)) }
{
    match option {
        None => None,
        Some(option) => {
            if is_resolution(block[option.at + 4]) {
                return None;
            }
            Some(option.at)
        }
    }
}

/// The offset that the option tells, or none.
fn offset_in(big: bool, block: &[u8], option: Option<OptionAt>) -> u64
    requires { IfSome option (λ o. o.at + 12 ≤ length block.now) }
    ensures { result ≡ offset_told big block.now option }
{
    match option {
        None => 0,
        Some(option) => long_at(big, option.at + 4, block),
    }
}

/// An interface description whose options are judged: where its resolution stands, and its offset.
#[tactic(auto, unfolding(crate::specs::Sections::described))]
fn described(big: bool, block: &[u8]) -> Interface
    requires some { 20 ≤ length block.now }
    requires most { length block.now ≤ 1048576 }
    requires good { first_in Wanted.Refused big block.now ≡ None }
    ensures value { result ≡ described_by big block.now }
    ensures resolution { result.resolution ≡ resolution_told block.now (first_in (Wanted.Code 9) big block.now) }
{
    let resolution = first_option(Wanted::Code(9), big, block);
    let offset = first_option(Wanted::Code(14), big, block);
    Interface {
        ethernet: half_at(big, 8, block) == ETHERNET,
        snapshot: word_at(big, 12, block),
        resolution: resolution_in(block, resolution),
        offset: offset_in(big, block, offset),
    }
}

/// An interface description.
fn judge_description(section: &Section, big: bool, block: &[u8]) -> Judged
    requires some { 20 ≤ length block.now }
    requires most { length block.now ≤ 1048576 }
    ensures judged { JudgedAs BlockKind.Description section.now big block.now result }
    ensures read { IsRead result }
{
    if !has_second_length(big, block) {
        return Judged::Refused(block.len() - 4, NgReason::Block);
    }
    if let Some(option) = first_option(Wanted::Refused, big, block) {
        return Judged::Refused(option.at, NgReason::Option);
    }
    let resolution = first_option(Wanted::Code(9), big, block);
    if let Some(at) = refused_resolution(block, resolution) {
        return Judged::Refused(at, NgReason::Resolution);
    }
    if section.interfaces.as_slice().len() >= MAX_INTERFACES {
        return Judged::Refused(0, NgReason::Interface);
    }
    Judged::Good(Block::Described(described(big, block)))
}

/// An enhanced packet.
fn judge_enhanced(section: &Section, big: bool, block: &[u8]) -> Judged
    requires some { 32 ≤ length block.now }
    requires read { AreRead section.now.interfaces }
    ensures { JudgedAs BlockKind.Enhanced section.now big block.now result }
{
    if !has_second_length(big, block) {
        return Judged::Refused(block.len() - 4, NgReason::Block);
    }
    let number = word_at(big, 8, block);
    let interfaces = section.interfaces.as_slice();
    if number as usize >= interfaces.len() {
        return Judged::Refused(8, NgReason::Interface);
    }
    let captured = word_at(big, 20, block);
    if captured > MAX_CAPTURED || captured as usize + 32 > block.len() {
        return Judged::Refused(20, NgReason::Length);
    }
    let original = word_at(big, 24, block);
    if original < captured || original > MAX_ORIGINAL {
        return Judged::Refused(24, NgReason::Original);
    }
    let interface = interfaces[number as usize];
    let ticks = ticks_at(big, block);
    let Some(seconds) = seconds_of(interface.offset, ticks / per_second(interface.resolution))
    else {
        return Judged::Refused(12, NgReason::Time);
    };
    Judged::Good(Block::Frame(NgHead {
        seconds,
        nanos: nanos_in(interface.resolution, ticks),
        original,
        interface: number,
        ethernet: interface.ethernet,
        from: 28,
        captured,
    }))
}

/// The ticks of an enhanced packet.
fn ticks_at(big: bool, block: &[u8]) -> u64
    requires { 20 ≤ length block.now }
    ensures { result ≡ ticks_in big block.now }
{
    u64::from(word_at(big, 12, block)) * 4_294_967_296 + u64::from(word_at(big, 16, block))
}

/// The captured length of a simple packet.
fn simple_captured(interface: Interface, original: u32) -> u32
    ensures { result ≡ (if interface.snapshot == 0 then original else min original interface.snapshot) }
{
    if interface.snapshot == 0 {
        return original;
    }
    original.min(interface.snapshot)
}

/// A simple packet.
fn judge_simple(section: &Section, big: bool, block: &[u8]) -> Judged
    requires some { 16 ≤ length block.now }
    ensures { JudgedAs BlockKind.Simple section.now big block.now result }
{
    if !has_second_length(big, block) {
        return Judged::Refused(block.len() - 4, NgReason::Block);
    }
    let interfaces = section.interfaces.as_slice();
    if interfaces.is_empty() {
        return Judged::Refused(0, NgReason::Interface);
    }
    let original = word_at(big, 8, block);
    let captured = simple_captured(interfaces[0], original);
    if captured > MAX_CAPTURED || captured as usize + 16 > block.len() {
        return Judged::Refused(8, NgReason::Length);
    }
    if original > MAX_ORIGINAL {
        return Judged::Refused(8, NgReason::Original);
    }
    Judged::Good(Block::Frame(NgHead {
        seconds: 0,
        nanos: 0,
        original,
        interface: 0,
        ethernet: interfaces[0].ethernet,
        from: 12,
        captured,
    }))
}

/// A block that is skipped.
fn judge_other(section: &Section, big: bool, block: &[u8]) -> Judged
    requires { 12 ≤ length block.now }
    ensures { JudgedAs BlockKind.Other section.now big block.now result }
{
    if !has_second_length(big, block) {
        return Judged::Refused(block.len() - 4, NgReason::Block);
    }
    Judged::Good(Block::Skipped)
}

/// Judges a whole block of this kind, whose numbers have this order.
fn judge(section: &Section, kind: BlockKind, big: bool, block: &[u8]) -> Judged
    requires long { is_length kind (length block.now) ≡ true }
    requires read { AreRead section.now.interfaces }
    ensures judged { JudgedAs kind section.now big block.now result }
    ensures read { IsRead result }
{
    match kind {
        BlockKind::Header => judge_header(section, big, block),
        BlockKind::Description => judge_description(section, big, block),
        BlockKind::Enhanced => judge_enhanced(section, big, block),
        BlockKind::Simple => judge_simple(section, big, block),
        BlockKind::Other => judge_other(section, big, block),
    }
}

/// The first 12 bytes, or as many as there are.
fn front_of(bytes: &[u8]) -> &[u8]
    ensures { result.now ≡ take 12 bytes.now }
{
    if bytes.len() < 12 {
        return bytes;
    }
    &bytes[..12]
}

/// What the bytes at hand show of a block.
pub(crate) fn block_step(section: &Section, bytes: &[u8]) -> BlockStep
    requires { AreRead section.now.interfaces }
    ensures gives { StepGives section.now bytes.now result }
    ensures read { IsReadStep result }
{
    let (kind, big, size) = match opening_step(section, front_of(bytes)) {
        Opening::Wait => return BlockStep::Wait,
        Opening::Refused(at, reason) => return BlockStep::Refused(at, reason),
        Opening::Block(kind, big, size) => (kind, big, size),
    };
    if bytes.len() < size {
        return BlockStep::Wait;
    }
    match judge(section, kind, big, &bytes[..size]) {
        Judged::Refused(at, reason) => BlockStep::Refused(at, reason),
        Judged::Good(said) => BlockStep::Whole(size, said),
    }
}
