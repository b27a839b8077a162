ghost use Rattle.std.specs.Prelude.{◌≡◌, ◌≢◌, ◌≤◌, ◌<◌, ◌+◌, length, take, MatchBool, MatchOption};
ghost use Rattle.pcap_io.specs.Heads.{word, version_of};
ghost use Rattle.pcap_io.specs.Refusals.{HasMagic, SaysCaptured, SaysOriginal};
ghost use Rattle.pcap_io.specs.declared.forms.Form.{Form};
ghost use Rattle.pcap_io.specs.Steps.{HeadGives, PacketGives};
ghost use Rattle.pcap_io.specs.Fronts.{packet_head_is, HeadFits};

use crate::forms::{Form, word_at};
use crate::frames::{MAX_CAPTURED, MAX_ORIGINAL, PacketHead};
use crate::heads::{ETHERNET, magic_of};
use crate::reasons::CaptureReason;

/// The four forms.
const LITTLE: Form = Form {
    nano: false,
    big: false,
};

const BIG: Form = Form {
    nano: false,
    big: true,
};

const LITTLE_NANO: Form = Form {
    nano: true,
    big: false,
};

const BIG_NANO: Form = Form {
    nano: true,
    big: true,
};

/// What the bytes at hand show of the file header.
#[derive(Clone, Copy)]
pub(crate) enum HeadStep {
    /// Bytes of it are still to come.
    Wait,
    Refused(u64, CaptureReason),
    Whole(Form),
}

/// What the bytes at hand show of the next packet.
#[derive(Clone, Copy)]
pub(crate) enum PacketStep {
    /// Bytes of it are still to come.
    Wait,
    Refused(u64, CaptureReason),
    /// A packet with this head, all of it.
    Whole(PacketHead),
}

/// Whether the first 4 bytes are this number in the file's order.
fn has_word(form: Form, bytes: &[u8], number: u32) -> bool
    requires { 4 ≤ length bytes.now }
    ensures { MatchBool result (take 4 bytes.now ≡ word form number) (take 4 bytes.now ≢ word form number) }
{
    if word_at(form, bytes) == number {
        return true;
    }
    false
}

/// Whether the first 4 bytes are the form's magic.
fn has_magic(form: Form, bytes: &[u8]) -> bool
    requires { 4 ≤ length bytes.now }
    ensures { MatchBool result (HasMagic form bytes.now) (¬ HasMagic form bytes.now) }
{
    has_word(form, bytes, magic_of(form))
}

/// The form whose magic stands at the front.
fn form_at(bytes: &[u8]) -> Option<Form>
    requires { 4 ≤ length bytes.now }
    ensures { MatchOption result ((form : Form) → ¬ HasMagic form bytes.now) (λ form. HasMagic form bytes.now) }
{
    if has_magic(LITTLE, bytes) {
        return Some(LITTLE);
    }
    if has_magic(BIG, bytes) {
        return Some(BIG);
    }
    if has_magic(LITTLE_NANO, bytes) {
        return Some(LITTLE_NANO);
    }
    if has_magic(BIG_NANO, bytes) {
        return Some(BIG_NANO);
    }
    None
}

/// Version 2.4 as one number of 4 bytes.
fn version_number(form: Form) -> u32
    ensures { word form result ≡ version_of form }
{
    if form.big {
        return 0x0002_0004;
    }
    0x0004_0002
}

/// Reads the file header field by field.
pub(crate) fn head_step(bytes: &[u8]) -> HeadStep
    ensures { HeadGives bytes.now result }
{
    if bytes.len() < 4 {
        return HeadStep::Wait;
    }
    let Some(form) = form_at(bytes) else {
        return HeadStep::Refused(0, CaptureReason::Magic);
    };
    if bytes.len() < 8 {
        return HeadStep::Wait;
    }
    if !has_word(form, &bytes[4..], version_number(form)) {
        return HeadStep::Refused(4, CaptureReason::Version);
    }
    if bytes.len() < 24 {
        return HeadStep::Wait;
    }
    if !has_word(form, &bytes[20..], ETHERNET) {
        return HeadStep::Refused(20, CaptureReason::Link);
    }
    HeadStep::Whole(form)
}

/// The four numbers in the first 16 bytes.
fn head_at(form: Form, bytes: &[u8]) -> PacketHead
    requires { 16 ≤ length bytes.now }
    ensures head { packet_head_is form result (take 16 bytes.now) }
    ensures fits { HeadFits result.seconds result.fraction result.captured result.original }
    ensures captured { SaysCaptured form bytes.now result.captured }
    ensures original { SaysOriginal form bytes.now result.original }
{
    PacketHead {
        seconds: word_at(form, bytes),
        fraction: word_at(form, &bytes[4..]),
        captured: word_at(form, &bytes[8..]),
        original: word_at(form, &bytes[12..]),
    }
}

/// Reads a packet field by field.
pub(crate) fn packet_step(form: Form, bytes: &[u8]) -> PacketStep
    ensures { PacketGives form bytes.now result }
{
    if bytes.len() < 16 {
        return short_step(form, bytes);
    }
    let head = head_at(form, bytes);
    if head.captured > MAX_CAPTURED {
        return PacketStep::Refused(8, CaptureReason::Length);
    }
    if head.original < head.captured {
        return PacketStep::Refused(12, CaptureReason::Original);
    }
    if head.original > MAX_ORIGINAL {
        return PacketStep::Refused(12, CaptureReason::Original);
    }
    if bytes.len() - 16 < head.captured as usize {
        return PacketStep::Wait;
    }
    PacketStep::Whole(head)
}

/// What fewer than 16 bytes show of a packet.
fn short_step(form: Form, bytes: &[u8]) -> PacketStep
    requires { length bytes.now < 16 }
    ensures { PacketGives form bytes.now result }
{
    if bytes.len() < 12 {
        return PacketStep::Wait;
    }
    if word_at(form, &bytes[8..]) > MAX_CAPTURED {
        return PacketStep::Refused(8, CaptureReason::Length);
    }
    PacketStep::Wait
}
