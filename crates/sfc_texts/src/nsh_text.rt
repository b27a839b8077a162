//! The lines that show a Network Service Header.

ghost use Rattle.std.specs.Prelude.{◌≡◌, ◌≤◌, ◌<◌, ◌+◌, ◌^◌, ◌++◌, ℕ, List, length, codes, OnOk, IfOk};
ghost use Rattle.std.specs.List.{flat_map};
ghost use Rattle.nsh_metadata.specs.Item.{IsItem};
ghost use Rattle.nsh_metadata.specs.Shown.{shown};
ghost use Rattle.text_words.specs.Hexadecimal.{hexadecimal};
ghost use Rattle.sfc_texts.specs.NshText.{field, line_end, protocol_text, base_text, path_text, spare_text, octets_field, class_text, kind_text, item_line, context_lines, payload_line, head_line, header_lines, fault_text, refusal_line, ShowsNsh};

use nsh_headers::{Base, NshFault, NshHead, ServicePath};
use nsh_metadata::{Context, ItemList, ItemRef, Nsh, decode_nsh};
use std::alloc::Global;
use text_words::{print_four_digits, print_number, print_octets, print_octets_or_dash};
use wire_base::{Bytes, OutOfMemory, next_protocols};

/// Appends a label and a number.
pub(crate) fn print_field(out: &mut Bytes, label: &[u8], number: u64) -> Result<(), OutOfMemory>
    ensures { OnOk result (out.new ≡ out.old ++ field label.now number) }
{
    out.push_all(label)?;
    print_number(out, number)
}

/// Appends the name of a Next Protocol, or its number where it has no name.
fn print_protocol(out: &mut Bytes, next: u8) -> Result<(), OutOfMemory>
    ensures { OnOk result (out.new ≡ out.old ++ protocol_text next) }
{
    match next_protocols().name_of(u16::from(next)) {
        Some(name) => out.push_all(name.as_bytes()),
        None => print_number(out, u64::from(next)),
    }
}

/// Appends the fields of the base header.
fn print_base(out: &mut Bytes, base: Base) -> Result<(), OutOfMemory>
    ensures { OnOk result (out.new ≡ out.old ++ base_text base) }
{
    print_field(out, b"nsh o=", u64::from(base.oam))?;
    print_field(out, b" ttl=", u64::from(base.ttl))?;
    print_field(out, b" words=", u64::from(base.words))?;
    print_field(out, b" md=", u64::from(base.md))?;
    out.push_all(b" next=")?;
    print_protocol(out, base.next)
}

/// Appends the fields of the service path header.
fn print_path(out: &mut Bytes, path: ServicePath) -> Result<(), OutOfMemory>
    ensures { OnOk result (out.new ≡ out.old ++ path_text path) }
{
    print_field(out, b" spi=", u64::from(path.spi.number()))?;
    print_field(out, b" si=", u64::from(path.si))
}

/// Appends the unassigned bits of the base header.
fn print_spare(out: &mut Bytes, base: Base) -> Result<(), OutOfMemory>
    ensures { OnOk result (out.new ≡ out.old ++ spare_text base) }
{
    print_field(out, b" spare=", u64::from(base.spare1))?;
    print_field(out, b"/", u64::from(base.spare4))
}

/// Appends a label and bytes, however many, or a dash for none.
pub(crate) fn print_octets_field(
    out: &mut Bytes,
    label: &[u8],
    octets: &[u8],
) -> Result<(), OutOfMemory>
    ensures { OnOk result (out.new ≡ out.old ++ octets_field label.now octets.now) }
{
    out.push_all(label)?;
    print_octets_or_dash(out, octets)
}

/// Appends the class of an item.
fn print_class(out: &mut Bytes, class: u16) -> Result<(), OutOfMemory>
    ensures { OnOk result (out.new ≡ out.old ++ class_text class) }
{
    out.push_all(b"item class=")?;
    print_four_digits(out, class)
}

/// Appends what an item is.
fn print_kind(out: &mut Bytes, item: ItemRef<'_>) -> Result<(), OutOfMemory>
    ensures { OnOk result (out.new ≡ out.old ++ kind_text (shown item.entry)) }
{
    print_class(out, item.class)?;
    print_field(out, b" kind=", u64::from(item.kind))?;
    print_field(out, b" spare=", u64::from(item.spare))
}

/// Appends the line of an item.
fn print_item(out: &mut Bytes, item: ItemRef<'_>) -> Result<(), OutOfMemory>
    requires { IsItem (shown item) }
    ensures { OnOk result (out.new ≡ out.old ++ item_line (shown item.entry)) }
{
    print_kind(out, item)?;
    print_octets_field(out, b" body=", item.body)?;
    print_octets_field(out, b" pad=", item.pad)?;
    out.push_all(b"\n")
}

/// Appends the lines of items. Each is found from the front; a header has at most 61.
fn print_items(out: &mut Bytes, items: &ItemList) -> Result<(), OutOfMemory>
    ensures { OnOk result (out.new ≡ out.old ++ flat_map item_line items.now) }
{
    'items: for i in 0..items.len() {
        print_item(out, items.item(i))?;
    }
    Ok(())
}

/// Appends the line of 16 bytes of context.
fn print_fixed(out: &mut Bytes, bytes: &[u8]) -> Result<(), OutOfMemory>
    requires { length bytes.now ≤ 128 }
    ensures { OnOk result (out.new ≡ out.old ++ codes "fixed " ++ hexadecimal bytes.now ++ line_end) }
{
    out.push_all(b"fixed ")?;
    print_octets(out, bytes)?;
    out.push_all(b"\n")
}

/// Appends the lines of a context.
fn print_context(out: &mut Bytes, context: &Context) -> Result<(), OutOfMemory>
    ensures { OnOk result (out.new ≡ out.old ++ context_lines context.now) }
{
    match context {
        Context::Fixed16(bytes) => print_fixed(out, bytes.bytes()),
        Context::Items(items) => print_items(out, items),
    }
}

/// Appends the line that tells how many bytes follow the header.
fn print_payload(out: &mut Bytes, count: u64) -> Result<(), OutOfMemory>
    ensures { OnOk result (out.new ≡ out.old ++ payload_line count) }
{
    print_field(out, b"payload ", count)?;
    out.push_all(b"\n")
}

/// Appends the line of a header's first 8 bytes.
fn print_head(out: &mut Bytes, head: NshHead) -> Result<(), OutOfMemory>
    ensures { OnOk result (out.new ≡ out.old ++ head_line head) }
{
    print_base(out, head.base)?;
    print_path(out, head.path)?;
    print_spare(out, head.base)?;
    out.push_all(b"\n")
}

/// The lines of a header with so many bytes behind it.
fn header_text(alloc: Global, nsh: &Nsh, behind: u64) -> Result<Bytes, OutOfMemory>
    ensures { IfOk result (λ text. text ≡ header_lines nsh.now behind) }
{
    let mut out = Bytes::new(alloc);
    print_head(&mut out, nsh.head)?;
    print_context(&mut out, &nsh.context)?;
    print_payload(&mut out, behind)?;
    Ok(out)
}

/// Appends what a refusal says.
fn print_fault(out: &mut Bytes, fault: NshFault) -> Result<(), OutOfMemory>
    ensures { OnOk result (out.new ≡ out.old ++ fault_text fault) }
{
    match fault {
        NshFault::Short(count) => print_field(out, b"short ", count),
        NshFault::Version(version) => print_field(out, b"version ", u64::from(version)),
        NshFault::MdType(md) => print_field(out, b"md-type ", u64::from(md)),
        NshFault::Length(words) => print_field(out, b"length ", u64::from(words)),
        NshFault::Context(place) => print_field(out, b"context ", place),
    }
}

/// The line of a refusal.
fn refusal_text(alloc: Global, fault: NshFault) -> Result<Bytes, OutOfMemory>
    ensures { IfOk result (λ text. text ≡ refusal_line fault) }
{
    let mut out = Bytes::new(alloc);
    out.push_all(b"refused ")?;
    print_fault(&mut out, fault)?;
    out.push_all(b"\n")?;
    Ok(out)
}

/// The text of `nsh_lines` for bytes of which these are the first, and `behind` more follow. Where some follow, at least 252
/// are given, the most that a header has.
pub fn nsh_lines_of_front(alloc: Global, front: &[u8], behind: u64) -> Result<Bytes, OutOfMemory>
    requires enough { length front.now < 252 → behind ≡ 0 }
    requires fits { length front.now + behind < 2 ^ 64 }
    ensures { (rest : List ℕ) → length rest ≡ behind → IfOk result (ShowsNsh (front.now ++ rest)) }
{
    match decode_nsh(front) {
        Ok((nsh, size)) => header_text(alloc, &nsh, (front.len() - size) as u64 + behind),
        Err(fault) => refusal_text(alloc, fault),
    }
}

/// The lines that show the header which the bytes begin with (RFC 8300, section 2) and how many bytes follow
/// it, or the one line of the first refusal from the left.
///
/// ```text
/// nsh o=B ttl=T words=W md=M next=N spi=P si=S spare=A/B
/// fixed HEX                                           of MD Type 1, or
/// item class=HHHH kind=K spare=B body=HEX pad=HEX     for each item of MD Type 2
/// payload N
/// ```
///
/// N of `next` is the name of the Next Protocol, or its number where it has none; `spare=A/B` has the
/// unassigned bit after O and the 4 before the MD Type. HEX has two digits a byte in lower case, and is `-`
/// for no bytes. A refusal is `refused short N`, `refused version N`, `refused md-type N`, `refused length N`
/// or `refused context N`, as `NshFault` has the number.
pub fn nsh_lines(alloc: Global, bytes: &[u8]) -> Result<Bytes, OutOfMemory>
    ensures { IfOk result (ShowsNsh bytes.now) }
{
    nsh_lines_of_front(alloc, bytes, 0)
}
