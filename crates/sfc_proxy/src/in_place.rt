//! Instances over a header where it lies.

ghost use Rattle.std.specs.Prelude.{◌≡◌, ℕ, ◌≤◌, ◌<◌, false, length, slice_index};
ghost use Rattle.nsh_metadata.specs.Header.{Header, IsNsh, BeginsWith};
ghost use Rattle.service_functions.specs.Functions.{IsFunction, on_metadata};
ghost use Rattle.service_functions.specs.Serving.{ServeFrame, ServeHeader};
ghost use Rattle.service_functions.specs.declared.functions.Function.TheVariants as function;
ghost use Rattle.sfc_proxy.specs.Instances.{moved_on, bytes_moved_on, ServeHeaderAt, ServeAt, ServeAwareAt, ServeUnawareAt};

use arrayvec::ArrayVec;
use net_frames::Frame;
use nsh_headers::set_si;
use nsh_metadata::{ItemFault, clear_context, has_item, push_item};
use service_functions::{Function, Served, Why, serve_frame};

/// Lowers the service index by 1, where the frame passed.
fn move_on(served: Served, header: &mut [u8])
    requires room { 8 ≤ length header.old }
    requires index { 1 ≤ slice_index header.old 7 }
    ensures bytes { header.new ≡ bytes_moved_on served header.old }
    ensures spelled { (h : Header) (n : ℕ) → BeginsWith header.old h n → BeginsWith header.new (moved_on served h) n }
{
    if let Served::Passed = served {
        let si = header[7];
        set_si(header, si - 1);
    }
}

/// Serves as `serve_unaware` does, where the header's bytes lie: the service index, its eighth byte, falls by
/// 1 where the frame passed, and every other byte stays.
pub fn unaware_in_place(function: &Function, frame: &mut Frame, header: &mut [u8]) -> Served
    requires ranges { IsFunction function.now }
    requires proxied { on_metadata function.now ≡ false }
    requires room { 8 ≤ length header.old }
    requires index { 1 ≤ slice_index header.old 7 }
    ensures frame { ServeFrame function.now frame.old result frame.new }
    ensures bytes { header.new ≡ bytes_moved_on result header.old }
    ensures header { ServeUnawareAt function.now frame.old header.old result frame.new header.new }
{
    let served = serve_frame(function, frame);
    move_on(served, header);
    served
}

/// Adds an item to the header that the first `size` bytes are.
fn stamp(
    header: &mut [u8],
    size: usize,
    class: u16,
    kind: u8,
    body: &ArrayVec<u8, 127>,
) -> (Served, usize)
    requires spelled { (h : Header) × BeginsWith header.old h size }
    requires room { 252 ≤ length header.old }
    requires len { length body.now.items < 128 }
    ensures { ServeHeaderAt (function.Stamp class kind body.now) header.old size result.0 header.new result.1 }
{
    match push_item(header, size, class, kind, body.as_slice()) {
        Ok(end) => (Served::Passed, end),
        Err(ItemFault::NoItems) => (Served::Dropped(Why::Meta), size),
        Err(ItemFault::Full) => (Served::Dropped(Why::MetaFull), size),
    }
}

/// Drops a frame whose header, all of the bytes, has no item of this class and type.
fn require(header: &[u8], class: u16, kind: u8) -> Served
    requires { (h : Header) × IsNsh header.now h }
    ensures { (h : Header) → IsNsh header.now h → ServeHeader (function.RequireMeta class kind) h result h }
{
    if has_item(header, class, kind) {
        return Served::Passed;
    }
    Served::Dropped(Why::Meta)
}

/// Serves the header that the first `size` bytes are, by its context, and answers its bytes then.
fn serve_header(function: &Function, header: &mut [u8], size: usize) -> (Served, usize)
    requires ranges { IsFunction function.now }
    requires spelled { (h : Header) × BeginsWith header.old h size }
    requires room { 252 ≤ length header.old }
    ensures { ServeHeaderAt function.now header.old size result.0 header.new result.1 }
{
    match function {
        Function::Stamp { class, kind, body } => stamp(header, size, *class, *kind, body),
        Function::RequireMeta { class, kind } => (require(&header[..size], *class, *kind), size),
        Function::ClearMeta => (Served::Passed, clear_context(header)),
        _ => (Served::Passed, size),
    }
}

/// Serves a frame, and the header that the first `size` bytes are.
fn serve(function: &Function, frame: &mut Frame, header: &mut [u8], size: usize) -> (Served, usize)
    requires ranges { IsFunction function.now }
    requires spelled { (h : Header) × BeginsWith header.old h size }
    requires room { 252 ≤ length header.old }
    ensures { ServeAt function.now frame.old header.old size result.0 frame.new header.new result.1 }
{
    if function.is_on_metadata() {
        return serve_header(function, header, size);
    }
    (serve_frame(function, frame), size)
}

/// Serves as `serve_aware` does, where the header's bytes lie in 252 or more, of which the first `size` are the
/// header; answers also how many the header has then.
pub fn aware_in_place(
    function: &Function,
    frame: &mut Frame,
    header: &mut [u8],
    size: usize,
) -> (Served, usize)
    requires ranges { IsFunction function.now }
    requires spelled { (h : Header) × BeginsWith header.old h size × (1 ≤ h.head.path.si) }
    requires room { 252 ≤ length header.old }
    ensures { ServeAwareAt function.now frame.old header.old size result.0 frame.new header.new result.1 }
{
    let (served, end) = serve(function, frame, header, size);
    move_on(served, header);
    (served, end)
}
