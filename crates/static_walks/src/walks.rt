ghost use Rattle.std.specs.Prelude.{◌≡◌, ◌≤◌, ◌<◌, length, MatchOption, IfNone};
ghost use Rattle.net_frames.specs.Captured.{Captured};
ghost use Rattle.nsh_headers.specs.Head.{IsHead};
ghost use Rattle.nsh_headers.specs.Edit.{ttl_in};
ghost use Rattle.service_functions.specs.Serving.{FrameBy};
ghost use Rattle.service_functions.specs.declared.functions.Function.TheVariants.{Pass};
ghost use Rattle.path_selection.specs.Answers.{IsAnswer};
ghost use Rattle.classifier.specs.Stations.{Station};
ghost use Rattle.static_walks.specs.TurnSteps.{GoesOnAt, IsOwnHop};
ghost use Rattle.static_walks.specs.Walks.{EachWalksTo, WalksOn, here, static_header, static_table};

use nsh_headers::{Base, NshHead, ServicePath, encode_head, lower_ttl, set_si};
use path_selection::Answer;
use record_text::{End, Reason};
use wire_base::{ForwarderId, InstanceId, Spi, be_u24};

/// A path of `count` functions that pass every frame, at one forwarder, with the service indexes from
/// 255 down.
#[derive(Clone, Copy, Debug)]
pub struct StaticPath {
    pub spi: Spi,
    pub count: u8,
}

/// The forwarder of the static path.
const FORWARDER: ForwarderId = ForwarderId(0);

impl StaticPath {
    /// What the table that has this one path says.
    fn answer(&self, spi: u32, si: u8) -> Answer
        ensures answer { IsAnswer (static_table self.now.spi self.now.count) spi si result }
        ensures own { IsOwnHop si result }
    {
        if spi != self.spi.number() {
            return Answer::NoPath;
        }
        let count = self.count;
        if u16::from(si) + u16::from(count) < 256 {
            return Answer::Ended;
        }
        Answer::At(si, FORWARDER, InstanceId(u16::from(255 - si)))
    }
}

/// The header that a frame gets on its way into a static path: Ethernet behind it, no metadata.
fn first_head(spi: Spi) -> NshHead
    ensures { result ≡ (static_header spi).head }
{
    NshHead {
        base: Base {
            oam: false,
            spare1: false,
            ttl: 63,
            words: 2,
            spare4: 0,
            md: 2,
            next: 3,
        },
        path: ServicePath { spi, si: 255 },
    }
}

/// One turn at the forwarder: the TTL is lowered, the table is asked, and the instance that serves the
/// frame lowers the service index. None where the walk goes on.
fn take_turn(path: &StaticPath, header: &mut [u8]) -> Option<End>
    requires room { 8 ≤ length header.old }
    requires alive { 0 < ttl_in header.old }
    ensures turn { (s : Station) → IsHead header.old s.header.head → s.forwarder ≡ here
        → MatchOption result (GoesOnAt path.now.spi path.now.count s header.new) (WalksOn path.now.spi path.now.count s) }
    ensures room { length header.new ≡ length header.old }
    ensures alive { IfNone result (0 < ttl_in header.new) }
    ensures fewer { IfNone result (ttl_in header.new < ttl_in header.old) }
{
    if lower_ttl(header) == 0 {
        return Some(End::Drop(Reason::Ttl));
    }
    match path.answer(be_u24(&header[4..]), header[7]) {
        Answer::NoPath => Some(End::Drop(Reason::NoPath)),
        Answer::NoInstance(si) => Some(End::Drop(Reason::NoInstance(si))),
        Answer::Ended => Some(End::Egress),
        Answer::At(si, _, _) => {
            set_si(header, si - 1);
            None
        }
    }
}

/// Walks a frame over a static path, from a header with TTL 63 and SI 255, turn after turn. The header
/// stands as its 8 bytes and is changed in place; the functions of the path leave the frame as it is.
pub fn walk_frame(path: &StaticPath, frame: &[u8]) -> End
    ensures { EachWalksTo path.now.spi path.now.count frame.now result }
{
    let mut header = encode_head(&first_head(path.spi));
    let mut served = frame;
    'turns: loop {
        if let Some(end) = take_turn(path, &mut header) {
            return end;
        }
        served = pass(served);
    }
}

/// The function `pass`: the frame, unchanged.
fn pass(frame: &[u8]) -> &[u8]
    ensures { (f : Captured) → f.bytes ≡ frame.now → result.now ≡ (FrameBy Pass f).bytes }
{
    frame
}
