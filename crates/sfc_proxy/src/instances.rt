//! Instances over a header as a value.

ghost use Rattle.std.specs.Prelude.{◌≡◌, ◌≤◌, false};
ghost use Rattle.service_functions.specs.Functions.{IsFunction, on_metadata};
ghost use Rattle.sfc_proxy.specs.Instances.{ServeAware, ServeUnaware, moved_on};

use net_frames::Frame;
use nsh_metadata::Nsh;
use service_functions::{Function, Served, serve, serve_frame};

/// Lowers the service index by 1, where the frame passed.
fn move_on(served: Served, nsh: &mut Nsh)
    requires { 1 ≤ nsh.old.head.path.si }
    ensures { nsh.new ≡ moved_on served nsh.old }
{
    if let Served::Passed = served {
        nsh.set_si(nsh.head.path.si - 1);
    }
}

/// Serves by a function that sees the header, and where it passed lowers the service index by 1 (RFC 8300,
/// section 2.3).
pub fn serve_aware(function: &Function, frame: &mut Frame, nsh: &mut Nsh) -> Served
    requires ranges { IsFunction function.now }
    requires index { 1 ≤ nsh.old.head.path.si }
    ensures { ServeAware function.now frame.old nsh.old result frame.new nsh.new }
{
    let served = serve(function, frame, nsh);
    move_on(served, nsh);
    served
}

/// Serves by a function that does not see the header, in its proxy (RFC 7665, section 4.6), and where it
/// passed lowers the service index by 1. All else of the header stays.
pub fn serve_unaware(function: &Function, frame: &mut Frame, nsh: &mut Nsh) -> Served
    requires ranges { IsFunction function.now }
    requires proxied { on_metadata function.now ≡ false }
    requires index { 1 ≤ nsh.old.head.path.si }
    ensures { ServeUnaware function.now frame.old nsh.old result frame.new nsh.new }
{
    let served = serve_frame(function, frame);
    move_on(served, nsh);
    served
}
