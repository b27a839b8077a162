//! The calls that a row may make.

ghost use Rattle.std.specs.Prelude.{IfSome};
ghost use Rattle.service_functions.specs.Functions.{IsFunction};

use net_frames::Frame;
use nsh_metadata::{Nsh, encode_nsh};
use service_functions::{Function, Served, serve};
use setup_statements::{Keyword, Statement, read_statement};
use sfc_proxy::{aware_in_place, serve_aware, serve_unaware, unaware_in_place};
use text_words::Pieces;

/// Who calls the function.
#[derive(Clone, Copy, Debug, PartialEq, Eq)]
pub(crate) enum Caller {
    /// Nobody: the function is called by itself.
    Alone,
    /// An instance that sees the header.
    Aware,
    /// An instance behind a proxy.
    Proxy,
}

impl Caller {
    pub(crate) fn of(word: &str) -> Option<Caller> {
        match word {
            "serve" => Some(Caller::Alone),
            "aware" => Some(Caller::Aware),
            "proxy" => Some(Caller::Proxy),
            _ => None,
        }
    }
}

/// The function of the words of an instance, in a setup.
pub(crate) fn read_function(line: &str) -> Option<Function>
    ensures { IfSome result IsFunction }
{
    let mut words = Pieces::of(line.as_bytes(), b' ');
    match read_statement(Keyword::Instance, &mut words) {
        Some(Statement::Instance(_, bound)) => Some(bound.function),
        _ => None,
    }
}

/// Serves; None where the caller may not, for a service index of 0 or a function on metadata.
pub(crate) fn serve_by(
    caller: Caller,
    function: &Function,
    frame: &mut Frame,
    nsh: &mut Nsh,
) -> Option<Served>
    requires { IsFunction function.now }
{
    if caller == Caller::Alone {
        return Some(serve(function, frame, nsh));
    }
    if nsh.head.path.si == 0 {
        return None;
    }
    if caller == Caller::Aware {
        return Some(serve_aware(function, frame, nsh));
    }
    if function.is_on_metadata() {
        return None;
    }
    Some(serve_unaware(function, frame, nsh))
}

/// Serves where the header lies, which is written into the buffer first, and answers its bytes too; None where the caller
/// may not, and where nobody calls.
pub(crate) fn serve_there(
    caller: Caller,
    function: &Function,
    frame: &mut Frame,
    nsh: &Nsh,
    buffer: &mut [u8; 252],
) -> Option<(Served, usize)>
    requires { IsFunction function.now }
{
    let Ok(size) = encode_nsh(nsh, buffer) else {
        return None;
    };
    if nsh.head.path.si == 0 {
        return None;
    }
    match caller {
        Caller::Alone => None,
        Caller::Aware => Some(aware_in_place(function, frame, buffer, size)),
        Caller::Proxy => Some((proxy_there(function, frame, &mut buffer[..size])?, size)),
    }
}

fn proxy_there(function: &Function, frame: &mut Frame, header: &mut [u8]) -> Option<Served>
    requires { IsFunction function.now }
{
    if function.is_on_metadata() || header.len() < 8 {
        return None;
    }
    let si = header[7];
    if si == 0 {
        return None;
    }
    Some(unaware_in_place(function, frame, header))
}
