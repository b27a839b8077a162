//! What is done with a frame.

ghost use Rattle.std.specs.Prelude.{◌≡◌};
ghost use Rattle.classifier.specs.Rules.{IsAction};
ghost use Rattle.classifier.specs.Verdicts.{verdict_of, IsVerdict};

use crate::rules::Action;
use nsh_metadata::Context;
use wire_base::Spi;

/// What is done with a frame.
#[derive(Debug, Drop)]
pub enum Verdict {
    /// It starts on a path: SPI, SI from 1 to 255, TTL from 1 to 63, and the context.
    Path(Spi, u8, u8, Context),
    /// It is let out as it is.
    Bypass,
    /// It is dropped by a rule.
    Refuse,
    /// It bears NSH already, and no rule is asked.
    NshIngress,
}

/// What an action does with a frame.
pub(crate) fn verdict_by(action: &Action) -> Verdict
    requires { IsAction action.now }
    ensures value { result ≡ verdict_of action.now }
    ensures ranges { IsVerdict result }
{
    match action {
        Action::Path(spi, si, ttl, context) => Verdict::Path(*spi, *si, *ttl, context.copy()),
        Action::Bypass => Verdict::Bypass,
        Action::Refuse => Verdict::Refuse,
    }
}
