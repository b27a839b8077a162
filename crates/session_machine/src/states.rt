ghost use Rattle.std.specs.Prelude.{◌≡◌, ◌≢◌, MatchBool};
ghost use Rattle.session_machine.specs.Timers.{timer_of, hold_in, Expired};

/// The states of a session (RFC 4271, section 8.2.2). A hold time is in microseconds, and 0 where there is none.
#[derive(Clone, Copy, Debug)]
pub(crate) enum State {
    Idle,
    OpenSent,
    OpenConfirm(u64),
    Established(u64),
}

/// How long nothing may come before the peer's OPEN, in microseconds.
const OPENING_TIME: u64 = 240_000_000;

impl State {
    pub(crate) fn is_idle(self) -> bool
        ensures { MatchBool result (self ≡ Self.Idle) (self ≢ Self.Idle) }
    {
        match self {
            State::Idle => true,
            State::OpenSent => false,
            State::OpenConfirm(_) => false,
            State::Established(_) => false,
        }
    }

    /// How long nothing may come, in microseconds, 0 for ever.
    fn timer(self) -> u64
        ensures { result ≡ timer_of self }
    {
        match self {
            State::Idle => 0,
            State::OpenSent => OPENING_TIME,
            State::OpenConfirm(hold) => hold,
            State::Established(hold) => hold,
        }
    }

    /// The hold time in the states in which KEEPALIVEs are sent, else 0.
    pub(crate) fn hold(self) -> u64
        ensures { result ≡ hold_in self }
    {
        match self {
            State::Idle => 0,
            State::OpenSent => 0,
            State::OpenConfirm(hold) => hold,
            State::Established(hold) => hold,
        }
    }

    /// Whether the timer has run out.
    pub(crate) fn is_expired(self, last: u64, moment: u64) -> bool
        ensures { MatchBool result (Expired self last moment) (¬ (Expired self last moment)) }
    {
        let timer = self.timer();
        if timer == 0 {
            return false;
        }
        timer <= moment.saturating_sub(last)
    }
}
