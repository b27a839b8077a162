//! The time of an enhanced packet, from its ticks.

ghost use Rattle.std.specs.Prelude.{◌≡◌, ◌≤◌, ◌<◌, ◌*◌, ◌/◌, ◌^◌, false, true, MatchOption};
ghost use Rattle.pcapng_io.specs.Times.{is_resolution as resolution_is, per_second as per_second_of, counts_back, is_time, moved_by, nanos_of};

/// The most seconds of a time.
const MAX_SECONDS: u64 = 4_294_967_295;

/// The number of nanoseconds in a second.
const NANOS: u64 = 1_000_000_000;

/// Whether times of this resolution are read.
pub(crate) fn is_resolution(resolution: u8) -> bool
    ensures { result ≡ resolution_is resolution }
{
    resolution <= 19 || (128 <= resolution && resolution <= 162)
}

/// How many ticks a second has.
pub(crate) fn per_second(resolution: u8) -> u64
    requires { resolution_is resolution ≡ true }
    ensures value { result ≡ per_second_of resolution }
    ensures some { 0 < result }
{
    if resolution < 128 {
        10u64.pow(u32::from(resolution))
    } else {
        2u64.pow(u32::from(resolution - 128))
    }
}

/// The whole seconds with the offset, where they are those of a time.
pub(crate) fn seconds_of(offset: u64, whole: u64) -> Option<u32>
    ensures { MatchOption result (is_time offset whole ≡ false) (λ seconds. (is_time offset whole ≡ true) × (seconds ≡ moved_by offset whole)) }
{
    if offset < 1 << 63 {
        if whole > MAX_SECONDS || offset > MAX_SECONDS - whole {
            return None;
        }
        return Some((whole + offset) as u32);
    }
    let back = u64::MAX - offset + 1;
    if whole < back || whole - back > MAX_SECONDS {
        return None;
    }
    Some((whole - back) as u32)
}

/// A part of a second in nanoseconds, where a tick is no shorter.
fn long_ticks(resolution: u8, part: u64) -> u32
    requires few { resolution ≤ 9 }
    requires part { part < 10 ^ resolution }
    ensures value { result ≡ part * 1000000000 / 10 ^ resolution }
    ensures below { result < 1000000000 }
{
    (part * 10u64.pow(9 - u32::from(resolution))) as u32
}

/// The ticks past the last whole second as nanoseconds.
pub(crate) fn nanos_in(resolution: u8, ticks: u64) -> u32
    requires { resolution_is resolution ≡ true }
    ensures value { result ≡ nanos_of resolution ticks }
    ensures below { result < 1000000000 }
{
    let part = ticks % per_second(resolution);
    if resolution <= 9 {
        return long_ticks(resolution, part);
    }
    (u128::from(part) * u128::from(NANOS) / u128::from(per_second(resolution))) as u32
}
