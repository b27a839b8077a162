//! The options of an interface description.

ghost use Rattle.std.specs.Prelude.{◌≡◌, ◌≤◌, ◌<◌, ◌+◌, length, IfSome};
ghost use Rattle.pcapng_io.specs.Options.{padded as padded_to, option_at as option_in, is_end as end_is, is_good_option as good_is, is_wanted as wanted_is, first_option as first_in, behind};

use crate::numbers::half_at;

/// The code of an option that tells the resolution of times.
const RESOLUTION: u16 = 9;

/// The code of an option that tells the offset of times.
const OFFSET: u16 = 14;

/// An option: where in its block it begins, its code, and the length of its value, which stands 4 bytes behind.
#[derive(Clone, Copy, Debug, PartialEq, Eq)]
pub struct OptionAt {
    pub at: usize,
    pub code: u16,
    pub size: u16,
}

/// What is looked for among options.
#[derive(Clone, Copy, Debug, PartialEq, Eq)]
pub enum Wanted {
    /// One that is refused.
    Refused,
    /// One with this code.
    Code(u16),
}

/// So many bytes, filled up to a multiple of 4.
pub(crate) fn padded(size: usize) -> usize
    requires { size < 4294967296 }
    ensures { result ≡ padded_to size }
{
    (size + 3) / 4 * 4
}

/// What stands at a place of a block.
fn option_at(big: bool, at: usize, block: &[u8]) -> OptionAt
    requires { at + 4 ≤ length block.now }
    ensures { result ≡ option_in big at block.now }
{
    OptionAt {
        at,
        code: half_at(big, at, block),
        size: half_at(big, at + 2, block),
    }
}

/// Whether the list of options ends at a place.
fn is_end(big: bool, at: usize, block: &[u8]) -> bool
    requires { 4 ≤ length block.now }
    ensures { result ≡ end_is big at block.now }
{
    at >= block.len() - 4 || half_at(big, at, block) == 0
}

/// Whether the option ends before the second length of a block of this size, and has the length that its code has.
fn is_good_option(size: usize, option: OptionAt) -> bool
    requires small { option.at < 4294967296 }
    requires some { 4 ≤ size }
    ensures { result ≡ good_is size option }
{
    if option.at + 4 + padded(option.size as usize) > size - 4 {
        return false;
    }
    match option.code {
        RESOLUTION => option.size == 1,
        OFFSET => option.size == 8,
        _ => true,
    }
}

/// Whether this is what is looked for, in a block of this size.
fn is_wanted(want: Wanted, size: usize, option: OptionAt) -> bool
    requires small { option.at < 4294967296 }
    requires some { 4 ≤ size }
    ensures { result ≡ wanted_is want size option }
{
    match want {
        Wanted::Refused => !is_good_option(size, option),
        Wanted::Code(code) => option.code == code,
    }
}

/// The first option of an interface description that is looked for.
pub(crate) fn first_option(want: Wanted, big: bool, block: &[u8]) -> Option<OptionAt>
    requires some { 20 ≤ length block.now }
    requires most { length block.now ≤ 1048576 }
    ensures value { result ≡ first_in want big block.now }
    ensures there { IfSome result (λ option. option.at + 5 ≤ length block.now) }
{
    let mut at = 16;
    let mut left = block.len() / 4;
    'options: while left > 0 {
        if is_end(big, at, block) {
            return None;
        }
        let option = option_at(big, at, block);
        if is_wanted(want, block.len(), option) {
            return Some(option);
        }
        at += 4 + padded(option.size as usize);
        left -= 1;
    }
    None
}
