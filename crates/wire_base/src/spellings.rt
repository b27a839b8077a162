ghost use Rattle.std.specs.Prelude.{◌≡◌, ◌<◌, ◌^◌};
ghost use Rattle.wire_base.specs.Numbers.{two, three, four, eight};

/// A number as 2 bytes, the highest first.
pub(crate) fn two_bytes(number: u16) -> [u8; 2]
    ensures { result ≡ two number }
{
    number.to_be_bytes()
}

/// A number below 2^24 as 3 bytes, the highest first.
pub(crate) fn three_bytes(number: u32) -> [u8; 3]
    requires { number < 2 ^ 24 }
    ensures { result ≡ three number }
{
    let [_, high, middle, low] = number.to_be_bytes();
    [high, middle, low]
}

/// A number as 4 bytes, the highest first.
pub(crate) fn four_bytes(number: u32) -> [u8; 4]
    ensures { result ≡ four number }
{
    number.to_be_bytes()
}

/// A number as 8 bytes, the highest first.
pub(crate) fn eight_bytes(number: u64) -> [u8; 8]
    ensures { result ≡ eight number }
{
    number.to_be_bytes()
}
