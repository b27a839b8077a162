ghost use Rattle.std.specs.Prelude.{◌≡◌, ◌<◌, ◌∷◌, ◌++◌, length, MatchOption};
ghost use Rattle.bgp_messages.specs.Refusals.{RunsPast};
ghost use Rattle.bgp_messages.specs.Items.{Splits};

/// A code or type with its value, at the front of the bytes.
#[derive(Clone, Copy)]
pub(crate) struct Item<'a> {
    pub(crate) code: u8,
    pub(crate) value: &'a [u8],
    pub(crate) rest: &'a [u8],
}

/// Cuts the first item off: a code, the length of a value in one byte, the value (RFC 5492, section 4). None exactly where
/// it runs past the end.
pub(crate) fn item_of(bytes: &[u8]) -> Option<Item<'_>>
    ensures { MatchOption result (RunsPast bytes.now) (λ item. Splits bytes.now item.code item.value.now item.rest.now) }
{
    if bytes.len() < 2 {
        return None;
    }
    let len = usize::from(bytes[1]);
    let (code, after) = (bytes[0], &bytes[2..]);
    if after.len() < len {
        return None;
    }
    let (value, rest) = after.split_at(len);
    Some(Item { code, value, rest })
}
