ghost use Rattle.std.specs.Prelude.{◌≡◌, ◌≤◌, ◌+◌, ◌++◌, length, MatchOption, MatchResult};
ghost use Rattle.bgp_update.specs.Refusals.{OpensNot, Opens, Refused};

use wire_base::be_u16;

/// The withdrawn routes, the length of the attributes, and what follows it.
#[derive(Clone, Copy)]
struct Opening<'a> {
    withdrawn: &'a [u8],
    size: u16,
    rest: &'a [u8],
}

/// Cuts off what stands before the attributes. None exactly where it is not all there.
fn opening_of(content: &[u8]) -> Option<Opening<'_>>
    ensures { MatchOption result (OpensNot content.now) (λ o. Opens content.now o.withdrawn.now o.size o.rest.now) }
{
    if content.len() < 4 {
        return None;
    }
    let size = usize::from(be_u16(content));
    let after = &content[2..];
    if after.len() - 2 < size {
        return None;
    }
    let (withdrawn, behind) = after.split_at(size);
    Some(Opening {
        withdrawn,
        size: be_u16(behind),
        rest: &behind[2..],
    })
}

/// The three parts of a content.
#[derive(Clone, Copy)]
pub(crate) struct Parts<'a> {
    pub(crate) withdrawn: &'a [u8],
    pub(crate) attributes: &'a [u8],
    pub(crate) nlri: &'a [u8],
}

/// Cuts a content into its parts, or tells the place of the length that runs past it.
pub(crate) fn parts_of(content: &[u8]) -> Result<Parts<'_>, u64>
    ensures { MatchResult result (λ p. Opens content.now p.withdrawn.now (length p.attributes.now) (p.attributes.now ++ p.nlri.now)) (λ place. Refused content.now place) }
{
    let Some(opening) = opening_of(content) else {
        return Err(0);
    };
    let size = usize::from(opening.size);
    if opening.rest.len() < size {
        return Err(2 + opening.withdrawn.len() as u64);
    }
    let (attributes, nlri) = opening.rest.split_at(size);
    Ok(Parts {
        withdrawn: opening.withdrawn,
        attributes,
        nlri,
    })
}
