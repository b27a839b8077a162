//! Answers that are compared with those of a table.

use bgp_messages::Refusal;
use conformance_vectors::Expected;

fn is_same_refusal(refusal: &Refusal, other: &Refusal) -> bool {
    refusal.code == other.code
        && refusal.subcode == other.subcode
        && refusal.place == other.place
        && refusal.info.as_slice() == other.info.as_slice()
}

/// Whether an answer is the expected one. No answer is none.
pub(crate) fn is_answer(answer: Option<Expected>, expected: &Expected) -> bool {
    match (answer, expected) {
        (Some(Expected::Accepted), Expected::Accepted) => true,
        (Some(Expected::Nsh(fault)), Expected::Nsh(other)) => fault == *other,
        (Some(Expected::Bgp(refusal)), Expected::Bgp(other)) => is_same_refusal(&refusal, other),
        (
            Some(Expected::Update(code, subcode, place)),
            Expected::Update(other_code, other_subcode, other_place),
        ) => code == *other_code && subcode == *other_subcode && place == *other_place,
        (Some(Expected::Sfp(fault)), Expected::Sfp(other)) => fault == *other,
        _ => false,
    }
}
