//! Bytes as hexadecimal digits.

use std::alloc::Global;

/// The bytes of these digits, and none for `-`. Spaces between them are left out.
pub(crate) fn bytes_of(alloc: Global, digits: &str) -> anyhow::Result<Vec<u8>> {
    let mut joined = String::new(alloc);
    for word in digits.split(' ') {
        joined.push_str(word)?;
    }
    match joined.as_str() {
        "-" => Ok(Vec::new(alloc)),
        joined => Ok(hex::decode(alloc, joined)?),
    }
}
