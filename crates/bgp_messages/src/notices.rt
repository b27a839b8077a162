use wire_base::Bytes;

/// The content of a NOTIFICATION (RFC 4271, section 4.5).
#[derive(Debug, Drop)]
pub struct Notice {
    pub code: u8,
    pub subcode: u8,
    /// The data field, any bytes.
    pub info: Bytes,
}
