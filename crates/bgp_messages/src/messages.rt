use crate::notices::Notice;
use crate::opens::Open;
use wire_base::Bytes;

/// A message (RFC 4271, section 4), without its header.
#[derive(Debug, Drop)]
pub enum Message {
    Open(Open),
    /// The bytes after the message header, unread.
    Update(Bytes),
    Notification(Notice),
    KeepAlive,
}
