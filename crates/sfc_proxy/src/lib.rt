//! Instances of service functions: those that see the header, and those behind a proxy that do not
//! (RFC 7665, sections 4.2 and 4.6).
//!
//! Clauses see a frame as `Captured` and a header as `Header`, or the header by its bytes. What an instance
//! does is what its function does (`Serve`, `ServeFrame`), and where the frame passes, the service index
//! (SI) falls by 1:
//!
//! ```text
//!  0F C2 02 03 00 00 2A FF  ->  stamp  ->  0F C5 02 03 00 00 2A FE | 01 23 04 05 11 22 33 44 55 00 00 00
//! ```
//!
//! What the layer above uses:
//!
//! - `serve_aware` serves by a function that sees the header (`ServeAware`).
//! - `serve_unaware` serves by one that does not, and leaves all of the header but the SI (`ServeUnaware`).
//! - `aware_in_place` and `unaware_in_place` do the same where the header lies as its bytes, which are then
//!   the spelling of the header that those leave.
//! - An instance of either kind passes the same frame or drops it for the same reason
//!   (`aware_and_unaware_agree`).
//!
//! It does no IO and takes no memory.
//!
//! ```text
//! let served = serve_aware(&function, &mut frame, &mut nsh);
//! let (served, size) = aware_in_place(&function, &mut frame, &mut header, size);
//! ```
#![tactic(auto)]

mod in_place;
mod instances;
mod laws;

pub use in_place::{aware_in_place, unaware_in_place};
pub use instances::{serve_aware, serve_unaware};
pub use laws::{aware_and_unaware_agree, one_service};
