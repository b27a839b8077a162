//! One input that is turned into an output as it comes, in pieces, over any desk.
//!
//! Clauses see a converter as what it has turned: the bytes that it took of its input, and those that it made of them.
//!
//! ```text
//!   input  --- a piece ---> push, next, next, ..  ---> buffer --- when it is full, or less came than was asked for ---> output
//!                             | each puts what one frame comes to
//! ```
//!
//! What the layer above uses:
//!
//! - `Converter` is what turns one format into another. It does no IO, and holds what it has not used of its input.
//! - `convert` takes a bound input to its end, or to where it is refused, and writes what the converter makes (`Works`). It holds
//!   a piece, and what of it waits to be written.
//! - `StreamRuns` and `StreamWants` are what a command says that does this, and what its input asks for, by the one relation
//!   between an input, the answer and the outputs.
//!
//! It knows no format.
//!
//! ```text
//! let status = convert(alloc, &mut desk, &mut converter, Port::Capture, Port::Made);
//! ```
#![tactic(auto)]

mod converters;
mod converting;

pub use converters::Converter;
pub use converting::convert;
