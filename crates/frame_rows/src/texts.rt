//! How bytes, fields and verdicts are printed.

use classifier::Verdict;
use net_frames::Fields;
use nsh_metadata::Context;
use std::fmt;
use wire_base::NextHop;

/// The most bytes that are printed; of more, the first 24 and how many there are.
const SHOWN: usize = 128;

const FRONT: usize = 24;

/// Bytes as hexadecimal digits, and none as a dash.
#[derive(Drop)]
pub(crate) struct Digits<'a>(pub(crate) &'a [u8]);

impl fmt::Display for Digits<'_> {
    fn fmt<W: fmt::Write>(&self, f: &mut fmt::Formatter<W>) -> fmt::Result {
        let bytes = self.0;
        if bytes.is_empty() {
            return write!(f, "-");
        }
        if bytes.len() <= SHOWN {
            return write_digits(f, bytes);
        }
        write_digits(f, &bytes[..FRONT])?;
        write!(f, ".. {}", bytes.len())
    }
}

fn write_digits<W: fmt::Write>(f: &mut fmt::Formatter<W>, bytes: &[u8]) -> fmt::Result {
    for byte in bytes {
        write!(f, "{byte:02x}")?;
    }
    Ok(())
}

/// A value, or a dash where there is none.
#[derive(Drop)]
pub(crate) struct OrDash<T>(pub(crate) Option<T>);

impl<T: fmt::Display> fmt::Display for OrDash<T> {
    fn fmt<W: fmt::Write>(&self, f: &mut fmt::Formatter<W>) -> fmt::Result {
        match &self.0 {
            Some(value) => write!(f, "{value}"),
            None => write!(f, "-"),
        }
    }
}

/// An Ethernet type, in four digits.
#[derive(Drop)]
struct Kind(u16);

impl fmt::Display for Kind {
    fn fmt<W: fmt::Write>(&self, f: &mut fmt::Formatter<W>) -> fmt::Result {
        write!(f, "{:04x}", self.0)
    }
}

/// An address: four numbers joined by points, or 32 digits.
#[derive(Drop)]
struct Address(NextHop);

impl fmt::Display for Address {
    fn fmt<W: fmt::Write>(&self, f: &mut fmt::Formatter<W>) -> fmt::Result {
        match &self.0 {
            NextHop::Four(octets) => {
                let octets = octets.bytes();
                write!(f, "{}.{}.{}.{}", octets[0], octets[1], octets[2], octets[3])
            }
            NextHop::Sixteen(octets) => write_digits(f, octets.bytes()),
        }
    }
}

/// All fields, those that are not captured as dashes.
#[derive(Drop)]
pub(crate) struct FieldLine(pub(crate) Fields);

impl fmt::Display for FieldLine {
    fn fmt<W: fmt::Write>(&self, f: &mut fmt::Formatter<W>) -> fmt::Result {
        let fields = &self.0;
        write!(f, "vlan={}", OrDash(fields.vlan))?;
        write!(f, " ether={}", OrDash(fields.ether.map(Kind)))?;
        write!(f, " source={}", OrDash(fields.source.map(Address)))?;
        write!(
            f,
            " destination={}",
            OrDash(fields.destination.map(Address))
        )?;
        write!(f, " protocol={}", OrDash(fields.protocol))?;
        write!(f, " port={}", OrDash(fields.to_port))
    }
}

/// A verdict, with a path's SPI, SI and TTL, the MD Type of its context and the bytes of that.
#[derive(Drop)]
pub(crate) struct VerdictText(pub(crate) Verdict);

impl fmt::Display for VerdictText {
    fn fmt<W: fmt::Write>(&self, f: &mut fmt::Formatter<W>) -> fmt::Result {
        match &self.0 {
            Verdict::Path(spi, si, ttl, context) => {
                write!(f, "path/{}/{si}/{ttl}/", spi.number())?;
                write!(f, "{}/{}", context_word(context), Digits(context.bytes()))
            }
            Verdict::Bypass => write!(f, "bypass"),
            Verdict::Refuse => write!(f, "refuse"),
            Verdict::NshIngress => write!(f, "nsh"),
        }
    }
}

fn context_word(context: &Context) -> &'static str {
    match context {
        Context::Fixed16(_) => "md1",
        Context::Items(_) => "md2",
    }
}
