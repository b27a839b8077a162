ghost use Rattle.std.specs.Io.{ReadsAtMost, WritesAtMost};
ghost use Rattle.std.specs.Io.KnownBytes.{ReadConsumes, WriteAppends};

use std::io;
use std::io::{ErrorKind, Read, Write};

/// How often a read or a write is tried that a signal interrupts each time.
const TRIES: u32 = 1000;

/// Reads the next bytes, again where a signal interrupted it.
pub(crate) fn read_some<F: Read>(file: &mut F, into: &mut [u8]) -> io::Result<usize>
    ensures bound { ReadsAtMost result into.new }
    ensures bytes { ReadConsumes (F.remaining file.old) (F.remaining file.new) result into.new }
{
    'tries: for _ in 0..TRIES {
        match file.read(into) {
            Ok(count) => return Ok(count),
            Err(reason) => {
                if reason.kind() != ErrorKind::Interrupted {
                    return Err(reason);
                }
            }
        }
    }
    Err(io::Error::from(ErrorKind::Interrupted))
}

/// Writes a front of the bytes, again where a signal interrupted it.
pub(crate) fn write_some<F: Write>(file: &mut F, bytes: &[u8]) -> io::Result<usize>
    ensures bound { WritesAtMost result bytes.now }
    ensures bytes { WriteAppends (F.contents file.old) (F.contents file.new) result bytes.now }
{
    'tries: for _ in 0..TRIES {
        match file.write(bytes) {
            Ok(count) => return Ok(count),
            Err(reason) => {
                if reason.kind() != ErrorKind::Interrupted {
                    return Err(reason);
                }
            }
        }
    }
    Err(io::Error::from(ErrorKind::Interrupted))
}
