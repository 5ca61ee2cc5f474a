// What the programs read and write: bytes of a stream, until a buffer is full; and all of some bytes.
#![tactic(auto)]

ghost use Rattle.std.specs.Prelude.{◌≤◌, IsTrue, length, take};
ghost use Rattle.std.specs.Io.KnownBytes.{Appends, Consumes};

use std::io::{Read, Write};

// The bytes of one read, at the start of buf, the next of the input; 0 where the input ends or the read fails.
fn some<R: Read>(reader: &mut R, buf: &mut [u8]) -> usize
    ensures in_bounds { result ≤ length buf.new }
    ensures bytes { Consumes (R.remaining reader.old) (R.remaining reader.new) (take result buf.new) }
{
    reader.read(buf).unwrap_or(0)
}

// Reads until buf is full, the input ends or a read fails, and returns how many bytes it put at the start of buf: the next of the input.
pub fn read_full<R: Read>(reader: &mut R, buf: &mut [u8]) -> usize
    ensures in_bounds { result ≤ length buf.new }
    ensures bytes { Consumes (R.remaining reader.old) (R.remaining reader.new) (take result buf.new) }
{
    let mut done = 0;
    while done < buf.len() {
        let n = some(reader, &mut buf[done..]);
        if n == 0 {
            break;
        }
        done += n;
    }
    done
}

// Writes all of the bytes, or stops at the first write that fails, and says which.
pub fn write_all<W: Write>(writer: &mut W, bytes: &[u8]) -> bool
    ensures { IsTrue result → Appends (W.contents writer.old) (W.contents writer.new) bytes.now }
{
    writer.write_all(bytes).is_ok()
}
