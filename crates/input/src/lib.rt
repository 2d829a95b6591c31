// Reading sheets from a reader, each after its byte length, and no byte after the last of them.
#![tactic(auto)]

ghost use Rattle.std.specs.Prelude.{◌+◌, ◌*◌, ◌<◌, ◌≤◌, length, take, IfOk, OnErr};
ghost use Rattle.std.specs.Io.{ReadsAtMost};
ghost use Rattle.std.specs.Io.KnownBytes.{Consumes, IsAtEnd};
ghost use Rattle.text.specs.Framed.{max_frame_bytes};
ghost use Rattle.input.specs.Read.{FrameRead, SheetsRead, BrokenOff, end_of, read_to};

use std::io;
use std::io::Read;
use text::framing::length_at;

// Where what was read ends: a whole sheet with its byte length, or as much of them as the input had.
#[derive(Clone, Copy)]
enum Frame {
    Whole(usize),
    Cut(usize),
}

// Reads until the bytes are full or the input ends: how many it put at their start. The only error is that of a read that failed.
pub fn read_full<R: Read>(reader: &mut R, into: &mut [u8]) -> io::Result<usize>
    ensures count { ReadsAtMost result into.new }
    ensures bytes { IfOk result (λ n. Consumes (R.remaining reader.old) (R.remaining reader.new) (take n into.new)) }
    ensures end { IfOk result (λ n. n < length into.new → IsAtEnd (R.remaining reader.new)) }
    ensures err { OnErr result (BrokenOff (R.remaining reader.old) (R.remaining reader.new) into.old 0 into.new) }
{
    let mut done = 0;
    while done < into.len() {
        let n = reader.read(&mut into[done..])?;
        if n == 0 {
            return Ok(done);
        }
        done += n;
    }
    Ok(done)
}

// Reads a byte length, and so many bytes after it, to a position.
fn read_frame<R: Read>(reader: &mut R, into: &mut [u8], at: usize) -> io::Result<Frame>
    requires { at + max_frame_bytes ≤ length into.old }
    ensures frame { IfOk result (λ r. FrameRead into.old at r into.new) }
    ensures bytes { IfOk result (λ r. Consumes (R.remaining reader.old) (R.remaining reader.new) (read_to into.new at (end_of r))) }
    ensures err { OnErr result (BrokenOff (R.remaining reader.old) (R.remaining reader.new) into.old at into.new) }
{
    let start = at + 2;
    let of_length = read_full(reader, &mut into[at..start])?;
    if of_length < 2 {
        return Ok(Frame::Cut(at + of_length));
    }
    let size = length_at(into, at);
    let end = start + size;
    let of_sheet = read_full(reader, &mut into[start..end])?;
    if of_sheet < size {
        return Ok(Frame::Cut(start + of_sheet));
    }
    Ok(Frame::Whole(start + of_sheet))
}

// Reads the first n sheets, each after its byte length, to the front of `into`: how many bytes were read. It reads no byte after the
// nth sheet, and stops where the input ends: what it then lacks is lacking in the sheets. The only error is that of a read that failed.
pub fn read_sheets<R: Read>(reader: &mut R, n: usize, into: &mut [u8]) -> io::Result<usize>
    requires { n * max_frame_bytes ≤ length into.old }
    ensures sheets { IfOk result (λ r. SheetsRead n r into.new) }
    ensures bytes { IfOk result (λ r. Consumes (R.remaining reader.old) (R.remaining reader.new) (take r into.new)) }
    ensures err { OnErr result (BrokenOff (R.remaining reader.old) (R.remaining reader.new) into.old 0 into.new) }
{
    let mut at = 0;
    for _ in 0..n {
        match read_frame(reader, into, at)? {
            Frame::Whole(end) => at = end,
            Frame::Cut(end) => return Ok(end),
        }
    }
    Ok(at)
}
