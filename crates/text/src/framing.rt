// Where sheets lie in a program's input, each after its 16-bit byte length, most significant byte first.
ghost use Rattle.std.specs.Prelude.{◌≡◌, ◌+◌, ◌≤◌, length};
ghost use Rattle.meaning.specs.Program as program;
ghost use Rattle.text.specs.Framed.{LengthFound, LiesIn, part_of, SheetFound, NthFound};

// The bytes from start up to, not including, end.
#[derive(Clone, Copy)]
pub struct Part {
    pub start: usize,
    pub end: usize,
}

impl Part {
    // The most bytes of a sheet with its byte length: the largest length is 65,535, and two bytes say it.
    pub const FRAME: usize = 65537;
}

// The bytes of a part.
pub fn bytes_of<'a>(input: &'a [u8], p: Part) -> &'a [u8]
    requires { LiesIn input.now p }
    ensures { result.now ≡ part_of input.now p }
{
    &input[p.start..p.end]
}

// The byte length at a position.
pub fn length_at(input: &[u8], at: usize) -> usize
    requires { at + 2 ≤ length input.now }
    ensures { LengthFound input.now at result }
{
    usize::from(u16::from_be_bytes([input[at], input[at + 1]]))
}

// The sheet after the byte length at a position, of which fewer than two bytes count as 0. The next byte length stands where the sheet ends.
pub fn sheet_at(input: &[u8], at: usize) -> Part
    requires { at ≤ length input.now }
    ensures { SheetFound input.now at result }
{
    let all = input.len();
    if all - at < 2 {
        return Part {
            start: all,
            end: all,
        };
    }
    let start = at + 2;
    let size = length_at(input, at);
    if all - start < size {
        return Part { start, end: all };
    }
    Part {
        start,
        end: start + size,
    }
}

// Where the sheet after the first n lies.
fn nth_part(input: &[u8], n: usize) -> Part
    ensures { NthFound input.now n result }
{
    let mut at = 0;
    for _ in 0..n {
        at = sheet_at(input, at).end;
    }
    sheet_at(input, at)
}

// The sheet after the first n.
pub fn nth_sheet<'a>(input: &'a [u8], n: usize) -> &'a [u8]
    ensures { result.now ≡ program.sheet n input.now }
{
    bytes_of(input, nth_part(input, n))
}
