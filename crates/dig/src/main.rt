// The program dig: reads four schemas, the mappings F, G and H and a run, each after its 16-bit byte length, and no byte after them, and prints the
// tables of the query or the refusal.
#![tactic(auto)]

ghost use Rattle.std.specs.Prelude.{◌≡◌, length};

use std::io;
use text::Text;
use text::framing::Part;

const SHEETS: usize = 8;

// The input before it is read.
fn unread() -> [u8; SHEETS * Part::FRAME]
    ensures { 524296 ≡ length result }
{
    [0; SHEETS * Part::FRAME]
}

fn main(rt: HostRuntime) -> io::Result<()> {
    let mut input = unread();
    let mut text = [0u8; Text::BYTES];
    let mut stdin = rt.stdin();
    let n = input::read_sheets(&mut stdin, SHEETS, &mut input)?;
    let k = query::dig(&input[..n], &mut text);
    rt.write_all(&text[..k])
}
