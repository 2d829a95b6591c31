// The program push: reads the sheets S, T, mapping and run, each after its 16-bit byte length, and no byte after them, and prints the pushed
// tables or the refusal.
#![tactic(auto)]

use std::io;
use text::Text;
use text::framing::Part;

const SHEETS: usize = 4;

fn main(rt: HostRuntime) -> io::Result<()> {
    let mut input = [0u8; SHEETS * Part::FRAME];
    let mut text = [0u8; Text::BYTES];
    let mut stdin = rt.stdin();
    let n = input::read_sheets(&mut stdin, SHEETS, &mut input)?;
    let k = migration::push(&input[..n], &mut text);
    rt.write_all(&text[..k])
}
