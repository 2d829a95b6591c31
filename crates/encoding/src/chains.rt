// Chain sheets: the number of steps, then each step, as one number of 10 bits.
ghost use Rattle.std.specs.Prelude.{◌≡◌, map, ◌+◌, ◌*◌, ◌≤◌, length};
ghost use Rattle.bits.specs.Field.{bytes_for};
ghost use Rattle.meaning.specs.Formats.{chain_sheet};
ghost use Rattle.meaning.proofs.StepNumbers.{step_of};
ghost use Rattle.schema.specs.Decoded.{front_of};
ghost use Rattle.encoding.specs.Written.{Written};

use crate::write_column;

// The byte length of a chain sheet of n steps.
pub fn chain_length(n: usize) -> usize
    requires { n ≤ 255 }
    ensures { result ≡ bytes_for (8 + 10 * n) }
{
    (10 * n + 15) / 8
}

// Writes the sheet of n steps at the front of a tray that has room for it, and gives its byte length.
pub fn write_chain(tray: &mut [u8], l: &[u32], n: usize) -> usize
    requires { (n ≤ 255) × (n ≤ length l.now) × (bytes_for (8 + 10 * n) ≤ length tray.old) }
    ensures { Written (chain_sheet (map step_of (front_of n l.now))) tray.old result tray.new }
{
    let bytes = chain_length(n);
    bits::clear(tray, bytes);
    let count = [n as u32];
    write_column(tray, 0, 8, &count, 0, 1);
    write_column(tray, 8, 10, l, 0, n);
    bytes
}
