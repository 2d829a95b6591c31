// Matching sheets: for each row the row of its partner. Refusals 1 and 2, and how a matching is written.
ghost use Rattle.std.specs.Prelude.{◌≡◌, ◌*◌, ◌≤◌, length};
ghost use Rattle.bits.specs.Field.{bytes_for};
ghost use Rattle.meaning.specs.Sheet.{on_sheet};
ghost use Rattle.meaning.specs.Formats.{read_partners, matching_sheet};
ghost use Rattle.schema.specs.Decoded.{front_of};
ghost use Rattle.schema.specs.Faults.{judged_of};
ghost use Rattle.encoding.specs.Written.{Written};

use crate::write_column;
use bits::reader::{ends_at, lacks_at};
use instance::decode::read_column;
use schema::faults::Fault;

// Reads the partners of n rows, or says why the sheet is sent back.
pub fn read_matching(s: &[u8], n: usize, out: &mut [u32]) -> Result<(), Fault>
    requires { (n ≤ 512) × (n ≤ length out.old) }
    ensures { judged_of (λ _. front_of n out.new) result ≡ on_sheet (read_partners n) s.now }
{
    if lacks_at(s, 0, 9 * n) {
        return Err(Fault::Cut);
    }
    read_column(s, 0, 9, n, out, 0);
    if !ends_at(s, 9 * n) {
        return Err(Fault::Tail);
    }
    Ok(())
}

// The byte length of a matching sheet of n rows.
pub fn matching_length(n: usize) -> usize
    requires { n ≤ 512 }
    ensures { result ≡ bytes_for (9 * n) }
{
    (9 * n + 7) / 8
}

// Writes the sheet of n partners at the front of a tray that has room for it, and gives its byte length.
pub fn write_matching(tray: &mut [u8], l: &[u32], n: usize) -> usize
    requires { (n ≤ 512) × (n ≤ length l.now) × (bytes_for (9 * n) ≤ length tray.old) }
    ensures { Written (matching_sheet (front_of n l.now)) tray.old result tray.new }
{
    let bytes = matching_length(n);
    bits::clear(tray, bytes);
    write_column(tray, 0, 9, l, 0, n);
    bytes
}
