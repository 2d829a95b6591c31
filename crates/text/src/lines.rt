// Lines of text: parts with one space between them, and a newline.
ghost use Rattle.text.specs.Appended.{Room, Appended, part, header_text};

use crate::decimal::put_decimal;

// Writes the bytes of a word.
pub fn put_word(out: &mut [u8], at: usize, word: &[u8]) -> usize
    requires { Room out.old at word.now }
    ensures { Appended out.old at word.now result out.new }
{
    let end = at + word.len();
    out[at..end].copy_from_slice(word);
    end
}

// Writes a space and a number.
pub fn put_part(out: &mut [u8], at: usize, n: u32) -> usize
    requires { Room out.old at (part n) }
    ensures { Appended out.old at (part n) result out.new }
{
    out[at] = b' ';
    put_decimal(out, at + 1, n)
}

// Writes the first line of an accepted result from the front on.
pub fn put_header(out: &mut [u8], tables: u32, rows: u32) -> usize
    requires { Room out.old 0 (header_text tables rows) }
    ensures { Appended out.old 0 (header_text tables rows) result out.new }
{
    let a = put_word(out, 0, b"tables");
    let b = put_part(out, a, tables);
    let c = put_word(out, b, b" rows");
    let d = put_part(out, c, rows);
    out[d] = b'\n';
    d + 1
}
