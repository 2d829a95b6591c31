// Numbers in decimal.
ghost use Rattle.std.specs.Prelude.{◌≡◌, ◌<◌};
ghost use Rattle.meaning.specs.Program as program;
ghost use Rattle.text.specs.Appended.{Room, Appended, digits};

// The digit of a number below 10.
fn digit(n: u32) -> u8
    requires { n < 10 }
    ensures { result ≡ program.digit n }
{
    b'0' + n as u8
}

// Writes a number from a position on, and yields where it ends.
pub fn put_decimal(out: &mut [u8], at: usize, n: u32) -> usize
    requires { Room out.old at (digits n) }
    ensures { Appended out.old at (digits n) result out.new }
{
    if n < 10 {
        out[at] = digit(n);
        return at + 1;
    }
    let next = put_decimal(out, at, n / 10);
    out[next] = digit(n % 10);
    next + 1
}
