// Composing for C, a slice as its address and its length, with its answer as one number, as `migration` has it.
ghost use Rattle.std.specs.Prelude.{◌≡◌};
ghost use Rattle.meaning.specs.Calls.{in_tray};
ghost use Rattle.meaning.specs.Composition as meaning;
ghost use Rattle.migration.specs.Answers.{returned};

use crate::call::compose;
use migration::exports::written_number;

#[unsafe(no_mangle)]
pub extern "C" fn migration_compose(
    s: &[u8],
    t: &[u8],
    u: &[u8],
    f: &[u8],
    g: &[u8],
    tray: &mut [u8],
) -> u64
    ensures { (result, tray.new) ≡ returned (in_tray tray.old (meaning.compose s.now t.now u.now f.now g.now)) }
{
    written_number(compose(s, t, u, f, g, tray))
}
