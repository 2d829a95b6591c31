// Two mappings, one behind the other.
ghost use Rattle.std.specs.Prelude.{◌≡◌};
ghost use Rattle.meaning.specs.Calls.{in_tray};
ghost use Rattle.meaning.specs.Composition as meaning;
ghost use Rattle.migration.specs.Answers.{returned};

#[unsafe(no_mangle)]
pub extern "C" fn migration_compose(
    s: &[u8],
    t: &[u8],
    u: &[u8],
    f: &[u8],
    g: &[u8],
    tray: &mut [u8],
) -> u64
    ensures { (result, tray.new) ≡ returned (in_tray tray.old (meaning.compose s.now t.now u.now f.now g.now)) }
{
    compose::exports::migration_compose(s, t, u, f, g, tray)
}
