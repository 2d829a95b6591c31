// Delta, Sigma and Pi.
ghost use Rattle.std.specs.Prelude.{◌≡◌};
ghost use Rattle.meaning.specs.Calls.{delta_tables, sigma_tables, pi_tables, sheet_of, in_tray};
ghost use Rattle.migration.specs.Answers.{returned};

#[unsafe(no_mangle)]
pub extern "C" fn migration_delta(s: &[u8], t: &[u8], f: &[u8], j: &[u8], tray: &mut [u8]) -> u64
    ensures { (result, tray.new) ≡ returned (in_tray tray.old (sheet_of (delta_tables s.now t.now f.now j.now))) }
{
    migration::exports::migration_delta(s, t, f, j, tray)
}

#[unsafe(no_mangle)]
pub extern "C" fn migration_sigma(s: &[u8], t: &[u8], f: &[u8], i: &[u8], tray: &mut [u8]) -> u64
    ensures { (result, tray.new) ≡ returned (in_tray tray.old (sheet_of (sigma_tables s.now t.now f.now i.now))) }
{
    migration::exports::migration_sigma(s, t, f, i, tray)
}

#[unsafe(no_mangle)]
pub extern "C" fn migration_pi(s: &[u8], t: &[u8], f: &[u8], i: &[u8], tray: &mut [u8]) -> u64
    ensures { (result, tray.new) ≡ returned (in_tray tray.old (sheet_of (pi_tables s.now t.now f.now i.now))) }
{
    migration::exports::migration_pi(s, t, f, i, tray)
}
