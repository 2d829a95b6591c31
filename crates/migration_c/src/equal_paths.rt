// Equal paths: the first one, and the steps from one to another.
ghost use Rattle.std.specs.Prelude.{◌≡◌};
ghost use Rattle.meaning.specs.Calls.{path_question, path_chain, in_tray};
ghost use Rattle.migration.specs.Answers.{returned};

#[unsafe(no_mangle)]
pub extern "C" fn migration_first_path(s: &[u8], p: &[u8], tray: &mut [u8]) -> u64
    ensures { (result, tray.new) ≡ returned (in_tray tray.old (path_question s.now p.now)) }
{
    migration::exports::migration_first_path(s, p, tray)
}

#[unsafe(no_mangle)]
pub extern "C" fn migration_path_chain(s: &[u8], p: &[u8], q: &[u8], tray: &mut [u8]) -> u64
    ensures { (result, tray.new) ≡ returned (in_tray tray.old (path_chain s.now p.now q.now)) }
{
    migration::exports::migration_path_chain(s, p, q, tray)
}
