// Rows that come and go.
ghost use Rattle.std.specs.Prelude.{◌≡◌};
ghost use Rattle.meaning.specs.Changes.{add_row, withdraw_row};
ghost use Rattle.changes.specs.Answers.{returned};

#[unsafe(no_mangle)]
pub extern "C" fn migration_add_row(
    s: &[u8],
    t: &[u8],
    f: &[u8],
    run: &mut [u8],
    run_length: u64,
    table: u64,
    row: &[u8],
    pushed: &mut [u8],
) -> u64
    ensures { (result, run.new, pushed.new) ≡ returned (add_row s.now t.now f.now run.old run_length table row.now pushed.old) }
{
    changes::exports::migration_add_row(s, t, f, run, run_length, table, row, pushed)
}

#[unsafe(no_mangle)]
pub extern "C" fn migration_withdraw_row(
    s: &[u8],
    t: &[u8],
    f: &[u8],
    run: &mut [u8],
    run_length: u64,
    table: u64,
    row: u64,
    pushed: &mut [u8],
) -> u64
    ensures { (result, run.new, pushed.new) ≡ returned (withdraw_row s.now t.now f.now run.old run_length table row pushed.old) }
{
    changes::exports::migration_withdraw_row(s, t, f, run, run_length, table, row, pushed)
}
