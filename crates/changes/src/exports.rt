// The changes for C, a slice as its address and its length. The answer is one number: 65,536 times the run's byte length plus the pushed sheet's, or a refusal as
// `migration` has it.
ghost use Rattle.std.specs.Prelude.{◌≡◌};
ghost use Rattle.meaning.specs.Changes.{add_row, withdraw_row};
ghost use Rattle.migration.specs.Answers.{encoded, lengths_number};
ghost use Rattle.changes.specs.Answers.{changed_of, LengthsWithin, returned};

use crate::Changed;
use crate::calls::{add_row, withdraw_row};
use migration::exports::refusal_number;

// Two byte lengths or a refusal as a number.
fn changed_number(changed: Changed) -> u64
    requires { LengthsWithin changed }
    ensures { result ≡ encoded (lengths_number (changed_of changed)) }
{
    match changed {
        Ok(lengths) => 65536 * (lengths.run as u64) + lengths.pushed as u64,
        Err(refusal) => refusal_number(refusal),
    }
}

#[unsafe(no_mangle)]
pub extern "C" fn migration_add_row(
    s: &[u8],
    t: &[u8],
    f: &[u8],
    run: &mut [u8],
    run_length: u64,
    table: u64,
    row: &[u8],
    pushed: &mut [u8],
) -> u64
    ensures { (result, run.new, pushed.new) ≡ returned (add_row s.now t.now f.now run.old run_length table row.now pushed.old) }
{
    changed_number(add_row(
        s,
        t,
        f,
        run,
        run_length as usize,
        table as usize,
        row,
        pushed,
    ))
}

#[unsafe(no_mangle)]
pub extern "C" fn migration_withdraw_row(
    s: &[u8],
    t: &[u8],
    f: &[u8],
    run: &mut [u8],
    run_length: u64,
    table: u64,
    row: u64,
    pushed: &mut [u8],
) -> u64
    ensures { (result, run.new, pushed.new) ≡ returned (withdraw_row s.now t.now f.now run.old run_length table row pushed.old) }
{
    changed_number(withdraw_row(
        s,
        t,
        f,
        run,
        run_length as usize,
        table as usize,
        row as usize,
        pushed,
    ))
}
