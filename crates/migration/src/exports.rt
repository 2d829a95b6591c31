// The calls for C, a slice as its address and its length. An answer is one number: a result as itself (0 for an accepted check, a byte length,
// which is 0 where there is no chain), a refusal as 2^32 + 256 * number + place.
ghost use Rattle.std.specs.Prelude.{◌≡◌};
ghost use Rattle.meaning.specs.Calls.{refused, check_schema, check_mapping, check_instance, path_question, path_chain, delta_tables, sigma_tables, pi_tables, sheet_of, check_pushed, check_raw, pushed_to_raw, raw_to_pushed, in_tray};
ghost use Rattle.migration.specs.Answers.{explained_of, encoded, checked, returned};
ghost use Rattle.steps.specs.Answers.{verdict_of, written_of};

use crate::Explained;
use crate::checks::{check_instance, check_mapping, check_pushed, check_raw, check_schema};
use crate::explain::path_chain;
use crate::first::first_path;
use crate::joins::pi;
use crate::migrate::{delta, sigma};
use crate::turnings::{pushed_to_raw, raw_to_pushed};
use steps::{Refusal, Verdict, Written};

// A refusal as a number.
pub fn refusal_number(refusal: Refusal) -> u64
    ensures { result ≡ encoded (refused refusal.number refusal.place) }
{
    4294967296 + 256 * u64::from(refusal.number) + u64::from(refusal.place)
}

// A verdict as a number.
fn verdict_number(verdict: Verdict) -> u64
    ensures { result ≡ encoded (checked (verdict_of verdict)) }
{
    match verdict {
        Ok(()) => 0,
        Err(refusal) => refusal_number(refusal),
    }
}

// The answer to which steps lead from one path to another as a number.
fn explained_number(answer: Explained) -> u64
    ensures { result ≡ encoded (explained_of answer) }
{
    match answer {
        Ok(Some(n)) => n as u64,
        Ok(None) => 0,
        Err(refusal) => refusal_number(refusal),
    }
}

// A byte length or a refusal as a number.
pub fn written_number(written: Written) -> u64
    ensures { result ≡ encoded (written_of written) }
{
    match written {
        Ok(n) => n as u64,
        Err(refusal) => refusal_number(refusal),
    }
}

#[unsafe(no_mangle)]
pub extern "C" fn migration_check_schema(s: &[u8]) -> u64
    ensures { result ≡ encoded (checked (check_schema s.now)) }
{
    verdict_number(check_schema(s))
}

#[unsafe(no_mangle)]
pub extern "C" fn migration_check_mapping(s: &[u8], t: &[u8], f: &[u8]) -> u64
    ensures { result ≡ encoded (checked (check_mapping s.now t.now f.now)) }
{
    verdict_number(check_mapping(s, t, f))
}

#[unsafe(no_mangle)]
pub extern "C" fn migration_check_instance(s: &[u8], i: &[u8]) -> u64
    ensures { result ≡ encoded (checked (check_instance s.now i.now)) }
{
    verdict_number(check_instance(s, i))
}

#[unsafe(no_mangle)]
pub extern "C" fn migration_first_path(s: &[u8], p: &[u8], tray: &mut [u8]) -> u64
    ensures { (result, tray.new) ≡ returned (in_tray tray.old (path_question s.now p.now)) }
{
    written_number(first_path(s, p, tray))
}

#[unsafe(no_mangle)]
pub extern "C" fn migration_path_chain(s: &[u8], p: &[u8], q: &[u8], tray: &mut [u8]) -> u64
    ensures { (result, tray.new) ≡ returned (in_tray tray.old (path_chain s.now p.now q.now)) }
{
    explained_number(path_chain(s, p, q, tray))
}

#[unsafe(no_mangle)]
pub extern "C" fn migration_delta(s: &[u8], t: &[u8], f: &[u8], j: &[u8], tray: &mut [u8]) -> u64
    ensures { (result, tray.new) ≡ returned (in_tray tray.old (sheet_of (delta_tables s.now t.now f.now j.now))) }
{
    written_number(delta(s, t, f, j, tray))
}

#[unsafe(no_mangle)]
pub extern "C" fn migration_sigma(s: &[u8], t: &[u8], f: &[u8], i: &[u8], tray: &mut [u8]) -> u64
    ensures { (result, tray.new) ≡ returned (in_tray tray.old (sheet_of (sigma_tables s.now t.now f.now i.now))) }
{
    written_number(sigma(s, t, f, i, tray))
}

#[unsafe(no_mangle)]
pub extern "C" fn migration_pi(s: &[u8], t: &[u8], f: &[u8], i: &[u8], tray: &mut [u8]) -> u64
    ensures { (result, tray.new) ≡ returned (in_tray tray.old (sheet_of (pi_tables s.now t.now f.now i.now))) }
{
    written_number(pi(s, t, f, i, tray))
}

#[unsafe(no_mangle)]
pub extern "C" fn migration_check_pushed(
    s: &[u8],
    t: &[u8],
    f: &[u8],
    run: &[u8],
    book: &[u8],
    list: &[u8],
) -> u64
    ensures { result ≡ encoded (checked (check_pushed s.now t.now f.now run.now book.now list.now)) }
{
    verdict_number(check_pushed(s, t, f, run, book, list))
}

#[unsafe(no_mangle)]
pub extern "C" fn migration_check_raw(
    s: &[u8],
    t: &[u8],
    f: &[u8],
    run: &[u8],
    book: &[u8],
    list: &[u8],
) -> u64
    ensures { result ≡ encoded (checked (check_raw s.now t.now f.now run.now book.now list.now)) }
{
    verdict_number(check_raw(s, t, f, run, book, list))
}

#[unsafe(no_mangle)]
pub extern "C" fn migration_pushed_to_raw(
    s: &[u8],
    t: &[u8],
    f: &[u8],
    run: &[u8],
    book: &[u8],
    list: &[u8],
    tray: &mut [u8],
) -> u64
    ensures { (result, tray.new) ≡ returned (in_tray tray.old (pushed_to_raw s.now t.now f.now run.now book.now list.now)) }
{
    written_number(pushed_to_raw(s, t, f, run, book, list, tray))
}

#[unsafe(no_mangle)]
pub extern "C" fn migration_raw_to_pushed(
    s: &[u8],
    t: &[u8],
    f: &[u8],
    run: &[u8],
    book: &[u8],
    list: &[u8],
    tray: &mut [u8],
) -> u64
    ensures { (result, tray.new) ≡ returned (in_tray tray.old (raw_to_pushed s.now t.now f.now run.now book.now list.now)) }
{
    written_number(raw_to_pushed(s, t, f, run, book, list, tray))
}
