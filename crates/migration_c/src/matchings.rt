// Matchings: checked on either side, and turned from one side to the other.
ghost use Rattle.std.specs.Prelude.{◌≡◌};
ghost use Rattle.meaning.specs.Calls.{check_pushed, check_raw, pushed_to_raw, raw_to_pushed, in_tray};
ghost use Rattle.migration.specs.Answers.{encoded, checked, returned};

#[unsafe(no_mangle)]
pub extern "C" fn migration_check_pushed(
    s: &[u8],
    t: &[u8],
    f: &[u8],
    run: &[u8],
    book: &[u8],
    list: &[u8],
) -> u64
    ensures { result ≡ encoded (checked (check_pushed s.now t.now f.now run.now book.now list.now)) }
{
    migration::exports::migration_check_pushed(s, t, f, run, book, list)
}

#[unsafe(no_mangle)]
pub extern "C" fn migration_check_raw(
    s: &[u8],
    t: &[u8],
    f: &[u8],
    run: &[u8],
    book: &[u8],
    list: &[u8],
) -> u64
    ensures { result ≡ encoded (checked (check_raw s.now t.now f.now run.now book.now list.now)) }
{
    migration::exports::migration_check_raw(s, t, f, run, book, list)
}

#[unsafe(no_mangle)]
pub extern "C" fn migration_pushed_to_raw(
    s: &[u8],
    t: &[u8],
    f: &[u8],
    run: &[u8],
    book: &[u8],
    list: &[u8],
    tray: &mut [u8],
) -> u64
    ensures { (result, tray.new) ≡ returned (in_tray tray.old (pushed_to_raw s.now t.now f.now run.now book.now list.now)) }
{
    migration::exports::migration_pushed_to_raw(s, t, f, run, book, list, tray)
}

#[unsafe(no_mangle)]
pub extern "C" fn migration_raw_to_pushed(
    s: &[u8],
    t: &[u8],
    f: &[u8],
    run: &[u8],
    book: &[u8],
    list: &[u8],
    tray: &mut [u8],
) -> u64
    ensures { (result, tray.new) ≡ returned (in_tray tray.old (raw_to_pushed s.now t.now f.now run.now book.now list.now)) }
{
    migration::exports::migration_raw_to_pushed(s, t, f, run, book, list, tray)
}
