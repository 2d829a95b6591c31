// The turnings of matchings, of lent sheets into a lent tray.
ghost use Rattle.std.specs.Prelude.{◌≡◌, ◌≤◌, length};
ghost use Rattle.meaning.specs.Formats.{matching_sheet};
ghost use Rattle.meaning.specs.Calls.{migration, written, in_tray};
ghost use Rattle.schema.specs.Decoded.{front_of};
ghost use Rattle.matching.specs.Compared.{partners_of};
ghost use Rattle.steps.specs.Answers.{lent_of};
ghost use Rattle.migration.specs.Answers.{TurnedToRaw, TurnedToPushed};
ghost use Rattle.migration.specs.Turnable.{turnable_of, turned_list, turned_side, ReadyToTurn};

use crate::matchings::{Side, match_side};
use encoding::matching::{matching_length, write_matching};
use instance::Instance;
use instance::decode::total;
use matching::turning::{to_pushed, to_raw};
use schema::faults::Fault;
use sigma::sigma_counts;
use steps::open::{Opened, open};
use steps::{Refusal, Written};

// Turns a list of partners of one side into one of the other side.
fn turn(side: Side, opened: &Opened, run: &Instance, list: &[u32], out: &mut [u32])
    requires { ReadyToTurn opened.now run.now × (512 ≤ length list.now) × (512 ≤ length out.old) }
    ensures { partners_of opened.now.source run.now out.new ≡ turned_list side (turnable_of opened.now run.now list.now) }
{
    let source = opened.source;
    let target = opened.target;
    let mapping = opened.mapping;
    let pushed = sigma_counts(source, target, mapping, *run);
    match side {
        Side::Pushed => to_raw(source, target, mapping, *run, pushed, list, out),
        Side::Raw => to_pushed(source, target, mapping, *run, pushed, list, out),
    }
}

// Writes the sheet of n partners into a tray, or leaves the tray as it is.
fn write_partners(list: &[u32], n: usize, tray: &mut [u8]) -> Written
    requires { (n ≤ 512) × (n ≤ length list.now) }
    ensures { lent_of result tray.new ≡ written tray.old (matching_sheet (front_of n list.now)) }
{
    if matching_length(n) > tray.len() {
        return Err(Refusal::of_all(Fault::SmallTray));
    }
    Ok(write_matching(tray, list, n))
}

// Writes the sheet of a turned list.
fn write_turned(
    side: Side,
    opened: &Opened,
    run: &Instance,
    list: &[u32],
    tray: &mut [u8],
) -> Written
    requires { ReadyToTurn opened.now run.now × (512 ≤ length list.now) }
    ensures { lent_of result tray.new ≡ written tray.old (matching_sheet (turned_list side (turnable_of opened.now run.now list.now))) }
{
    let mut out = [0u32; Instance::ROWS];
    turn(side, opened, run, list, &mut out);
    let rows = total(&run.counts, opened.source.graph.nodes);
    write_partners(&out, rows, tray)
}

// From one side to the other: judges the sheets of the side, and writes the turned list.
fn turn_side(
    side: Side,
    s: &[u8],
    t: &[u8],
    f: &[u8],
    run: &[u8],
    book: &[u8],
    list: &[u8],
    tray: &mut [u8],
) -> Written
    ensures { lent_of result tray.new ≡ in_tray tray.old (turned_side side (migration s.now t.now f.now) run.now book.now list.now) }
{
    let opened = open(s, t, f)?;
    let mut partners = [0u32; Instance::ROWS];
    let run = match_side(side, &opened, run, book, list, &mut partners)?;
    write_turned(side, &opened, &run, &partners, tray)
}

// From the pushed side to the raw side: writes the matching from the instance run of s to Delta of the instance book of t that corresponds to list.
// Refuses as check_pushed does, and last with 16 at place 0.
pub fn pushed_to_raw(
    s: &[u8],
    t: &[u8],
    f: &[u8],
    run: &[u8],
    book: &[u8],
    list: &[u8],
    tray: &mut [u8],
) -> Written
    ensures { TurnedToRaw s.now t.now f.now run.now book.now list.now tray.old (result, tray.new) }
{
    turn_side(Side::Pushed, s, t, f, run, book, list, tray)
}

// From the raw side to the pushed side: writes the matching from Sigma of the instance run of s to the instance book of t that corresponds to list.
// Refuses as check_raw does, and last with 16 at place 0.
pub fn raw_to_pushed(
    s: &[u8],
    t: &[u8],
    f: &[u8],
    run: &[u8],
    book: &[u8],
    list: &[u8],
    tray: &mut [u8],
) -> Written
    ensures { TurnedToPushed s.now t.now f.now run.now book.now list.now tray.old (result, tray.new) }
{
    turn_side(Side::Raw, s, t, f, run, book, list, tray)
}
