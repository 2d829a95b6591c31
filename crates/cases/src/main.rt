// The program cases: reads calls with their sheets and tray lengths, makes each call, and prints its answer and a checksum of each tray.
// docs/TESTS.md has the form of a record and of a line.
#![tactic(auto)]

mod calls;

ghost use Rattle.std.specs.Prelude.{◌≡◌, ◌+◌, ◌≤◌, ◌<◌, length, IfOk};

use calls::{Asked, Call, Change, Sheets, answer, changed};
use std::io;
use text::framing::{bytes_of, length_at, sheet_at};

// The checksum's modulus.
const MODULUS: u64 = 4294967291;

// Every byte of a tray before the call.
const UNWRITTEN: u8 = 165;

// Room for every tray, whose length is a 16-bit number.
const TRAY: usize = 65536;

// At most so many bytes are read.
const INPUT: usize = 655360;

// The checksum of a tray.
fn checksum(tray: &[u8]) -> u64 {
    tray.iter().fold(0, |sum, byte| {
        (sum % MODULUS * 257 + u64::from(*byte) + 1) % MODULUS
    })
}

// Makes a call, and prints its answer and the checksum of the tray on a line.
fn put_answer(rt: &impl Print, call: Call, sheets: Sheets<'_>, tray: &mut [u8]) -> io::Result<()> {
    let answer = answer(call, sheets, tray);
    let sum = checksum(tray);
    println!(rt; "{answer} {sum}")
}

// Makes a change, in a copy of the run's tray, and prints its answer, the checksum of the pushed tray and that of the run's tray on a line.
fn put_change(
    rt: &impl Print,
    change: Change,
    sheets: Sheets<'_>,
    pushed: &mut [u8],
) -> io::Result<()> {
    let lent = sheets[3];
    let mut copy = [UNWRITTEN; TRAY];
    let n = lent.len().min(TRAY);
    let run = &mut copy[..n];
    run.copy_from_slice(&lent[..n]);
    let answer = changed(change, sheets, run, pushed);
    let pushed_sum = checksum(pushed);
    let run_sum = checksum(run);
    println!(rt; "{answer} {pushed_sum} {run_sum}")
}

// Makes the call of the record at a position; gives where the next one stands.
fn make_call(rt: &impl Print, input: &[u8], at: usize) -> io::Result<usize>
    requires { at < length input.now }
    ensures { IfOk result (λ next. at < next) }
{
    let mut sheets: Sheets<'_> = [input; 8];
    let mut next = at + 1;
    for sheet in sheets.iter_mut() {
        let part = sheet_at(input, next);
        *sheet = bytes_of(input, part);
        next = part.end;
    }
    if input.len() - next < 2 {
        return Ok(input.len());
    }
    let room = length_at(input, next);
    let mut tray = [UNWRITTEN; TRAY];
    match Asked::from(input[at]) {
        Asked::Call(call) => put_answer(rt, call, sheets, &mut tray[..room])?,
        Asked::Change(change) => put_change(rt, change, sheets, &mut tray[..room])?,
    }
    Ok(next + 2)
}

// Makes the call of each record.
fn make_calls(rt: &impl Print, input: &[u8]) -> io::Result<()> {
    let mut at = 0;
    while at < input.len() {
        at = make_call(rt, input, at)?;
    }
    Ok(())
}

// The input before it is read.
fn unread() -> [u8; INPUT]
    ensures { 655360 ≡ length result }
{
    [0; INPUT]
}

fn main(rt: HostRuntime) -> io::Result<()> {
    let mut input = unread();
    let mut stdin = rt.stdin();
    let n = input::read_full(&mut stdin, &mut input)?;
    make_calls(&rt, &input[..n])
}
