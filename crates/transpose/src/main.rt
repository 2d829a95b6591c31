// Case 3 of document 01 through the public calls: each list is checked on its side, turned to the other side, and turned back.
#![tactic(auto)]

use migration::{Refusal, Verdict, Written};
use std::io;

// The five sheets that a list of partners is about.
#[derive(Clone, Copy)]
struct Sheets<'a> {
    s: &'a [u8],
    t: &'a [u8],
    f: &'a [u8],
    run: &'a [u8],
    book: &'a [u8],
}

// The side on which a list is a matching: from Sigma of the run to the book, or from the run to Delta of the book.
#[derive(Clone, Copy, Debug, PartialEq, Eq)]
enum Side {
    Pushed,
    Raw,
}

impl Side {
    fn other(self) -> Side {
        match self {
            Side::Pushed => Side::Raw,
            Side::Raw => Side::Pushed,
        }
    }

    fn name(self) -> &'static [u8] {
        match self {
            Side::Pushed => b"pushed",
            Side::Raw => b"raw",
        }
    }

    // Whether a list is a matching of this side.
    fn check(self, x: Sheets<'_>, list: &[u8]) -> Verdict {
        match self {
            Side::Pushed => migration::check_pushed(x.s, x.t, x.f, x.run, x.book, list),
            Side::Raw => migration::check_raw(x.s, x.t, x.f, x.run, x.book, list),
        }
    }

    // A list of this side, turned into one of the other side.
    fn turn(self, x: Sheets<'_>, list: &[u8], tray: &mut [u8]) -> Written {
        match self {
            Side::Pushed => migration::pushed_to_raw(x.s, x.t, x.f, x.run, x.book, list, tray),
            Side::Raw => migration::raw_to_pushed(x.s, x.t, x.f, x.run, x.book, list, tray),
        }
    }
}

// The bytes of a list, each after a space, in hexadecimal.
fn put_bytes(rt: &impl Print, bytes: &[u8]) -> io::Result<()> {
    for byte in bytes {
        print!(rt; " {byte:02X}")?;
    }
    Ok(())
}

// A refusal: its number in two digits, and its place.
fn put_refusal(rt: &impl Print, refusal: Refusal) -> io::Result<()> {
    let number = refusal.number;
    let place = refusal.place;
    println!(rt; " refused {number:02} {place}")
}

fn put_verdict(rt: &impl Print, verdict: Verdict) -> io::Result<()> {
    match verdict {
        Ok(()) => println!(rt; " accepted"),
        Err(refusal) => put_refusal(rt, refusal),
    }
}

// A turned list, which is the bytes that were written to the tray, or the refusal. Gives the list, or no bytes.
fn put_written<'a>(rt: &impl Print, written: Written, tray: &'a [u8]) -> io::Result<&'a [u8]> {
    match written {
        Ok(n) => {
            let list = &tray[..n.min(tray.len())];
            put_bytes(rt, list)?;
            println!(rt)?;
            Ok(list)
        }
        Err(refusal) => {
            put_refusal(rt, refusal)?;
            Ok(&tray[..0])
        }
    }
}

// A list of a side, turned to the other side and back.
fn there_and_back(rt: &impl Print, side: Side, x: Sheets<'_>, list: &[u8]) -> io::Result<()> {
    let mut turned = [0u8; 8];
    let mut back = [0u8; 8];
    rt.write_all(side.name())?;
    put_bytes(rt, list)?;
    put_verdict(rt, side.check(x, list))?;
    rt.write_all(b"turned")?;
    let there = side.turn(x, list, &mut turned);
    let result = put_written(rt, there, &turned)?;
    if result.is_empty() {
        return Ok(());
    }
    rt.write_all(b"back")?;
    let again = side.other().turn(x, result, &mut back);
    put_written(rt, again, &back)?;
    Ok(())
}

// The two matchings 2 0 1 0 1 (pushed) and 2 0 0 1 1 (raw), and each as a list of the other side, which it is not.
fn main(rt: HostRuntime) -> io::Result<()> {
    let x = Sheets {
        s: b"\x18\x42\x00\x04\x84\x04\x84",
        t: b"\x10\x21\x00\x04\x04",
        f: b"\x01\x01\x00\x80\x00",
        run: b"\x00\x80\x20\x04\x02\x00\x00\x80\x00\x01\x5E\x00\x00\x00\x96\x00\x00\x01\x60\x80",
        book: b"\x00\xC0\x20\x00\x04\x02\x00\x00\x02\x58\x00\x00\x05\x82\x00\x00\x05\x78",
    };
    let pushed = b"\x01\x00\x00\x20\x00\x08";
    let raw = b"\x01\x00\x00\x00\x10\x08";
    there_and_back(&rt, Side::Pushed, x, pushed)?;
    there_and_back(&rt, Side::Raw, x, raw)?;
    there_and_back(&rt, Side::Pushed, x, raw)?;
    there_and_back(&rt, Side::Raw, x, pushed)
}
