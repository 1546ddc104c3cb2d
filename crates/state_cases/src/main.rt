// The refuting states of document 01's cases 1 to 3, 6, 8 and 9, the smallest examples of numbers 11 and 12, letters that are
// not next to each other, and letters 32 and 63.
#![tactic(auto)]

use print::{Line, Refused};
use states::NotListed;
use std::io;

// One line: what the call answered. Numbers are text here, apart from the code that gives them.
fn answer(rt: &impl Print, a: Result<usize, NotListed>) -> io::Result<()> {
    match a {
        Ok(n) => println!(rt; "listed {n}"),
        Err(NotListed::Refused(r)) => print!(rt; "{}", Refused(r)),
        Err(NotListed::ManyLetters(n)) => println!(rt; "many letters 12 {n}"),
        Err(NotListed::NoSpace(n)) => println!(rt; "no space 11 {n}"),
    }
}

// What the call answers, and what the lent slice holds after it.
fn lend(rt: &impl Print, q: &[u8], list: &mut [u64]) -> io::Result<()> {
    answer(rt, states::refuting_states(q, list))?;
    let slice = Line {
        word: "slice",
        numbers: list,
    };
    print!(rt; "{slice}")
}

// Five places that hold 99.
fn list(rt: &impl Print, q: &[u8]) -> io::Result<()> {
    let mut places = [99u64; 5];
    lend(rt, q, &mut places)
}

// Cases 1, 2, 3, 6, 8 and 9.
fn cases(rt: &impl Print) -> io::Result<()> {
    list(rt, b"\x10\x00\x20\x00")?;
    list(rt, b"\x10\x01\x01\x00\x20\x01\x01\x00")?;
    list(rt, b"\x10\x01\x01\x00\x20\x01\x01\x01")?;
    list(rt, b"\x10\x01\x04\x01\x00\x01\x01\x20\x01\x01\x00")?;
    list(rt, b"\x10\x01\x06\x01\x00\x01\x00\x20\x00")?;
    list(
        rt,
        b"\x10\x00\x20\x01\x05\x03\x05\x01\x00\x04\x01\x01\x01\x02\x05\x01\x02\x01\x03\x05\x03\x01\x00\x01\x01\x01\x03",
    )
}

// 11: three states, letters 1 and 4 of OR on the left, beside slices of 0, 2 and 3 places.
fn no_space(rt: &impl Print) -> io::Result<()> {
    let q = b"\x10\x01\x04\x01\x01\x01\x04\x20\x00";
    let mut none: [u64; 0] = [];
    lend(rt, q, &mut none)?;
    let mut two = [99u64; 2];
    lend(rt, q, &mut two)?;
    let mut three = [99u64; 3];
    lend(rt, q, &mut three)?;
    list(rt, q)
}

// 12: 17 letters, which comes before 11; with 16 there is one state.
fn many_letters(rt: &impl Print) -> io::Result<()> {
    let q =
        b"\x10\x10\x01\x00\x01\x01\x01\x02\x01\x03\x01\x04\x01\x05\x01\x06\x01\x07\x01\x08\x01\x09\x01\x0a\x01\x0b\x01\x0c\x01\x0d\x01\x0e\x01\x3f\x20\x01\x01\x10";
    let mut none: [u64; 0] = [];
    lend(rt, q, &mut none)?;
    list(rt, q)?;
    list(
        rt,
        b"\x10\x10\x01\x00\x01\x01\x01\x02\x01\x03\x01\x04\x01\x05\x01\x06\x01\x07\x01\x08\x01\x09\x01\x0a\x01\x0b\x01\x0c\x01\x0d\x01\x0e\x01\x3f\x20\x00",
    )
}

// OR of letters 32 and 63 on the left.
fn high_letters(rt: &impl Print) -> io::Result<()> {
    list(rt, b"\x10\x01\x04\x01\x20\x01\x3f\x20\x00")
}

fn main(rt: HostRuntime) -> io::Result<()> {
    cases(&rt)?;
    no_space(&rt)?;
    many_letters(&rt)?;
    high_letters(&rt)?;
    list(&rt, b"\x10\x01\x01")
}
