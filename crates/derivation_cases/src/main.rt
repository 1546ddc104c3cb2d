// The derivations of document 01's cases 2, 4, 5, 7 and 11, other orders, and the smallest examples of its numbers 9 to 11 and
// 20 to 26.
#![tactic(auto)]

use calculus::{Kind, Verdict};
use checker::NotPassed;
use print::{Hexadecimal, Refused};
use std::io;
use writer::{NotWritten, Written};

const BUDGET: u64 = 1000000;

// One line: what the checker answers.
fn check(rt: &impl Print, q: &[u8], derivation: &[u8]) -> io::Result<()> {
    match checker::check(q, derivation) {
        Ok(()) => println!(rt; "passes"),
        Err(NotPassed::Refused(r)) => print!(rt; "{}", Refused(r)),
        Err(NotPassed::Faulty(f)) => println!(rt; "faulty {} {}", f.number(), f.place()),
    }
}

// A verdict with no derivation: its number, the state of a refuted question, and both counts.
fn unproved(rt: &impl Print, v: Verdict) -> io::Result<()> {
    let Verdict {
        kind,
        reductions,
        closings,
    } = v;
    match kind {
        Kind::Theorem => println!(rt; "theorem {reductions} {closings}"),
        Kind::Spent => println!(rt; "spent 9 {reductions} {closings}"),
        Kind::Refuted(state) => println!(rt; "not proved 10 {state} {reductions} {closings}"),
    }
}

// One line: what the writer answered. Numbers are text here, apart from the code that gives them.
fn answer(rt: &impl Print, a: Result<Written, NotWritten>) -> io::Result<()> {
    match a {
        Ok(w) => println!(rt;
            "written {} {} {}",
            w.length, w.verdict.reductions, w.verdict.closings
        ),
        Err(NotWritten::Refused(r)) => print!(rt; "{}", Refused(r)),
        Err(NotWritten::NotProved(v)) => unproved(rt, v),
        Err(NotWritten::NoSpace(n)) => println!(rt; "no space 11 {n}"),
    }
}

// The writer's answer, and what the lent buffer holds after it.
fn lend(rt: &impl Print, q: &[u8], budget: u64, buffer: &mut [u8]) -> io::Result<()> {
    answer(rt, writer::derive(q, budget, buffer))?;
    println!(rt; "buffer {}", Hexadecimal(buffer))
}

// The writer's answer, and the derivation with what the checker says of it.
fn derive(rt: &impl Print, q: &[u8], buffer: &mut [u8]) -> io::Result<()> {
    let a = writer::derive(q, BUDGET, buffer);
    answer(rt, a)?;
    if let Ok(written) = a {
        let derivation = &buffer[..written.length as usize];
        println!(rt; "{}", Hexadecimal(derivation))?;
        check(rt, q, derivation)?;
    }
    Ok(())
}

// Cases 2, 4, 5, 7 and 11.
fn cases(rt: &impl Print) -> io::Result<()> {
    let mut buffer = [0u8; 4096];
    derive(rt, b"\x10\x01\x01\x00\x20\x01\x01\x00", &mut buffer)?;
    derive(
        rt,
        b"\x10\x01\x02\x04\x01\x00\x01\x01\x20\x01\x02\x01\x00",
        &mut buffer,
    )?;
    derive(
        rt,
        b"\x10\x00\x20\x01\x05\x03\x02\x01\x00\x02\x01\x01\x06\x01\x00\x01\x01",
        &mut buffer,
    )?;
    derive(rt, b"\x10\x00\x20\x01\x06\x01\x00\x01\x00", &mut buffer)?;
    derive(
        rt,
        b"\x10\x01\x03\x01\x00\x01\x01\x20\x01\x03\x01\x00\x01\x01",
        &mut buffer,
    )
}

// Case 4 reduced in other orders than ours: the formula on the right first, and the place behind it first.
fn other_orders(rt: &impl Print) -> io::Result<()> {
    let q = b"\x10\x01\x02\x04\x01\x00\x01\x01\x20\x01\x02\x01\x00";
    check(rt, q, b"\x62\x00\x52\x00\x64\x00\x41\x00")?;
    check(rt, q, b"\x52\x00\x64\x01\x62\x00\x41\x00")
}

// 20 to 26. The empty sequent is the smallest question; 23 asks for a formula, and 25 for a theorem.
fn faults(rt: &impl Print) -> io::Result<()> {
    let empty = b"\x10\x00\x20\x00";
    check(rt, empty, b"")?;
    check(rt, empty, b"\x00\x00")?;
    check(rt, empty, b"\x52\x00")?;
    check(rt, empty, b"\x62\x00")?;
    check(rt, b"\x10\x01\x01\x00\x20\x00", b"\x52\x00")?;
    check(rt, b"\x10\x00\x20\x01\x01\x00", b"\x62\x00")?;
    check(rt, b"\x10\x01\x02\x01\x00\x20\x00", b"\x53\x00")?;
    check(rt, empty, b"\x41\x00")?;
    check(rt, b"\x10\x01\x01\x00\x20\x00", b"\x41\x00")?;
    check(rt, b"\x10\x01\x01\x00\x20\x01\x01\x00", b"\x41\x00\x41")?;
    check(rt, b"", b"\x41\x00")
}

// Case 11 by the table alone; then the faults at 42: cut short, no formula at either place, bytes left over, and the two
// formulas letters, and different.
fn pairs(rt: &impl Print) -> io::Result<()> {
    let q = b"\x10\x01\x03\x01\x00\x01\x01\x20\x01\x03\x01\x00\x01\x01";
    check(rt, q, b"\x53\x00\x63\x00\x41\x00\x41\x01")?;
    check(rt, q, b"\x42")?;
    check(rt, q, b"\x42\x00")?;
    check(rt, q, b"\x42\x01\x00")?;
    check(rt, q, b"\x42\x00\x01")?;
    check(rt, q, b"\x42\x00\x00\x42")?;
    check(rt, b"\x10\x01\x01\x00\x20\x01\x01\x00", b"\x42\x00\x00")?;
    check(
        rt,
        b"\x10\x01\x02\x01\x00\x20\x01\x02\x01\x01",
        b"\x42\x00\x00",
    )
}

// Case 7, with the second premise at fault: its place is behind the first's derivation.
fn second_premise(rt: &impl Print) -> io::Result<()> {
    let q = b"\x10\x00\x20\x01\x06\x01\x00\x01\x00";
    check(rt, q, b"\x66\x00\x41\x00")?;
    check(rt, q, b"\x66\x00\x41\x00\x41\x01")
}

// Cases 9 and 10, by their budgets.
fn failing(rt: &impl Print, budget: u64, buffer: &mut [u8]) -> io::Result<()> {
    let q =
        b"\x10\x00\x20\x01\x05\x03\x05\x01\x00\x04\x01\x01\x01\x02\x05\x01\x02\x01\x03\x05\x03\x01\x00\x01\x01\x01\x03";
    lend(rt, q, budget, buffer)
}

// 9 to 11 and a refused question: the buffer keeps its content. Then a derivation with space behind it.
fn unwritten(rt: &impl Print) -> io::Result<()> {
    let mut buffer = [0xeeu8; 4];
    lend(rt, b"\x10\x01\x02\x01\x00\x20\x00", 0, &mut buffer)?;
    lend(rt, b"\x10\x00\x20\x00", BUDGET, &mut buffer)?;
    failing(rt, 7, &mut buffer)?;
    failing(rt, 8, &mut buffer)?;
    lend(
        rt,
        b"\x10\x00\x20\x01\x06\x01\x00\x01\x00",
        BUDGET,
        &mut buffer,
    )?;
    lend(rt, b"", BUDGET, &mut buffer)?;
    lend(rt, b"\x10\x01\x01\x00\x20\x01\x01\x00", 0, &mut buffer)
}

// Letter 63 closes, letter 31 does not, and a state has bit 63.
fn highest_letter(rt: &impl Print) -> io::Result<()> {
    let mut buffer = [0u8; 4096];
    let q = b"\x10\x01\x01\x3f\x20\x01\x01\x3f";
    derive(rt, q, &mut buffer)?;
    check(rt, q, b"\x41\x1f")?;
    let mut four = [0xeeu8; 4];
    lend(rt, b"\x10\x01\x01\x3f\x20\x00", BUDGET, &mut four)
}

fn main(rt: HostRuntime) -> io::Result<()> {
    cases(&rt)?;
    other_orders(&rt)?;
    faults(&rt)?;
    pairs(&rt)?;
    second_premise(&rt)?;
    unwritten(&rt)?;
    highest_letter(&rt)
}
