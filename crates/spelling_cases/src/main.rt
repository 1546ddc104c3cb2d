// The standard spellings worked out by hand (`spellings` of calculus), sides of 16, buffers around the length, refused
// questions, and the spelling of a spelling. A buffer holds 99 where nothing is written.
#![tactic(auto)]

use print::{Hexadecimal, Refused};
use spelling::NotSpelled;
use std::io;

// One line: what the call answered. Numbers are text here, apart from the code that gives them.
fn answer(rt: &impl Print, a: Result<usize, NotSpelled>) -> io::Result<()> {
    match a {
        Ok(n) => println!(rt; "spelled {n}"),
        Err(NotSpelled::Refused(r)) => print!(rt; "{}", Refused(r)),
        Err(NotSpelled::NoSpace(n)) => println!(rt; "no space 11 {n}"),
    }
}

// What the call answers, and what the lent buffer holds after it.
fn lend(rt: &impl Print, q: &[u8], buffer: &mut [u8]) -> io::Result<()> {
    answer(rt, spelling::spell(q, buffer))?;
    if buffer.is_empty() {
        return println!(rt; "buffer");
    }
    println!(rt; "buffer {}", Hexadecimal(buffer))
}

// A buffer of 16 bytes.
fn spell(rt: &impl Print, q: &[u8]) -> io::Result<()> {
    let mut buffer = [0x99u8; 16];
    lend(rt, q, &mut buffer)
}

// No formulas; both sides in another order; equal formulas once on each side, with the counts lowered; the first byte that
// differs and not the last; six bytes before five; P OR Q twice.
fn cases(rt: &impl Print) -> io::Result<()> {
    spell(rt, b"\x10\x00\x20\x00")?;
    spell(rt, b"\x10\x02\x01\x02\x01\x01\x20\x02\x01\x04\x01\x03")?;
    spell(
        rt,
        b"\x10\x03\x01\x02\x01\x01\x01\x02\x20\x02\x01\x02\x01\x02",
    )?;
    spell(
        rt,
        b"\x10\x02\x03\x01\x05\x01\x01\x03\x01\x04\x01\x09\x20\x00",
    )?;
    spell(
        rt,
        b"\x10\x02\x03\x01\x00\x01\x01\x02\x02\x02\x02\x01\x00\x20\x00",
    )?;
    spell(
        rt,
        b"\x10\x02\x04\x01\x00\x01\x01\x04\x01\x00\x01\x01\x20\x00",
    )
}

// Sixteen formulas: letters 15 to 0, and letter 1 each time.
fn sixteen(rt: &impl Print) -> io::Result<()> {
    let mut buffer = [0x99u8; 40];
    lend(
        rt,
        b"\x10\x10\x01\x0f\x01\x0e\x01\x0d\x01\x0c\x01\x0b\x01\x0a\x01\x09\x01\x08\x01\x07\x01\x06\x01\x05\x01\x04\x01\x03\x01\x02\x01\x01\x01\x00\x20\x00",
        &mut buffer,
    )?;
    let mut q = [1u8; 36];
    q[0] = 0x10;
    q[1] = 16;
    q[34] = 0x20;
    q[35] = 0;
    spell(rt, &q)
}

// 11: ten bytes, beside buffers of 0, 9, 10 and 12.
fn no_space(rt: &impl Print) -> io::Result<()> {
    let q = b"\x10\x03\x01\x02\x01\x01\x01\x02\x20\x02\x01\x02\x01\x02";
    let mut none: [u8; 0] = [];
    lend(rt, q, &mut none)?;
    let mut nine = [0x99u8; 9];
    lend(rt, q, &mut nine)?;
    let mut ten = [0x99u8; 10];
    lend(rt, q, &mut ten)?;
    let mut twelve = [0x99u8; 12];
    lend(rt, q, &mut twelve)
}

// An operand that is due, letter 64 on the right, and a byte left over, which comes before 11.
fn refused(rt: &impl Print) -> io::Result<()> {
    spell(rt, b"\x10\x01\x01")?;
    spell(rt, b"\x10\x01\x01\x02\x20\x01\x01\x40")?;
    let mut none: [u8; 0] = [];
    lend(rt, b"\x10\x01\x01\x02\x20\x00\x01", &mut none)
}

// The spelling of a spelling.
fn again(rt: &impl Print, q: &[u8]) -> io::Result<()> {
    let mut buffer = [0x99u8; 16];
    if let Ok(n) = spelling::spell(q, &mut buffer)
        && let Some(spelled) = buffer.get(..n)
    {
        spell(rt, spelled)?;
    }
    Ok(())
}

fn main(rt: HostRuntime) -> io::Result<()> {
    cases(&rt)?;
    sixteen(&rt)?;
    no_space(&rt)?;
    refused(&rt)?;
    again(
        &rt,
        b"\x10\x03\x01\x02\x01\x01\x01\x02\x20\x02\x01\x02\x01\x02",
    )?;
    again(
        &rt,
        b"\x10\x02\x03\x01\x00\x01\x01\x02\x02\x02\x02\x01\x00\x20\x00",
    )
}
