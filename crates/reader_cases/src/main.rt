// Document 01's case 12, the smallest examples of its numbers 1 to 7, and the formulas of case 4's question.
#![tactic(auto)]

ghost use Rattle.std.specs.Prelude.{◌≤◌};

use calculus::Side;
use print::{Hexadecimal, Refused};
use question::Question;
use std::io;

// One line: what reading the bytes answers.
fn read(rt: &impl Print, q: &[u8]) -> io::Result<()> {
    match Question::read(q) {
        Ok(_) => println!(rt; "accepted"),
        Err(r) => print!(rt; "{}", Refused(r)),
    }
}

// 1: the one size over the longest question, whatever the bytes.
fn too_long(rt: &impl Print) -> io::Result<()> {
    let zeros = [0u8; 213];
    read(rt, &zeros)?;
    let ones = [255u8; 213];
    read(rt, &ones)
}

// 2: where the left side's command is due, and where an operand is.
fn cut(rt: &impl Print) -> io::Result<()> {
    read(rt, b"")?;
    read(rt, b"\x10")?;
    read(rt, b"\x10\x01\x01")
}

// 3: two first bytes that are not the left side's command, and a command that no formula has.
fn wrong_command(rt: &impl Print) -> io::Result<()> {
    read(rt, b"\x00")?;
    read(rt, b"\x20")?;
    read(rt, b"\x10\x01\x07")
}

// 4: 17 formulas, on the left and on the right; 16 are read.
fn many_formulas(rt: &impl Print) -> io::Result<()> {
    read(rt, b"\x10\x11")?;
    read(rt, b"\x10\xff")?;
    read(rt, b"\x10\x00\x20\x11")?;
    let mut q = [1u8; 36];
    q[0] = 0x10;
    q[1] = 16;
    q[34] = 0x20;
    q[35] = 0;
    read(rt, &q)
}

// 5: letter 64, on the left and on the right; 63 is read.
fn no_such_letter(rt: &impl Print) -> io::Result<()> {
    read(rt, b"\x10\x01\x01\x40")?;
    read(rt, b"\x10\x01\x01\xff")?;
    read(rt, b"\x10\x00\x20\x01\x01\x40")?;
    read(rt, b"\x10\x00\x20\x01\x01\x3f")
}

// 6: NOT and AND 49 times.
fn many_connectives(rt: &impl Print) -> io::Result<()> {
    let mut nots = [2u8; 51];
    nots[0] = 0x10;
    nots[1] = 1;
    read(rt, &nots)?;
    let mut ands = [3u8; 51];
    ands[0] = 0x10;
    ands[1] = 1;
    read(rt, &ands)
}

// A letter on the right under NOT, so often that the question has n bytes.
fn nots(rt: &impl Print, n: usize) -> io::Result<()>
    requires { (6 ≤ n) × (n ≤ 55) }
{
    let mut bytes = [2u8; 55];
    let q = &mut bytes[..n];
    q[..4].copy_from_slice(b"\x10\x00\x20\x01");
    q[n - 2..].copy_from_slice(b"\x01\x00");
    read(rt, q)
}

// Under 48 NOT it is read, and under 49 it is not.
fn most_connectives(rt: &impl Print) -> io::Result<()> {
    nots(rt, 54)?;
    nots(rt, 55)
}

// 7: a byte behind the empty sequent.
fn left_over(rt: &impl Print) -> io::Result<()> {
    read(rt, b"\x10\x00\x20\x00\x00")?;
    read(rt, b"\x10\x00\x20\x00\xff")?;
    read(rt, b"\x10\x00\x20\x00")
}

// The longest question: 16 formulas on a side, with 48 AND in the first.
fn longest(rt: &impl Print) -> io::Result<()> {
    let mut q = [1u8; 212];
    q[0] = 0x10;
    q[1] = 16;
    q[178] = 0x20;
    q[179] = 16;
    q[2..50].fill(3);
    read(rt, &q)
}

// One line: a side, a place, and the formula handed out there.
fn hand_out(rt: &impl Print, q: &[u8], side: Side, place: usize) -> io::Result<()> {
    let name = match side {
        Side::Left => "left",
        Side::Right => "right",
    };
    let formula = question::formula(q, side, place);
    if formula.is_empty() {
        return println!(rt; "{name} {place}: no bytes");
    }
    println!(rt; "{name} {place}: {}", Hexadecimal(formula))
}

// Case 4's question, with the place past the last on each side; then a question that is refused.
fn formulas(rt: &impl Print) -> io::Result<()> {
    let q = b"\x10\x01\x02\x04\x01\x00\x01\x01\x20\x01\x02\x01\x00";
    hand_out(rt, q, Side::Left, 0)?;
    hand_out(rt, q, Side::Left, 1)?;
    hand_out(rt, q, Side::Right, 0)?;
    hand_out(rt, q, Side::Right, 1)?;
    hand_out(rt, b"\x10\x01\x01\x00", Side::Left, 0)
}

fn main(rt: HostRuntime) -> io::Result<()> {
    too_long(&rt)?;
    cut(&rt)?;
    wrong_command(&rt)?;
    many_formulas(&rt)?;
    no_such_letter(&rt)?;
    many_connectives(&rt)?;
    most_connectives(&rt)?;
    left_over(&rt)?;
    longest(&rt)?;
    formulas(&rt)
}
