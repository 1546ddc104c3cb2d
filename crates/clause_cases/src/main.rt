// The questions of the clause profile worked out by hand (`rulings` of calculus), eight clauses in a chain from the last
// and from the first, numbers 13 to 15 in their order, and refused questions.
#![tactic(auto)]

use calculus::ClauseVerdict;
use clauses::NotClauses;
use print::Refused;
use std::io;

// One line: what the call answers. Numbers are text here, apart from the code that gives them.
fn ask(rt: &impl Print, q: &[u8]) -> io::Result<()> {
    match clauses::decide_clauses(q) {
        Ok(ClauseVerdict::Theorem(rounds)) => println!(rt; "theorem {rounds}"),
        Ok(ClauseVerdict::Refuted(state, rounds)) => println!(rt; "refuted {state} {rounds}"),
        Err(NotClauses::Refused(r)) => print!(rt; "{}", Refused(r)),
        Err(NotClauses::RightFormula(at)) => println!(rt; "right formula 13 {at}"),
        Err(NotClauses::NotClause(at)) => println!(rt; "not clause 14 {at}"),
        Err(NotClauses::ManyPositive(at)) => println!(rt; "many positive 15 {at}"),
    }
}

// No formulas; P; letter 63; P and NOT P; NOT P OR NOT Q; P, NOT P OR Q, NOT Q OR R, and the same from the last; P, Q,
// NOT P OR (R OR NOT Q) with NOT R OR NOT S, and with NOT R; the example of source document 001.
fn cases(rt: &impl Print) -> io::Result<()> {
    ask(rt, b"\x10\x00\x20\x00")?;
    ask(rt, b"\x10\x01\x01\x00\x20\x00")?;
    ask(rt, b"\x10\x01\x01\x3f\x20\x00")?;
    ask(rt, b"\x10\x02\x01\x00\x02\x01\x00\x20\x00")?;
    ask(rt, b"\x10\x01\x04\x02\x01\x00\x02\x01\x01\x20\x00")?;
    ask(
        rt,
        b"\x10\x03\x01\x00\x04\x02\x01\x00\x01\x01\x04\x02\x01\x01\x01\x02\x20\x00",
    )?;
    ask(
        rt,
        b"\x10\x03\x04\x02\x01\x01\x01\x02\x04\x02\x01\x00\x01\x01\x01\x00\x20\x00",
    )?;
    ask(
        rt,
        b"\x10\x04\x01\x00\x01\x01\x04\x02\x01\x00\x04\x01\x02\x02\x01\x01\x04\x02\x01\x02\x02\x01\x03\x20\x00",
    )?;
    ask(
        rt,
        b"\x10\x04\x01\x00\x01\x01\x04\x02\x01\x00\x04\x01\x02\x02\x01\x01\x02\x01\x02\x20\x00",
    )?;
    ask(
        rt,
        b"\x10\x04\x04\x02\x01\x00\x04\x02\x01\x01\x01\x02\x04\x02\x01\x00\x01\x01\x01\x00\x02\x01\x02\x20\x00",
    )
}

// A chain of eight clauses from the last and from the first: a letter a round.
fn chains(rt: &impl Print) -> io::Result<()> {
    ask(
        rt,
        b"\x10\x08\x04\x02\x01\x06\x01\x07\x04\x02\x01\x05\x01\x06\x04\x02\x01\x04\x01\x05\x04\x02\x01\x03\x01\x04\x04\x02\x01\x02\x01\x03\x04\x02\x01\x01\x01\x02\x04\x02\x01\x00\x01\x01\x01\x00\x20\x00",
    )?;
    ask(
        rt,
        b"\x10\x08\x01\x00\x04\x02\x01\x00\x01\x01\x04\x02\x01\x01\x01\x02\x04\x02\x01\x02\x01\x03\x04\x02\x01\x03\x01\x04\x04\x02\x01\x04\x01\x05\x04\x02\x01\x05\x01\x06\x04\x02\x01\x06\x01\x07\x20\x00",
    )
}

// 13: the right side has a formula, before 14. 14: the second formula is NOT NOT Q. 15: the second is P OR P. 14 before 15
// in one formula, and an earlier 15 before a later 14.
fn outside(rt: &impl Print) -> io::Result<()> {
    ask(rt, b"\x10\x01\x01\x00\x20\x01\x01\x00")?;
    ask(rt, b"\x10\x01\x02\x02\x01\x01\x20\x01\x01\x00")?;
    ask(rt, b"\x10\x02\x01\x00\x02\x02\x01\x01\x20\x00")?;
    ask(rt, b"\x10\x02\x01\x00\x04\x01\x00\x01\x00\x20\x00")?;
    ask(
        rt,
        b"\x10\x01\x04\x04\x01\x00\x01\x00\x02\x02\x01\x01\x20\x00",
    )?;
    ask(rt, b"\x10\x02\x04\x01\x00\x01\x00\x02\x02\x01\x01\x20\x00")
}

// A question that ends too early, one with letter 64, and one with a byte left over behind a 14 and a 13.
fn main(rt: HostRuntime) -> io::Result<()> {
    cases(&rt)?;
    chains(&rt)?;
    outside(&rt)?;
    ask(&rt, b"\x10\x01\x02")?;
    ask(&rt, b"\x10\x01\x01\x40\x20\x00")?;
    ask(&rt, b"\x10\x01\x02\x02\x01\x01\x20\x01\x01\x00\x00")
}
