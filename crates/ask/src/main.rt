// Decides the question on standard input, and prints its verdict and a theorem's derivation.
#![tactic(auto)]

ghost use Rattle.std.specs.Prelude.{◌≡◌, [], ◌++◌, ◌+◌, ◌*◌, ◌<◌, ◌≤◌, length, IfOk};
ghost use Rattle.std.specs.Io.KnownBytes.{Consumes, IsAtEnd};
ghost use Rattle.calculus.specs.Bytes.{question};
ghost use Rattle.calculus.specs.Derivation.{derivation};
ghost use Rattle.calculus.specs.Tree.{verdict};
ghost use Rattle.ask.specs.Output as defined;
ghost use Rattle.ask.specs.Output.{derivation_line, verdict_text, ask_text};

use arrayvec::ArrayVec;
use calculus::{Kind, Verdict};
use print::{put_bytes, put_line, put_refused, put_word};
use question::Question;
use std::io;
use std::io::Read;

// The four constants stand in specs/Output.antt, too: the clauses name those, as `defined.INPUT`.

// The bytes read: those of the longest question, and one more.
const INPUT: usize = question::LONGEST_QUESTION + 1;

const BUDGET: u64 = 1000000;

// The bytes of the derivation's buffer.
const BUFFER: usize = 4096;

// The bytes of the longest text: a line of a word and four numbers, and the derivation's.
const TEXT: usize = 100 + 3 * BUFFER;

// What is printed, in fixed memory: there is room for every text, so that none fails for want of memory.
type Text = ArrayVec<u8, TEXT>;

// A theorem's second line, behind the first: its derivation in hexadecimal, or `no space`.
fn put_derivation(q: Question<'_>, out: &mut Text)
    requires theorem { (verdict defined.BUDGET (question q.bytes.now)).kind ≡ Kind.Theorem }
    requires room { length out.old.items + 3 * defined.BUFFER + 9 ≤ defined.TEXT }
    ensures { out.new.items ≡ out.old.items ++ derivation_line (derivation (question q.entry.bytes.now)) }
{
    let mut buffer = [0u8; BUFFER];
    match writer::derive(q.bytes, BUDGET, &mut buffer) {
        Ok(written) => put_bytes(&buffer[..written.length as usize], out),
        Err(_) => put_word(b"no space\n", out),
    }
}

// The text for an accepted question, by its verdict and its width.
fn put_verdict(q: Question<'_>, v: Verdict, width: u64, out: &mut Text)
    requires { (v ≡ verdict defined.BUDGET (question q.bytes.now)) × (out.old.items ≡ []) }
    ensures { out.new.items
        ≡ verdict_text v.kind v.reductions v.closings width (derivation (question q.entry.bytes.now)) }
{
    let Verdict {
        kind,
        reductions,
        closings,
    } = v;
    match kind {
        Kind::Theorem => {
            put_line(b"theorem", &[reductions, closings, width], out);
            put_derivation(q, out);
        }
        Kind::Refuted(state) => put_line(b"refuted", &[state, reductions, closings, width], out),
        Kind::Spent => put_line(b"spent", &[reductions, closings, width], out),
    }
}

// The text for a question.
fn text(q: &[u8], out: &mut Text)
    requires { out.old.items ≡ [] }
    ensures { out.new.items ≡ ask_text q.now }
{
    match Question::read(q) {
        Ok(question) => {
            let verdict = prover::verdict_of(question, BUDGET);
            let width = width::width(q).unwrap().width;
            put_verdict(question, verdict, width, out);
        }
        Err(r) => put_refused(r, out),
    }
}

// Zeros for the bytes read. Its `ensures` ties their number to the definition.
fn input() -> [u8; INPUT]
    ensures { defined.INPUT ≡ length result }
{
    [0; INPUT]
}

// Reads until the buffer is full or the input ends; answers the part of the buffer that was read. Over `take` and `read_to_end`
// the proof doesn't close: std says neither that no more comes than was asked for, nor what the reader then has left.
fn read_full<'a, R: Read>(from: &mut R, buffer: &'a mut [u8]) -> io::Result<&'a [u8]>
    ensures fits { IfOk result (λ q. length q.now ≤ length buffer.old) }
    ensures bytes { IfOk result (λ q. Consumes (R.remaining from.old) (R.remaining from.new) q.now) }
    ensures end { IfOk result (λ q. length q.now < length buffer.old → IsAtEnd (R.remaining from.new)) }
{
    let mut done = 0;
    while done < buffer.len() {
        let n = from.read(&mut buffer[done..])?;
        if n == 0 {
            return Ok(&buffer[..done]);
        }
        done += n;
    }
    Ok(buffer)
}

fn main(rt: HostRuntime) -> io::Result<()> {
    let mut buffer = input();
    let q = read_full(&mut rt.stdin(), &mut buffer)?;
    let mut out = Text::new();
    text(q, &mut out);
    rt.write_all(out.as_slice())
}

#[cfg(test)]
mod tests {
    use super::*;
    use std::test::Fail;

    // Each form of line once; document 01's case 4 is the program's own stored output.
    #[test]
    fn has_memory(rt: HostRuntime) -> Result<(), Fail> {
        let mut refuted = Text::new();
        text(b"\x10\x00\x20\x00", &mut refuted);
        assert!(rt; refuted.as_slice() == b"refuted 0 0 0 1\n".as_slice());
        let mut refused = Text::new();
        text(b"\x10", &mut refused);
        assert!(rt; refused.as_slice() == b"refused 2 1\n".as_slice());
        Ok(())
    }
}
