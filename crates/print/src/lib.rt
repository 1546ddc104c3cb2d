// What the programs print: a line of a word and numbers, bytes in hexadecimal, and the line of a refusal; by `Display`, and behind
// a text in fixed memory.
#![tactic(auto)]

ghost use Rattle.std.specs.Prelude.{◌≡◌, [], ◌∷◌, ◌++◌, ◌+◌, ◌*◌, ◌/◌, ◌%◌, ◌≤◌, ◌<◌, Some, codes, length, false};
ghost use Rattle.std.specs.Fmt.{digit_glyph};
ghost use Rattle.question.specs.Answers.{number_of, place_of};
ghost use Rattle.print.specs.Text.{blank, newline, decimal, line, spelled, hexadecimal};

use arrayvec::ArrayVec;
use question::Refusal;
use std::fmt;

// A line: a word, and numbers in decimal behind it, a blank before each.
#[derive(Clone, Copy)]
pub struct Line<'a> {
    pub word: &'a str,
    pub numbers: &'a [u64],
}

impl fmt::Display for Line<'_> {
    ghost output = { λ l. Some (line l.word.now l.numbers.now) };

    fn fmt<W: fmt::Write>(&self, f: &mut fmt::Formatter<W>) -> fmt::Result {
        f.write_str(self.word)?;
        for &n in self.numbers {
            write!(f, " {n}")?;
        }
        f.write_str("\n")
    }
}

// Bytes in hexadecimal, parted by blanks.
#[derive(Clone, Copy)]
pub struct Hexadecimal<'a>(pub &'a [u8]);

impl fmt::Display for Hexadecimal<'_> {
    ghost output = { λ h. Some (hexadecimal h.0.now) };

    fn fmt<W: fmt::Write>(&self, f: &mut fmt::Formatter<W>) -> fmt::Result {
        let &[first, ref rest @ ..] = self.0 else {
            return Ok(());
        };
        write!(f, "{first:02x}")?;
        for &b in rest {
            write!(f, " {b:02x}")?;
        }
        Ok(())
    }
}

// The line `refused n p`: a refusal's number and place.
#[derive(Clone, Copy)]
pub struct Refused(pub Refusal);

impl fmt::Display for Refused {
    ghost output = { λ r. Some (line (codes "refused") (number_of r.0 ∷ place_of r.0 ∷ [])) };

    fn fmt<W: fmt::Write>(&self, f: &mut fmt::Formatter<W>) -> fmt::Result {
        let numbers = [self.0.number() as u64, self.0.place() as u64];
        let line = Line {
            word: "refused",
            numbers: &numbers,
        };
        line.fmt(f)
    }
}

// ---- the same behind a text in fixed memory, which cannot fail

// A word.
pub fn put_word<const N: usize>(word: &[u8], out: &mut ArrayVec<u8, N>)
    requires { length out.old.items + length word.now ≤ N }
    ensures { out.new.items ≡ out.old.items ++ word.now }
{
    out.try_extend_from_slice(word).unwrap();
}

// A blank and a number in decimal, which has at most 20 digits.
pub fn put_number<const N: usize>(n: u64, out: &mut ArrayVec<u8, N>)
    requires { length out.old.items + 21 ≤ N }
    ensures short { length out.new.items ≤ length out.old.items + 21 }
    ensures text { out.new.items ≡ out.old.items ++ (blank ++ decimal n) }
{
    let mut digits = itoa::Buffer::new();
    put_word(b" ", out);
    put_word(digits.format(n).as_bytes(), out);
}

// A line of a word and numbers.
pub fn put_line<const N: usize>(word: &[u8], numbers: &[u64], out: &mut ArrayVec<u8, N>)
    requires { length out.old.items + length word.now + 21 * length numbers.now + 1 ≤ N }
    ensures short { length out.new.items ≤ length out.old.items + length word.now + 21 * length numbers.now + 1 }
    ensures text { out.new.items ≡ out.old.items ++ line word.now numbers.now }
{
    put_word(word, out);
    for &n in numbers {
        put_number(n, out);
    }
    put_word(b"\n", out);
}

// The line of a refusal.
pub fn put_refused<const N: usize>(refusal: Refusal, out: &mut ArrayVec<u8, N>)
    requires { length out.old.items + 50 ≤ N }
    ensures short { length out.new.items ≤ length out.old.items + 50 }
    ensures text { out.new.items
        ≡ out.old.items ++ line (codes "refused") (number_of refusal ∷ place_of refusal ∷ []) }
{
    let numbers = [refusal.number() as u64, refusal.place() as u64];
    put_line(b"refused", &numbers, out);
}

// The hexadecimal digit of a number below 16.
fn digit(n: u8) -> u8
    requires { n < 16 }
    ensures { result ≡ digit_glyph false n }
{
    char::from_digit(u32::from(n), 16).unwrap() as u8
}

// A byte's two digits.
fn put_byte<const N: usize>(b: u8, out: &mut ArrayVec<u8, N>)
    requires { length out.old.items + 2 ≤ N }
    ensures { out.new.items ≡ out.old.items ++ spelled b }
{
    out.push(digit(b / 16));
    out.push(digit(b % 16));
}

// Bytes in hexadecimal: three bytes at most for each.
pub fn put_hexadecimal<const N: usize>(bytes: &[u8], out: &mut ArrayVec<u8, N>)
    requires { length out.old.items + 3 * length bytes.now ≤ N }
    ensures short { length out.new.items ≤ length out.old.items + 3 * length bytes.now }
    ensures text { out.new.items ≡ out.old.items ++ hexadecimal bytes.now }
{
    let &[first, ref rest @ ..] = bytes else {
        return;
    };
    put_byte(first, out);
    for &b in rest {
        put_word(b" ", out);
        put_byte(b, out);
    }
}

// A line of bytes in hexadecimal.
pub fn put_bytes<const N: usize>(bytes: &[u8], out: &mut ArrayVec<u8, N>)
    requires { length out.old.items + 3 * length bytes.now + 1 ≤ N }
    ensures short { length out.new.items ≤ length out.old.items + 3 * length bytes.now + 1 }
    ensures text { out.new.items ≡ out.old.items ++ (hexadecimal bytes.now ++ newline) }
{
    put_hexadecimal(bytes, out);
    put_word(b"\n", out);
}
