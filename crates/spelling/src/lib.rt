// One spelling for the same question: each side's formulas ascending by their bytes, equal ones once. The formulas are sorted
// as parts of the question; their bytes stay where they are until the spelling is written.
#![tactic(auto)]

ghost use Rattle.std.specs.Prelude.{◌≡◌, List, [], ◌∷◌, map, ℕ, ◌+◌, ◌≤◌, ◌<◌, ◌^◌, ◌++◌, length, take, drop, IfOk, MatchResult, sum_by};
ghost use Rattle.std.specs.List.{concat};
ghost use Rattle.calculus.specs.Limits.{FORMULAS};
ghost use Rattle.calculus.specs.Syntax.{on_side};
ghost use Rattle.calculus.specs.Bytes.{SIDE, code, encode, bytes_all, question};
ghost use Rattle.calculus.specs.Standard.{compare, insert, arranged};
ghost use Rattle.calculus.specs.Reply.{spell};
ghost use Rattle.spelling.specs.declared.NotSpelled.TheVariants.{Refused};
ghost use Rattle.spelling.specs.Sides.{side_bytes};
ghost use Rattle.spelling.specs.Answers.{spelling_of, Spells};

use arrayvec::ArrayVec;
use calculus::Side;
use question::{ALL_FORMULAS, Formulas, Question, Refusal};
use std::cmp::Ordering;
use std::mem;

// Bytes compared from the first: the order of a side's formulas, and std's `cmp` of slices, which takes longer.
pub fn compare(x: &[u8], y: &[u8]) -> Ordering
    ensures { result ≡ compare x.now y.now }
{
    for i in 0..x.len().min(y.len()) {
        if x[i] != y[i] {
            return x[i].cmp(&y[i]);
        }
    }
    x.len().cmp(&y.len())
}

// Where a formula is among others that ascend, or else where it belongs. From the front: by halves (`binary_search`) spelling
// takes 1.26 to 1.35 times what it took where sides have many formulas. Each is compared once: with `position` and a test for
// equal bytes behind it, sides of 16 formulas take 1.5 to 1.6 times what they took.
fn spot_of(items: &[&[u8]], x: &[u8]) -> Result<usize, usize>
    ensures { let old = map (λ f. f.now) items.now in let new = insert (λ l. l) x.now old in MatchResult result
        (λ i. new ≡ old)
        (λ i. (i ≤ length old) × (new ≡ take i old ++ x.now ∷ drop i old)) }
{
    for (i, f) in items.iter().enumerate() {
        match compare(x, *f) {
            Ordering::Less => {
                return Err(i);
            }
            Ordering::Equal => {
                return Ok(i);
            }
            Ordering::Greater => {}
        }
    }
    Err(items.len())
}

// Puts a formula before item i: each from there on makes way for the one before it. (The kit's `insert` moves them by a function
// of the C library that the archive does not need.)
fn put<'a>(formulas: &mut ArrayVec<&'a [u8], ALL_FORMULAS>, i: usize, x: &'a [u8])
    requires { (i ≤ length formulas.old.items) × (length formulas.old.items < FORMULAS) }
    ensures { let old = map (λ f. f.now) formulas.old.items in map (λ f. f.now) formulas.new.items ≡ take i old ++ x.now ∷ drop i old }
{
    let mut next = x;
    for place in &mut formulas.as_mut_slice()[i..] {
        next = mem::replace(place, next);
    }
    formulas.push(next);
}

// Puts a formula where it belongs among others that ascend by their bytes, unless it is there.
fn enter<'a>(formulas: &mut ArrayVec<&'a [u8], ALL_FORMULAS>, x: &'a [u8])
    requires { length formulas.old.items < FORMULAS }
    ensures { map (λ f. f.now) formulas.new.items ≡ insert (λ l. l) x.now (map (λ f. f.now) formulas.old.items) }
{
    if let Err(i) = spot_of(formulas.as_slice(), x) {
        put(formulas, i, x);
    }
}

// Enters the formulas of a side, and answers the position behind them.
fn enter_side<'a>(formulas: &mut ArrayVec<&'a [u8], ALL_FORMULAS>, xs: Formulas<'a>) -> usize
    requires { formulas.old.items ≡ [] }
    ensures { (map (λ f. f.now) formulas.new.items ≡ map encode (arranged (on_side xs.entry.side (question xs.entry.q.bytes.now))))
        × (result ≡ xs.entry.start + bytes_all (on_side xs.entry.side (question xs.entry.q.bytes.now))) }
{
    let q = xs.q.bytes;
    let mut at = xs.start;
    for _ in 0..xs.count() {
        let end = question::end_of(q, at);
        enter(formulas, &q[at..end]);
        at = end;
    }
    at
}

// How many bytes formulas have.
fn bytes_of(formulas: &[&[u8]]) -> usize
    requires { sum_by (λ f. length f.now) formulas.now < 2 ^ 64 }
    ensures { result ≡ sum_by (λ f. length f.now) formulas.now }
{
    formulas.iter().map(|f| f.len()).sum()
}

// Copies bytes, one after the other: `copy_from_slice` is a call of the C library's `memmove` here, which the archive needs for nothing
// else, and most formulas are a few bytes long.
fn copy_bytes(from: &[u8], to: &mut [u8])
    requires { length from.now ≡ length to.old }
    ensures { to.new ≡ from.now }
{
    for i in 0..to.len() {
        to[i] = from[i];
    }
}

// Writes a side: its command, how many formulas it has, and these. Answers how many bytes are written.
fn write_side(side: Side, formulas: &[&[u8]], out: &mut [u8]) -> usize
    requires { (length formulas.now ≤ FORMULAS)
        × (2 + sum_by (λ f. length f.now) formulas.now ≤ length out.old) }
    ensures { let bytes = side_bytes side formulas.now in (result ≡ length bytes)
        × (out.new ≡ bytes ++ drop (length bytes) out.old) }
{
    out[0] = question::head_of(side);
    out[1] = formulas.len() as u8;
    let mut at = 2;
    for f in formulas {
        let end = at + f.len();
        copy_bytes(*f, &mut out[at..end]);
        at = end;
    }
    at
}

// Writes both sides if there is room. Answers how many bytes they have, which the buffer has no room for if this is an error.
fn write_sides(lefts: &[&[u8]], rights: &[&[u8]], out: &mut [u8]) -> Result<usize, usize>
    requires { (length lefts.now ≤ FORMULAS)
        × (length rights.now ≤ FORMULAS)
        × (4 + sum_by (λ f. length f.now) lefts.now + sum_by (λ f. length f.now) rights.now < 2 ^ 64) }
    ensures { let bytes = side_bytes Side.Left lefts.now ++ side_bytes Side.Right rights.now in MatchResult result
        (λ n. (n ≡ length bytes) × (n ≤ length out.old) × (out.new ≡ bytes ++ drop n out.old))
        (λ n. (n ≡ length bytes) × (length out.old < n) × (out.new ≡ out.old)) }
{
    let n = 4 + bytes_of(lefts) + bytes_of(rights);
    if out.len() < n {
        return Err(n);
    }
    let at = write_side(Side::Left, lefts, out);
    write_side(Side::Right, rights, &mut out[at..]);
    Ok(n)
}

// Why a question is not spelled: it is refused, or the buffer has no room for so many bytes. By the Rust wrapper's name.
#[derive(Clone, Copy)]
pub enum NotSpelled {
    Refused(Refusal),
    NoSpace(usize),
}

impl From<Refusal> for NotSpelled {
    ghost from_gives = { λ r e. e ≡ Refused r };

    fn from(r: Refusal) -> NotSpelled {
        NotSpelled::Refused(r)
    }
}

// The standard spelling of a question, in the first bytes of the buffer. Answers how many these are.
pub fn spell(q: &[u8], out: &mut [u8]) -> Result<usize, NotSpelled>
    ensures reply { spelling_of result ≡ (spell q.now out.old).reply }
    ensures written { out.new ≡ (spell q.now out.old).buffer }
    ensures one { IfOk result (λ n. Spells q.now (take n out.new)) }
{
    let q = Question::read(q)?;
    let mut lefts = ArrayVec::new();
    let mut rights = ArrayVec::new();
    let end = enter_side(&mut lefts, q.left());
    enter_side(&mut rights, q.right(end));
    write_sides(lefts.as_slice(), rights.as_slice(), out).map_err(NotSpelled::NoSpace)
}
