// Reading a question, and handing out its formulas.
#![tactic(auto)]

ghost use Rattle.std.specs.Prelude.{◌≡◌, ℕ, ◌+◌, ◌-◌, ◌^◌, ◌≤◌, ◌<◌, List, false, ◌||◌, eqb, length, take, drop, get_or, IfOk, MatchResult, MatchOption};
ghost use Rattle.calculus.specs.Fold.{Each};
ghost use Rattle.calculus.specs.Limits;
ghost use Rattle.calculus.specs.Limits.{LONGEST, FORMULAS};
ghost use Rattle.calculus.specs.Syntax.{on_side};
ghost use Rattle.calculus.specs.Bytes.{SIDE, LETTER, code, formulas, bytes_all, question, side_start, Lettered};
ghost use Rattle.calculus.specs.Reading.{accepted, reading};
ghost use Rattle.calculus.specs.Truth.{bit};
ghost use Rattle.calculus.specs.Tree.{light};
ghost use Rattle.calculus.specs.Reply.{formula_part, formula_bytes};
ghost use Rattle.question.specs.Answers.{number_of, place_of, reading_of};
ghost use Rattle.question.specs.Answers.{expected_of, done, Standing, Onwards, read_from, steps};
ghost use Rattle.question.specs.Positions.{Well, end_of, due_after, Reached, Marks, part_bytes, part_at};

mod connective;

use calculus::{Expected, Part, Side};
pub use connective::{Binary, Connective, NoConnective};

// The limits of document 01.
pub const LONGEST_QUESTION: usize = 212;

pub const MOST_FORMULAS: u8 = 16;

// The same, as the length of a list with an item for each formula of a side.
pub const ALL_FORMULAS: usize = MOST_FORMULAS as usize;

pub const LETTERS: u8 = 64;

// And with one for each letter.
pub const ALL_LETTERS: usize = LETTERS as usize;

pub const MOST_CONNECTIVES: u8 = 48;

// And with one for each connective.
pub const ALL_CONNECTIVES: usize = MOST_CONNECTIVES as usize;

// Why a question is refused, and the place.
#[derive(Clone, Copy)]
pub enum Refusal {
    TooLong,
    Cut(usize),
    WrongCommand(usize),
    ManyFormulas(usize),
    NoSuchLetter(usize),
    ManyConnectives(usize),
    LeftOver(usize),
}

impl Refusal {
    // Document 01's number, which the C interface hands on.
    pub fn number(self) -> u32
        ensures { result ≡ number_of self }
    {
        match self {
            Refusal::TooLong => 1,
            Refusal::Cut(_) => 2,
            Refusal::WrongCommand(_) => 3,
            Refusal::ManyFormulas(_) => 4,
            Refusal::NoSuchLetter(_) => 5,
            Refusal::ManyConnectives(_) => 6,
            Refusal::LeftOver(_) => 7,
        }
    }

    // The place of the refusal.
    pub fn place(self) -> usize
        ensures { result ≡ place_of self }
    {
        match self {
            Refusal::TooLong => LONGEST_QUESTION,
            Refusal::Cut(at)
            | Refusal::WrongCommand(at)
            | Refusal::ManyFormulas(at)
            | Refusal::NoSuchLetter(at)
            | Refusal::ManyConnectives(at)
            | Refusal::LeftOver(at) => at,
        }
    }
}

// The command byte of a side. Where a question is read or walked, commands stay bytes: document 01's form names the match on the
// byte (`next`), and a walk only asks whether a byte is a letter's or NOT's.
pub fn head_of(side: Side) -> u8
    ensures { result ≡ code (SIDE side) }
{
    match side {
        Side::Left => 0x10,
        Side::Right => 0x20,
    }
}

// The byte at a place: without one the question is cut there.
fn byte_at(q: &[u8], at: usize) -> Result<u8, Refusal>
    ensures { MatchResult result (λ b. (at < length q.now) × (b ≡ get_or q.now at 0)) (λ r. (length q.now ≤ at) × (r ≡ Refusal.Cut at)) }
{
    q.get(at).copied().ok_or(Refusal::Cut(at))
}

// Where the reader is: the connectives so far, the place of the next byte, the formulas due there, and how many sides' commands
// are to come. With the side that is next as an `Option`, spelling and clauses take 1.15 to 1.22 times what they took. The bytes
// and `Standing` stay outside: no struct with a ghost field is made by `..self`, so that each step would write out all fields.
#[derive(Clone, Copy)]
pub struct Cursor {
    pub connectives: u8,
    pub at: usize,
    pub due: u8,
    pub sides: u8,
}

impl Cursor {
    // What is expected: a formula while some are due, else the command of the next side, else the end.
    fn expected(self) -> Expected
        requires { 2 ≤ self.sides → self.due ≡ 0 }
        ensures { result ≡ expected_of self }
    {
        let sides = self.sides;
        if 0 < self.due {
            let side = if sides == 0 { Side::Right } else { Side::Left };
            return Expected::Formula(side, usize::from(self.due - 1));
        }
        match sides {
            0 => Expected::End,
            1 => Expected::Head(Side::Right),
            _ => Expected::Head(Side::Left),
        }
    }

    // The letter at the cursor, with its operand.
    fn letter(self, q: &[u8]) -> Result<Cursor, Refusal>
        requires { Standing q.now self
            × (self.at < length q.now)
            × (get_or q.now self.at 0 ≡ code LETTER)
            × (1 ≤ self.due)
            × (self.sides ≤ 1) }
        ensures { (steps q.now result ≡ read_from q.now self)
            × Onwards q.now (self.at + 1) result }
    {
        let operand = self.at + 1;
        let letter = byte_at(q, operand)?;
        if LETTERS <= letter {
            return Err(Refusal::NoSuchLetter(operand));
        }
        Ok(Cursor {
            at: operand + 1,
            due: self.due - 1,
            ..self
        })
    }

    // The connective b at the cursor.
    fn connective(self, b: u8) -> Result<Cursor, Refusal>
        requires { (self.at ≤ LONGEST)
            × (1 ≤ self.due)
            × (self.due ≤ FORMULAS + self.connectives)
            × (self.sides ≤ 1)
            × (2 ≤ b)
            × (b ≤ 6) }
        ensures { (q : List ℕ) → Standing q self → self.at < length q → get_or q self.at 0 ≡ b
            → (steps q result ≡ read_from q self) × Onwards q (self.at + 1) result }
    {
        let behind = self.at + 1;
        if MOST_CONNECTIVES <= self.connectives {
            return Err(Refusal::ManyConnectives(self.at));
        }
        Ok(Cursor {
            connectives: self.connectives + 1,
            at: behind,
            due: if b == 2 { self.due } else { self.due + 1 },
            ..self
        })
    }

    // The byte b at the cursor where a side's command is expected, with its count.
    fn head(self, q: &[u8], b: u8, side: Side) -> Result<Cursor, Refusal>
        requires { Standing q.now self
            × (self.at < length q.now)
            × (get_or q.now self.at 0 ≡ b)
            × (expected_of self ≡ Expected.Head side) }
        ensures { (steps q.now result ≡ read_from q.now self)
            × Onwards q.now (self.at + 1) result }
    {
        let at = self.at;
        if b != head_of(side) {
            return Err(Refusal::WrongCommand(at));
        }
        let count = at + 1;
        let formulas = byte_at(q, count)?;
        if MOST_FORMULAS < formulas {
            return Err(Refusal::ManyFormulas(count));
        }
        Ok(Cursor {
            at: count + 1,
            due: formulas,
            sides: self.sides - 1,
            ..self
        })
    }

    // The end is expected, and is there.
    fn done(self, q: &[u8]) -> bool
        ensures { result ≡ done q.now self }
    {
        q.len() <= self.at && self.due == 0 && self.sides == 0
    }

    // Goes on by one command with its operand: what is expected and the byte give a refusal or the next cursor.
    fn next(self, q: &[u8]) -> Result<Cursor, Refusal>
        requires { Standing q.now self × (done q.now self ≡ false) }
        ensures { (steps q.now result ≡ read_from q.now self)
            × Onwards q.now (self.at + 1) result }
    {
        let at = self.at;
        let b = byte_at(q, at)?;
        let expected = self.expected();
        match expected {
            Expected::Formula(_, _) => match b {
                1 => self.letter(q),
                2..=6 => self.connective(b),
                _ => Err(Refusal::WrongCommand(at)),
            },
            Expected::Head(side) => self.head(q, b, side),
            // The end: a cursor never stands at a count or an operand.
            _ => Err(Refusal::LeftOver(at)),
        }
    }
}

// An accepted question.
#[derive(Clone, Copy)]
pub struct Question<'a> {
    pub bytes: &'a [u8],
    pub ghost accepted: { reading bytes.now ≡ accepted },
}

impl<'a> Question<'a> {
    // Reads a question: accepted, or the first refusal that is met.
    pub fn read(q: &'a [u8]) -> Result<Question<'a>, Refusal>
        ensures reads { reading_of result ≡ reading q.now }
        ensures bytes { IfOk result (λ a. a.bytes.now ≡ q.now) }
        ensures own { IfOk result (λ a. a.bytes ≡ q.entry) }
    {
        if LONGEST_QUESTION < q.len() {
            return Err(Refusal::TooLong);
        }
        let mut cursor = Cursor {
            connectives: 0,
            at: 0,
            due: 0,
            sides: 2,
        };
        // No index is counted: how many commands there are shows only at the end.
        while !cursor.done(q) {
            cursor = cursor.next(q)?;
        }
        Ok(Question { bytes: q })
    }

    // The formulas on the left.
    pub fn left(self) -> Formulas<'a>
        ensures { (result.q.bytes ≡ self.entry.bytes) × (result.side ≡ Side.Left) }
    {
        Formulas {
            q: self,
            side: Side::Left,
            start: 2,
        }
    }

    // The formulas on the right, behind those on the left.
    pub fn right(self, end: usize) -> Formulas<'a>
        requires { end ≡ 2 + bytes_all (question self.bytes.now).on_left }
        ensures { (result.q.bytes ≡ self.entry.bytes) × (result.side ≡ Side.Right) }
    {
        Formulas {
            q: self,
            side: Side::Right,
            start: end + 2,
        }
    }

    // The formulas on a side.
    pub fn formulas(self, side: Side) -> Formulas<'a>
        ensures { (result.q.bytes ≡ self.entry.bytes) × (result.side ≡ side) }
    {
        let left = self.left();
        match side {
            Side::Left => left,
            Side::Right => self.right(skip(self.bytes, left.start, left.count())),
        }
    }

    // Which bytes are the formula at a place of a side, if there is one.
    fn part(self, side: Side, place: usize) -> Option<Part>
        ensures { MatchOption result (length (on_side side (question self.entry.bytes.now)) ≤ place)
            (λ p. (place < length (on_side side (question self.entry.bytes.now)))
            × (p ≡ formula_part self.entry.bytes.now side place)) }
    {
        let formulas = self.formulas(side);
        if formulas.count() <= place {
            return None;
        }
        let at = skip(self.bytes, formulas.start, place);
        Some(Part {
            start: at,
            count: end_of(self.bytes, at) - at,
        })
    }
}

// The formulas on a side of an accepted question, and where they start. What takes them one by one goes over them by a loop of
// its own: what it does with a formula finds where the next one starts, so that an iterator of positions would walk each twice.
#[derive(Clone, Copy)]
pub struct Formulas<'a> {
    pub q: Question<'a>,
    pub side: Side,
    pub start: usize,
    pub ghost starts: { start ≡ side_start side (question q.bytes.now) },
}

impl<'a> Formulas<'a> {
    // How many they are.
    pub fn count(self) -> usize
        ensures { result ≡ length (on_side self.entry.side (question self.entry.q.bytes.now)) }
    {
        usize::from(self.q.bytes[self.start - 1])
    }

    // A set with their letters.
    pub fn letters(self, set: u64) -> u64
        ensures { Marks (on_side self.entry.side (question self.entry.q.bytes.now)) set result }
    {
        letters(self.q.bytes, self.start, self.count(), set)
    }
}

// A walk over commands: the position of the next, and the formulas due from there on. It goes from letter to letter, since what
// is due falls at letters alone; how many commands there are shows only on the way, so that no range or slice gives them. That
// some are due (`1 ≤ self.due`) is a fact of a `Cursor`, of a `Walk` and of clauses' `Gathered`: three types, at some calls only.
#[derive(Clone, Copy)]
pub struct Walk {
    pub at: usize,
    pub due: usize,
}

impl Walk {
    // Past a connective.
    fn past_connective(self, b: u8) -> Walk
        requires { (self.at < 2 ^ 63) × (self.due < 2 ^ 63) × (b ≡ 1 → ⊥) }
        ensures { result ≡ record { at = self.at + 1; due = due_after self.due b } }
    {
        let due = if b == 2 { self.due } else { self.due + 1 };
        Walk {
            at: self.at + 1,
            due,
        }
    }

    // Past a letter with its operand.
    fn past_letter(self) -> Walk
        requires { (self.at < 2 ^ 63) × (1 ≤ self.due) }
        ensures { result ≡ record { at = self.at + 2; due = self.due - 1 } }
    {
        Walk {
            at: self.at + 2,
            due: self.due - 1,
        }
    }

    // Up to the next letter.
    fn to_letter(self, q: &[u8]) -> Walk
        requires { (1 ≤ self.due) × (self.due ≤ length (formulas (drop self.at q.now))) }
        ensures { Reached q.now self.at self.due result.at result.due
            × (get_or q.now result.at 0 ≡ code LETTER) }
    {
        let mut walk = self;
        while q[walk.at] != 1 {
            walk = walk.past_connective(q[walk.at]);
        }
        walk
    }
}

// What a formula comes to, and the position behind the formula.
#[derive(Clone, Copy)]
pub struct Ended<T> {
    pub value: T,
    pub end: usize,
}

// A formula is the question's bytes and a position, here and in the crates above. In a struct of both, with `Well` as its ghost
// field, each part would be put in only to be taken out again, since walks hand positions on (in `valuation`, where the words of
// the letters go along, there is one).

// The position behind n formulas that stand one after the other from a position on.
pub fn skip(q: &[u8], at: usize, n: usize) -> usize
    requires { n ≤ length (formulas (drop at q.now)) }
    ensures { result ≡ at + bytes_all (take n (formulas (drop at q.now))) }
{
    let mut walk = Walk { at, due: n };
    while 0 < walk.due {
        walk = walk.to_letter(q).past_letter();
    }
    walk.at
}

// The position behind the formula at a position.
pub fn end_of(q: &[u8], at: usize) -> usize
    requires { Well q.now at }
    ensures { result ≡ end_of q.now at }
{
    skip(q, at, 1)
}

// A set of letters, letter k as bit k, with one more.
pub fn marked(set: u64, k: u8) -> u64
    requires { k < Limits.LETTERS }
    ensures lit { result ≡ light k set }
    ensures bits { (m : ℕ) → bit m result ≡ (bit m set || eqb m k) }
{
    set | 1 << k
}

// A set with the letters of n formulas that stand one after the other from a position on.
pub fn letters(q: &[u8], at: usize, n: usize, set: u64) -> u64
    requires { (n ≤ length (formulas (drop at q.now))) × Each Lettered (take n (formulas (drop at q.now))) }
    ensures { Marks (take n (formulas (drop at q.now))) set result }
{
    let mut all = set;
    let mut walk = Walk { at, due: n };
    while 0 < walk.due {
        let letter = walk.to_letter(q);
        let operand = letter.at + 1;
        all = marked(all, q[operand]);
        walk = letter.past_letter();
    }
    all
}

// Which bytes of the question are the formula at a place of a side: none where it is refused or has no such place, which is the
// form that document 01 names.
pub fn formula_part(q: &[u8], side: Side, place: usize) -> Part
    ensures { result ≡ formula_part q.now side place }
{
    let Ok(question) = Question::read(q) else {
        return Part::default();
    };
    question.part(side, place).unwrap_or_default()
}

// The formula's own bytes of the question: none where it is refused or has no such place. A slice's `ptr` is where it starts.
pub fn formula(q: &[u8], side: Side, place: usize) -> &[u8]
    ensures own { result.now ≡ formula_bytes q.now side place }
    ensures part { result.now ≡ part_bytes (formula_part q.now side place) q.now }
    ensures starts { result.ref_ptr ≡ part_at (formula_part q.now side place) q.entry.ref_ptr }
{
    let p = formula_part(q, side, place);
    let start = p.start;
    let end = start + p.count;
    &q[start..end]
}
