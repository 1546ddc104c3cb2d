// The library's calls, for Rattle, and what each answers C: a number and words. The exports stand in `gekunday_c`. Each call is
// said here with its clauses, so that one crate has all that a caller may rely on.
#![tactic(auto)]

ghost use Rattle.std.specs.Prelude.{◌≡◌, ◌↔◌, [], ◌∷◌, ℕ, ◌≤◌, take, IfOk};
ghost use Rattle.calculus.specs.Bytes.{question};
ghost use Rattle.calculus.specs.Reading.{accepted, reading};
ghost use Rattle.calculus.specs.Truth.{Valid};
ghost use Rattle.calculus.specs.Derivation.{Derivation};
ghost use Rattle.calculus.specs.Reply.{Reply, decide_reply, width_reply, formula_part, formula_bytes, derive, check_reply};
ghost use Rattle.calculus.specs.Reply.{list_states, spell, clauses_reply};
ghost use Rattle.question.specs.Answers.{number_of, place_of};
ghost use Rattle.question.specs.Positions.{part_bytes, part_at};
ghost use Rattle.width.specs.Answers.{width_of, Sized};
ghost use Rattle.prover.specs.Answers.{decision_of, Promised};
ghost use Rattle.writer.specs.Answers.{unproved, answer_of, Evidence};
ghost use Rattle.checker.specs.Answers.{fault_number, fault_place, check_of};
ghost use Rattle.states.specs.Answers.{listing_of, Lists};
ghost use Rattle.spelling.specs.Answers.{spelling_of, Spells};
ghost use Rattle.clauses.specs.Answers.{reply_of, Decides};
ghost use Rattle.gekunday.specs.Words.{filled, Holds, Tells, Decided, decide_words, part_words};
ghost use Rattle.gekunday.specs.Words.{formula_words};

use calculus::{ClauseVerdict, Kind, Part, Side, Verdict};
use checker::NotPassed;
use clauses::NotClauses;
use question::Refusal;
use spelling::NotSpelled;
use states::NotListed;
use width::Measure;
use writer::{NotWritten, Written};

// Decides a question within a budget of reductions.
pub fn decide(q: &[u8], budget: u64) -> Result<Verdict, Refusal>
    ensures reply { decision_of result ≡ decide_reply q.now budget }
    ensures promise { IfOk result (Promised q.now budget) }
{
    prover::decide(q, budget)
}

// The width of a question, and its connectives.
pub fn width_of(q: &[u8]) -> Result<Measure, Refusal>
    ensures reply { width_of result ≡ width_reply q.now }
    ensures sized { IfOk result (λ m. Sized q.now m.width m.connectives) }
{
    width::width(q)
}

// The formula at a place of a side: a part of the question.
pub fn formula(q: &[u8], side: Side, place: usize) -> &[u8]
    ensures own { result.now ≡ formula_bytes q.now side place }
    ensures part { result.now ≡ part_bytes (formula_part q.now side place) q.now }
    ensures starts { result.ref_ptr ≡ part_at (formula_part q.now side place) q.entry.ref_ptr }
{
    question::formula(q, side, place)
}

// Decides a question, and writes the derivation of a theorem.
pub fn derive(q: &[u8], budget: u64, buffer: &mut [u8]) -> Result<Written, NotWritten>
    ensures reply { answer_of result ≡ (derive q.now budget buffer.old).reply }
    ensures written { buffer.new ≡ (derive q.now budget buffer.old).buffer }
    ensures evidence { IfOk result (λ w. (w.verdict.kind ≡ Kind.Theorem) × Evidence q.now (take w.length buffer.new)) }
{
    writer::derive(q, budget, buffer)
}

// Checks a derivation of a question.
pub fn check(q: &[u8], derivation: &[u8]) -> Result<(), NotPassed>
    ensures reply { check_of result ≡ check_reply q.now derivation.now }
    ensures sound { result ≡ Ok tt → (reading q.now ≡ accepted) × Valid (question q.now) }
    ensures exactly { (result ≡ Ok tt)
        ↔ ((reading q.now ≡ accepted) × Derivation (question q.now) derivation.now) }
{
    checker::check(q, derivation)
}

// Lists every state that makes a question false.
pub fn refuting_states(q: &[u8], list: &mut [u64]) -> Result<usize, NotListed>
    ensures reply { listing_of result ≡ (list_states q.now list.old).reply }
    ensures written { list.new ≡ (list_states q.now list.old).buffer }
    ensures all { IfOk result (λ n. Lists q.now (take n list.new)) }
{
    states::refuting_states(q, list)
}

// Writes the standard spelling of a question.
pub fn spell(q: &[u8], buffer: &mut [u8]) -> Result<usize, NotSpelled>
    ensures reply { spelling_of result ≡ (spell q.now buffer.old).reply }
    ensures written { buffer.new ≡ (spell q.now buffer.old).buffer }
    ensures one { IfOk result (λ n. Spells q.now (take n buffer.new)) }
{
    spelling::spell(q, buffer)
}

// Decides a question of the clause profile by unit clauses alone.
pub fn decide_clauses(q: &[u8]) -> Result<ClauseVerdict, NotClauses>
    ensures reply { reply_of result ≡ clauses_reply q.now }
    ensures decides { IfOk result (Decides q.now) }
{
    clauses::decide_clauses(q)
}

// What C gets in place of an enum: the numbers for a run that came to no verdict, for a derivation, a list or a spelling that is
// not written, and for a question outside the clause profile.
const SPENT: u32 = 9;

const NOT_PROVED: u32 = 10;

const NO_SPACE: u32 = 11;

const MANY_LETTERS: u32 = 12;

const RIGHT_FORMULA: u32 = 13;

const NOT_CLAUSE: u32 = 14;

const MANY_POSITIVE: u32 = 15;

// A number and the words beside it, as C gets them.
#[derive(Clone, Copy)]
struct Words {
    number: u32,
    values: [u64; 4],
}

impl Words {
    // A number with one word.
    fn one(number: u32, value: u64) -> Words
        ensures { Holds (record { number = number; values = value ∷ [] }) result }
    {
        Words {
            number,
            values: [value, 0, 0, 0],
        }
    }

    // The first words, for C; answers the number.
    fn leave<const N: usize>(self, out: &mut [u64; N]) -> u32
        requires { N ≤ 4 }
        ensures number { result ≡ self.number }
        ensures words { out.new ≡ take N self.values }
    {
        out.copy_from_slice(&self.values[..N]);
        self.number
    }
}

impl From<Refusal> for Words {
    ghost from_gives = { λ r w. Holds (record { number = number_of r; values = place_of r ∷ [] }) w };

    fn from(r: Refusal) -> Words {
        Words::one(r.number(), r.place() as u64)
    }
}

impl From<Result<Measure, Refusal>> for Words {
    ghost from_gives = { λ a w. Holds (width_of a) w };

    fn from(a: Result<Measure, Refusal>) -> Words {
        match a {
            Ok(m) => Words {
                number: 0,
                values: [m.width, m.connectives, 0, 0],
            },
            Err(r) => r.into(),
        }
    }
}

// A verdict: whether it is refuted, the state, and both counts.
impl From<Verdict> for Words {
    ghost from_gives = { λ v w. Tells v w };

    fn from(v: Verdict) -> Words {
        let (number, refuted, state) = match v.kind {
            Kind::Theorem => (0, 0, 0),
            Kind::Refuted(state) => (0, 1, state),
            Kind::Spent => (SPENT, 0, 0),
        };
        Words {
            number,
            values: [refuted, state, v.reductions, v.closings],
        }
    }
}

impl From<Result<Verdict, Refusal>> for Words {
    ghost from_gives = { λ a w. Decided a w };

    fn from(a: Result<Verdict, Refusal>) -> Words {
        match a {
            Ok(v) => v.into(),
            Err(r) => r.into(),
        }
    }
}

// A question that is no theorem: its state if it is refuted, and both counts. A function, since a verdict's own conversion
// to words is that of the call that decides.
fn unproved_words(v: Verdict) -> Words
    ensures { Holds (unproved v.kind v.reductions v.closings) result }
{
    match v.kind {
        Kind::Refuted(state) => Words {
            number: NOT_PROVED,
            values: [state, v.reductions, v.closings, 0],
        },
        Kind::Theorem => counts(0, v),
        Kind::Spent => counts(SPENT, v),
    }
}

// A number with both counts of a verdict, for the same reason no `From`.
fn counts(number: u32, v: Verdict) -> Words
    ensures { Holds (record { number = number; values = v.reductions ∷ v.closings ∷ [] }) result }
{
    Words {
        number,
        values: [v.reductions, v.closings, 0, 0],
    }
}

impl From<Result<Written, NotWritten>> for Words {
    ghost from_gives = { λ a w. Holds (answer_of a) w };

    fn from(a: Result<Written, NotWritten>) -> Words {
        match a {
            Ok(w) => Words {
                number: 0,
                values: [w.length, w.verdict.reductions, w.verdict.closings, 0],
            },
            Err(NotWritten::Refused(r)) => r.into(),
            Err(NotWritten::NotProved(v)) => unproved_words(v),
            Err(NotWritten::NoSpace(n)) => Words::one(NO_SPACE, n),
        }
    }
}

impl From<Result<(), NotPassed>> for Words {
    ghost from_gives = { λ a w. Holds (check_of a) w };

    fn from(a: Result<(), NotPassed>) -> Words {
        match a {
            Ok(()) => Words::one(0, 0),
            Err(NotPassed::Refused(r)) => r.into(),
            Err(NotPassed::Faulty(f)) => Words::one(f.number(), f.place() as u64),
        }
    }
}

impl From<Result<usize, NotListed>> for Words {
    ghost from_gives = { λ a w. Holds (listing_of a) w };

    fn from(a: Result<usize, NotListed>) -> Words {
        match a {
            Ok(states) => Words::one(0, states as u64),
            Err(NotListed::Refused(r)) => r.into(),
            Err(NotListed::ManyLetters(n)) => Words::one(MANY_LETTERS, n as u64),
            Err(NotListed::NoSpace(n)) => Words::one(NO_SPACE, n as u64),
        }
    }
}

impl From<Result<usize, NotSpelled>> for Words {
    ghost from_gives = { λ a w. Holds (spelling_of a) w };

    fn from(a: Result<usize, NotSpelled>) -> Words {
        match a {
            Ok(bytes) => Words::one(0, bytes as u64),
            Err(NotSpelled::Refused(r)) => r.into(),
            Err(NotSpelled::NoSpace(n)) => Words::one(NO_SPACE, n as u64),
        }
    }
}

impl From<Result<ClauseVerdict, NotClauses>> for Words {
    ghost from_gives = { λ a w. Holds (reply_of a) w };

    fn from(a: Result<ClauseVerdict, NotClauses>) -> Words {
        match a {
            Ok(ClauseVerdict::Theorem(rounds)) => Words {
                number: 0,
                values: [0, 0, rounds as u64, 0],
            },
            Ok(ClauseVerdict::Refuted(state, rounds)) => Words {
                number: 0,
                values: [1, state, rounds as u64, 0],
            },
            Err(NotClauses::Refused(r)) => r.into(),
            Err(NotClauses::RightFormula(at)) => Words::one(RIGHT_FORMULA, at as u64),
            Err(NotClauses::NotClause(at)) => Words::one(NOT_CLAUSE, at as u64),
            Err(NotClauses::ManyPositive(at)) => Words::one(MANY_POSITIVE, at as u64),
        }
    }
}

// Where a formula's bytes start and how many they are. C says a side by its number.
fn part_of(q: &[u8], side: u32, place: usize) -> Part
    ensures { part_words result ≡ formula_words q.now side place }
{
    match side {
        0 => question::formula_part(q, Side::Left, place),
        1 => question::formula_part(q, Side::Right, place),
        _ => Part::default(),
    }
}

// The calls for C, each the words of one call's answer: the header gives each its name and its arguments.

// Decides a question within a budget of reductions.
pub fn gekunday_decide(q: &[u8], budget: u64, out: &mut [u64; 4]) -> u32
    ensures number { result ≡ (decide_reply q.now budget).number }
    ensures words { out.new ≡ decide_words q.now budget }
{
    Words::from(prover::decide(q, budget)).leave(out)
}

// The width of a question, and its connectives.
pub fn gekunday_width(q: &[u8], out: &mut [u64; 2]) -> u32
    ensures number { result ≡ (width_reply q.now).number }
    ensures words { out.new ≡ filled 2 (width_reply q.now).values }
{
    Words::from(width::width(q)).leave(out)
}

// The part of a question that is the formula at a place of a side: 0 left, 1 right.
pub fn gekunday_formula(q: &[u8], side: u32, place: usize, out: &mut [u64; 2]) -> u32
    ensures number { result ≡ 0 }
    ensures words { out.new ≡ formula_words q.now side place }
{
    let p = part_of(q, side, place);
    *out = [p.start as u64, p.count as u64];
    0
}

// Decides a question, and writes the derivation of a theorem.
pub fn gekunday_derive(q: &[u8], budget: u64, buffer: &mut [u8], out: &mut [u64; 3]) -> u32
    ensures number { result ≡ (derive q.now budget buffer.old).reply.number }
    ensures words { out.new ≡ filled 3 (derive q.now budget buffer.old).reply.values }
    ensures written { buffer.new ≡ (derive q.now budget buffer.old).buffer }
{
    Words::from(writer::derive(q, budget, buffer)).leave(out)
}

// Checks a derivation of a question.
pub fn gekunday_check(q: &[u8], derivation: &[u8], out: &mut [u64; 1]) -> u32
    ensures number { result ≡ (check_reply q.now derivation.now).number }
    ensures words { out.new ≡ filled 1 (check_reply q.now derivation.now).values }
{
    Words::from(checker::check(q, derivation)).leave(out)
}

// Lists every state that makes a question false.
pub fn gekunday_states(q: &[u8], list: &mut [u64], out: &mut [u64; 1]) -> u32
    ensures number { result ≡ (list_states q.now list.old).reply.number }
    ensures words { out.new ≡ filled 1 (list_states q.now list.old).reply.values }
    ensures written { list.new ≡ (list_states q.now list.old).buffer }
{
    Words::from(states::refuting_states(q, list)).leave(out)
}

// Writes the standard spelling of a question.
pub fn gekunday_spell(q: &[u8], buffer: &mut [u8], out: &mut [u64; 1]) -> u32
    ensures number { result ≡ (spell q.now buffer.old).reply.number }
    ensures words { out.new ≡ filled 1 (spell q.now buffer.old).reply.values }
    ensures written { buffer.new ≡ (spell q.now buffer.old).buffer }
{
    Words::from(spelling::spell(q, buffer)).leave(out)
}

// Decides a question of the clause profile by unit clauses alone.
pub fn gekunday_clauses(q: &[u8], out: &mut [u64; 3]) -> u32
    ensures number { result ≡ (clauses_reply q.now).number }
    ensures words { out.new ≡ filled 3 (clauses_reply q.now).values }
{
    Words::from(clauses::decide_clauses(q)).leave(out)
}
