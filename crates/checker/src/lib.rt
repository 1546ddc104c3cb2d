// Checking a derivation of a question.
#![tactic(auto)]

ghost use Rattle.std.specs.Prelude.{◌≡◌, ◌↔◌, ◌&&◌, [], ◌∷◌, ◌+◌, ◌≤◌, length, get_or};
ghost use Rattle.std.proofs.Math.Option.{some};
ghost use Rattle.std.proofs.Math.ListN.{get_elem?};
ghost use Rattle.calculus.specs.Syntax.{on_side, size};
ghost use Rattle.calculus.specs.Bytes.{question};
ghost use Rattle.calculus.specs.Reached.{Reachable};
ghost use Rattle.calculus.specs.Truth.{bit, Valid};
ghost use Rattle.calculus.specs.Reading.{accepted, reading};
ghost use Rattle.calculus.specs.Derivation.{PAIR, order, named, pairs, obey, Derivation};
ghost use Rattle.calculus.specs.Reply.{check_reply};
ghost use Rattle.question.specs.Connectives.{connective_of};
ghost use Rattle.sequent.specs.View.{Good, sequent_of};
ghost use Rattle.sequent.specs.Compounds.{premises_at, premise_by, Reducible, Makes};
ghost use Rattle.checker.specs.Answers.{fault_number, fault_place, check_of};
ghost use Rattle.checker.specs.declared.NotPassed.TheVariants.{Refused, Faulty};
ghost use Rattle.checker.specs.Walks.{Moves, Walks, Tallied};

use calculus::Side;
use names::Lists;
use question::{Connective, LETTERS, Question, Refusal};
use sequent::{Counted, Names, Order, Place, Placing, ROOM, Reduction, Running};

// What is wrong with a derivation, and the place of the command, or of the first byte left over.
#[derive(Clone, Copy)]
pub enum Fault {
    CutShort(usize),
    UnknownCommand(usize),
    NoFormula(usize),
    OtherConnective(usize),
    NotClosed(usize),
    BytesAfter(usize),
    NotEqual(usize),
}

impl Fault {
    // Its number in the documents, which the C interface hands on.
    pub fn number(self) -> u32
        ensures { result ≡ fault_number self }
    {
        match self {
            Fault::CutShort(_) => 20,
            Fault::UnknownCommand(_) => 21,
            Fault::NoFormula(_) => 22,
            Fault::OtherConnective(_) => 23,
            Fault::NotClosed(_) => 24,
            Fault::BytesAfter(_) => 25,
            Fault::NotEqual(_) => 26,
        }
    }

    // The place of the fault.
    pub fn place(self) -> usize
        ensures { result ≡ fault_place self }
    {
        match self {
            Fault::CutShort(at)
            | Fault::UnknownCommand(at)
            | Fault::NoFormula(at)
            | Fault::OtherConnective(at)
            | Fault::NotClosed(at)
            | Fault::BytesAfter(at)
            | Fault::NotEqual(at) => at,
        }
    }
}

// Why a derivation does not pass: its question is refused, or it has a fault. By the Rust wrapper's name.
#[derive(Clone, Copy)]
pub enum NotPassed {
    Refused(Refusal),
    Faulty(Fault),
}

impl From<Refusal> for NotPassed {
    ghost from_gives = { λ r e. e ≡ Refused r };

    fn from(refusal: Refusal) -> NotPassed {
        NotPassed::Refused(refusal)
    }
}

impl From<Fault> for NotPassed {
    ghost from_gives = { λ f e. e ≡ Faulty f };

    fn from(fault: Fault) -> NotPassed {
        NotPassed::Faulty(fault)
    }
}

// What a command that is not at fault says of the sequent that waits: closed by two bytes, closed by three, or a reduction to
// make.
#[derive(Clone, Copy)]
enum Move {
    Closed,
    Paired,
    Reduce(Reduction),
}

// Whether a letter is among those of a mask.
fn in_mask(mask: u64, letter: u8) -> bool
    ensures { result ≡ bit letter mask }
{
    if LETTERS <= letter {
        return false;
    }
    (mask >> letter) % 2 == 1
}

// Whether a letter stands on both sides.
fn closes(s: Running, letter: u8) -> bool
    ensures { result ≡ (bit letter s.left.mask && bit letter s.right.mask) }
{
    in_mask(s.left.mask, letter) && in_mask(s.right.mask, letter)
}

// The reduction of the formula at a place of a side, if that has the connective. Commands are compared: a connective would be
// decoded first.
fn formula_named(
    t: Names<'_>,
    s: Running,
    side: Side,
    connective: Connective,
    place: u8,
    at: usize,
) -> Result<Move, Fault>
    requires { Good t.nodes.now.items t.items.now s }
    ensures { Moves
        t.entry.nodes.now.items
        t.entry.items.now
        s
        at
        (named
        side
        place
        (connective_of connective)
        (sequent_of t.entry.nodes.now.items t.entry.items.now s)
        (get_elem? (on_side side (sequent_of t.entry.nodes.now.items t.entry.items.now s)) place))
        result }
{
    let p = Place {
        side,
        at: usize::from(place),
    };
    if s.count(side) <= p.at {
        return Err(Fault::NoFormula(at));
    }
    let k = s.slot(p);
    if t.items[k] < LETTERS {
        return Err(Fault::OtherConnective(at));
    }
    let r = s.reduction(t, p);
    if r.command() != u8::from(connective) {
        return Err(Fault::OtherConnective(at));
    }
    Ok(Move::Reduce(r))
}

// Closed, if the formulas at a left and a right place are equal and no letters: equal formulas have one name.
fn pairs(t: Names<'_>, s: Running, left: u8, right: u8, at: usize) -> Result<Move, Fault>
    requires { Good t.nodes.now.items t.items.now s }
    ensures { Moves
        t.entry.nodes.now.items
        t.entry.items.now
        s
        at
        (pairs
        (get_elem? (sequent_of t.entry.nodes.now.items t.entry.items.now s).on_left left)
        (get_elem? (sequent_of t.entry.nodes.now.items t.entry.items.now s).on_right right))
        result }
{
    let i = usize::from(left);
    let j = usize::from(right);
    let missing = Err(Fault::NoFormula(at));
    if s.left.count <= i {
        return missing;
    }
    if s.right.count <= j {
        return missing;
    }
    let unequal = Err(Fault::NotEqual(at));
    let k = s.left.count + j;
    if t.items[i] < LETTERS {
        return unequal;
    }
    if t.items[i] != t.items[k] {
        return unequal;
    }
    Ok(Move::Paired)
}

// 42 at a place of the derivation, with its first operand.
fn obey_pair(t: Names<'_>, d: &[u8], s: Running, left: u8, at: usize) -> Result<Move, Fault>
    requires { Good t.nodes.now.items t.items.now s × (at + 2 ≤ length d.now) }
    ensures { Moves
        t.entry.nodes.now.items
        t.entry.items.now
        s
        at
        (obey (some PAIR) left (get_elem? d.now (at + 2)) (sequent_of t.entry.nodes.now.items t.entry.items.now s))
        result }
{
    if d.len() - at < 3 {
        return Err(Fault::CutShort(at));
    }
    let last = at + 2;
    pairs(t, s, left, d[last], at)
}

// The command at a place of the derivation, where two bytes are left.
#[inline(always)]
fn obey(t: Names<'_>, d: &[u8], s: Running, at: usize) -> Result<Move, Fault>
    requires { Good t.nodes.now.items t.items.now s × (at + 2 ≤ length d.now) }
    ensures { Moves
        t.entry.nodes.now.items
        t.entry.items.now
        s
        at
        (obey
        (order (get_or d.now at 0))
        (get_or d.now (at + 1) 0)
        (get_elem? d.now (at + 2))
        (sequent_of t.entry.nodes.now.items t.entry.items.now s))
        result }
{
    let operand = at + 1;
    let x = d[operand];
    let Ok(order) = Order::try_from(d[at]) else {
        return Err(Fault::UnknownCommand(at));
    };
    match order {
        Order::Close => {
            if closes(s, x) {
                return Ok(Move::Closed);
            }
            Err(Fault::NotClosed(at))
        }
        Order::Pair => obey_pair(t, d, s, x, at),
        Order::Reduce(side, k) => formula_named(t, s, side, k, x, at),
    }
}

// The derivation of one sequent, from byte `at` on: where it ends, or its first fault. A fault names its place in the whole
// derivation, so both go along, and not the bytes from there on; one value of both would be made anew at each command.
#[cycle(walk_walk_premise_walk_premises)]
#[inline(always)]
fn walk(t: Names<'_>, d: &[u8], s: Running, at: usize) -> Result<usize, Fault>
    requires { Good t.nodes.now.items t.items.now s × Reachable (sequent_of t.nodes.now.items t.items.now s) × (at ≤ length d.now) }
    ensures { Walks d.now (sequent_of t.entry.nodes.now.items t.entry.items.now s ∷ []) at result }
{
    if d.len() - at < 2 {
        return Err(Fault::CutShort(at));
    }
    let next = obey(t, d, s, at)?;
    match next {
        Move::Closed => Ok(at + 2),
        Move::Paired => Ok(at + 3),
        Move::Reduce(r) => walk_premises(t, d, s, r, at + 2).value,
    }
}

// A premise of the reduction, made, and its derivation: the one call of the recursion, as in the run.
#[cycle(walk_walk_premise_walk_premises)]
#[inline(never)]
fn walk_premise(
    t: Names<'_>,
    d: &[u8],
    s: Running,
    r: Reduction,
    p: Placing,
    at: usize,
) -> Counted<Result<usize, Fault>>
    requires { Makes t.nodes.now.items t.items.now s r p × (at ≤ length d.now) }
    ensures { Walks d.now (premise_by t.entry.nodes.now.items t.entry.items.now s r p ∷ []) at result.value
        × (result.stores ≡ size (premise_by t.entry.nodes.now.items t.entry.items.now s r p)) }
{
    let mut next = [0; ROOM];
    let made = s.premise(t.items, &mut next, r, p);
    let names = Names { items: &next, ..t };
    Counted {
        value: walk(names, d, made.value, at),
        stores: made.stores,
    }
}

// The derivation of the first premise, then that of the second.
#[cycle(walk_walk_premise_walk_premises)]
#[inline(always)]
fn walk_premises(
    t: Names<'_>,
    d: &[u8],
    s: Running,
    r: Reduction,
    at: usize,
) -> Counted<Result<usize, Fault>>
    requires { Good t.nodes.now.items t.items.now s
        × Reachable (sequent_of t.nodes.now.items t.items.now s)
        × Reducible t.nodes.now.items t.items.now s r
        × (at ≤ length d.now) }
    ensures { Tallied d.now (premises_at t.entry.nodes.now.items t.entry.items.now s r) at result }
{
    let rule = r.rule();
    let mut end = at;
    let mut stores = 0;
    for &p in rule {
        let m = walk_premise(t, d, s, r, p, end);
        stores += m.stores;
        match m.value {
            Ok(e) => {
                end = e;
            }
            Err(f) => {
                return Counted {
                    value: Err(f),
                    stores,
                };
            }
        }
    }
    Counted {
        value: Ok(end),
        stores,
    }
}

// Checks a derivation of a question.
pub fn check(q: &[u8], derivation: &[u8]) -> Result<(), NotPassed>
    ensures reply { check_of result ≡ check_reply q.now derivation.now }
    ensures sound { result ≡ Ok tt → (reading q.now ≡ accepted) × Valid (question q.now) }
    ensures exactly { (result ≡ Ok tt)
        ↔ ((reading q.now ≡ accepted) × Derivation (question q.now) derivation.now) }
{
    let asked = Question::read(q)?;
    let mut lists = Lists::new();
    let s = names::root(asked, &mut lists);
    let end = walk(lists.names(), derivation, s, 0)?;
    if end < derivation.len() {
        return Err(NotPassed::Faulty(Fault::BytesAfter(end)));
    }
    Ok(())
}
