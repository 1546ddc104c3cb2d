// The names of a question's formulas and their nodes, in one walk, and the running sequent that it starts from. Equal
// formulas have one name.
#![tactic(auto)]

ghost use Rattle.std.specs.Prelude.{◌≡◌, List, [], ◌∷◌, ◌++◌, ℕ, ◌+◌, ◌≤◌, ◌<◌, length, take, get_or, replicate};
ghost use Rattle.calculus.specs.Limits;
ghost use Rattle.calculus.specs.Limits.{CONNECTIVES};
ghost use Rattle.calculus.specs.Syntax.{Formula, on_side};
ghost use Rattle.calculus.specs.Bytes.{question, bytes_all};
ghost use Rattle.calculus.specs.Reading.{accepted, reading};
ghost use Rattle.question.specs.Connectives.{command_of};
ghost use Rattle.question.specs.Positions.{formula_at, end_of};
ghost use Rattle.sequent.specs.Names.{node, first_of, second_of};
ghost use Rattle.sequent.specs.View.{sequent_of, Good};
ghost use Rattle.names.specs.Loads.{Nodes, Noted, Numbers, Numbered, none_yet, Loads, Enters, before};

use arrayvec::ArrayVec;
use question::{ALL_CONNECTIVES, Connective, Ended, Formulas, LETTERS, Question};
use sequent::{Half, Names, ROOM, Running};

// The nodes of a question's compounds, and the names of its formulas, in fixed memory with room for all. They are lent to `root`,
// as a premise's list is to `premise`: with both answered as values, `derive` and `check` of editor-size questions took 1.11 and
// 1.12 times what they took.
#[derive(Drop)]
pub struct Lists {
    pub nodes: ArrayVec<u32, ALL_CONNECTIVES>,
    pub items: [u8; ROOM],
}

impl Lists {
    pub fn new() -> Lists
        ensures { (result.nodes.items ≡ []) × (result.items ≡ replicate Limits.ROOM 0) }
    {
        Lists {
            nodes: ArrayVec::new(),
            items: [0; ROOM],
        }
    }

    // The same, lent.
    pub fn names(&self) -> Names<'_>
        ensures { (result.nodes.now.items ≡ self.now.nodes.items) × (result.items.now ≡ self.now.items) }
    {
        Names {
            nodes: &self.nodes,
            items: &self.items,
        }
    }
}

// The node of a compound in one number, so that the search among nodes compares one word each: as a struct of a connective and
// two names `decide` takes 1.15 to 1.2 times as long, 1.17 and more of what it took.
fn node(k: Connective, f: u8, g: u8) -> u32
    ensures { result ≡ node (command_of k) f g }
{
    u32::from_le_bytes([u8::from(k), f, g, 0])
}

fn name(n: usize) -> u8
    requires { n < CONNECTIVES }
    ensures { result ≡ Limits.LETTERS + n }
{
    LETTERS + n as u8
}

// The name of the compound that has a node: that of an equal node, or the next.
fn note(nodes: &mut ArrayVec<u32, ALL_CONNECTIVES>, w: u32) -> u8
    requires { (length nodes.old.items < CONNECTIVES)
        × Nodes nodes.old.items
        × (first_of w < Limits.LETTERS + length nodes.old.items)
        × (second_of w < Limits.LETTERS + length nodes.old.items) }
    ensures { Noted w nodes.old.items nodes.new.items result }
{
    if let Some(i) = nodes.as_slice().iter().position(|x| *x == w) {
        return name(i);
    }
    let n = nodes.len();
    nodes.push(w);
    name(n)
}

// Names the formula at a position, and notes the nodes of its compounds. A letter needs no call.
#[cycle(number_number_parts)]
#[inline(always)]
fn number(q: &[u8], nodes: &mut ArrayVec<u32, ALL_CONNECTIVES>, at: usize) -> Ended<u8>
    requires { Numbers q.now at nodes.old.items }
    ensures { Numbered q.now at nodes.old.items nodes.new.items result }
{
    match Connective::try_from(q[at]) {
        Ok(k) => number_parts(q, nodes, at, k),
        Err(_) => Ended {
            value: q[at + 1],
            end: at + 2,
        },
    }
}

// A compound with the connective k: its parts, then itself.
#[cycle(number_number_parts)]
#[inline(never)]
fn number_parts(
    q: &[u8],
    nodes: &mut ArrayVec<u32, ALL_CONNECTIVES>,
    at: usize,
    k: Connective,
) -> Ended<u8>
    requires { Numbers q.now at nodes.old.items × (get_or q.now at 0 ≡ command_of k) }
    ensures { Numbered q.now at nodes.old.items nodes.new.items result }
{
    let f = number(q, nodes, at + 1);
    let g = match k {
        Connective::Not => f,
        Connective::Two(_) => number(q, nodes, f.end),
    };
    Ended {
        value: note(nodes, node(k, f.value, g.value)),
        end: g.end,
    }
}

// The next formula of a side: to the half so far, and the position behind it.
fn enter(q: &[u8], lists: &mut Lists, first: usize, l: Ended<Half>) -> Ended<Half>
    requires { (xs : List Formula) × Loads lists.old.nodes.items lists.old.items first l xs × Enters q.now l xs }
    ensures { ((xs : List Formula) → Loads lists.old.nodes.items lists.old.items first l xs
        → Enters q.now l xs
        → Loads lists.new.nodes.items lists.new.items first result (xs ++ (formula_at q.now l.end ∷ [])))
        × (take (first + l.value.count) lists.new.items ≡ take (first + l.value.count) lists.old.items)
        × (result.end ≡ end_of q.now l.end) }
{
    let f = number(q, &mut lists.nodes, l.end);
    let place = first + l.value.count;
    lists.items[place] = f.value;
    Ended {
        value: Half {
            count: l.value.count + 1,
            ..l.value.with(f.value)
        },
        end: f.end,
    }
}

// The formulas of a side of an accepted question, behind the first so many places.
fn load(xs: Formulas<'_>, lists: &mut Lists, first: usize) -> Ended<Half>
    requires { Loads lists.old.nodes.items lists.old.items first (none_yet xs.start) (before xs.side (question xs.q.bytes.now)) }
    ensures { let S = question xs.entry.q.bytes.now in let ys = on_side xs.entry.side S in Loads lists.new.nodes.items lists.new.items first result (before xs.entry.side S ++ ys)
        × (take first lists.new.items ≡ take first lists.old.items)
        × (result.end ≡ xs.entry.start + bytes_all ys) }
{
    let n = xs.count();
    let mut l = Ended {
        value: Half::default(),
        end: xs.start,
    };
    for _i in 0..n {
        l = enter(xs.q.bytes, lists, first, l);
    }
    l
}

// The running sequent of an accepted question, its nodes and its places.
pub fn root(q: Question<'_>, lists: &mut Lists) -> Running
    ensures { Good lists.new.nodes.items lists.new.items result
        × (sequent_of lists.new.nodes.items lists.new.items result ≡ question q.entry.bytes.now) }
{
    lists.nodes.clear();
    let l = load(q.left(), lists, 0);
    let r = load(q.right(l.end), lists, l.value.count);
    Running {
        left: l.value,
        right: r.value,
    }
}
