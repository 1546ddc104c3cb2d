// The running sequent: the names of its formulas, the table of reductions, and premises made in one pass.
#![tactic(auto)]

ghost use Rattle.std.specs.Prelude.{◌≡◌, [], ◌∷◌, ◌++◌, ◌+◌, ◌-◌, ◌%◌, ◌≤◌, ◌<◌, length};
ghost use Rattle.std.proofs.Math.Seq.{slice};
ghost use Rattle.calculus.specs.declared.Side.TheVariants.{Left, Right};
ghost use Rattle.calculus.specs.Limits;
ghost use Rattle.calculus.specs.Syntax.{Connective as Defined, size};
ghost use Rattle.calculus.specs.Bytes.{CONNECTIVE, code};
ghost use Rattle.calculus.specs.Table.{premise};
ghost use Rattle.question.specs.Connectives.{connective_of, command_of};
ghost use Rattle.sequent.specs.Names.{first_of, second_of};
ghost use Rattle.sequent.specs.Rule.{rule_of, parts_on, placed};
ghost use Rattle.sequent.specs.View.{view, count_of, slot_of, end_of, start_of};
ghost use Rattle.sequent.specs.View.{grown, joined, Covered, Good, name_at};
ghost use Rattle.sequent.specs.Passes.{Fits, Stored, both, Builds};
ghost use Rattle.sequent.specs.Compounds.{Clear, Found, Stands, Paired, rule_for, reduction_at};

mod order;

use arrayvec::ArrayVec;
use calculus::{Pair, Side};
pub use order::{NoOrder, Order};
use question::{ALL_CONNECTIVES, ALL_FORMULAS, Binary, Connective, LETTERS};

// The formulas that a running sequent holds at most.
pub const ROOM: usize = 2 * ALL_FORMULAS + ALL_CONNECTIVES;

// A side of a running sequent: how many formulas stand there, the letters among them, a bit each, and a set that holds the
// compounds among them: it only grows, so it holds reduced ones too.
#[derive(Clone, Copy, Default)]
pub struct Half {
    pub count: usize,
    pub mask: u64,
    pub set: u64,
}

impl Half {
    // With the bit of a name: a letter's in one set, a compound's in the other.
    pub fn with(self, name: u8) -> Half
        ensures { result ≡ grown name self }
    {
        let bit = 1u64 << (name % 64);
        if name < LETTERS {
            Half {
                mask: self.mask | bit,
                ..self
            }
        } else {
            Half {
                set: self.set | bit,
                ..self
            }
        }
    }
}

// A running sequent. The names of its formulas, the left side's and then the right side's, are lent beside it: a letter is named
// by itself, a compound by its node, above the letters, and equal formulas have one name. (An enum of both kinds of name takes
// two bytes, twice what each premise copies.) That the formulas fit the room is asked by the functions that need it: a ghost
// field would ask it of `count` and `start` too, and no function may ask for more than it did. A struct of its own and no
// `Pair<Half>`, since a type of another crate can have no methods here.
#[derive(Clone, Copy)]
pub struct Running {
    pub left: Half,
    pub right: Half,
}

// The nodes of a question's compounds and the names of a sequent's formulas. The running sequent stays beside them, and so what
// holds of all three (`Good`, `Clear`, `Reachable`, `Makes`) stays in clauses, here and in the crates above: `Good` tells which
// formulas the names stand for, by how many nodes, and a ghost field takes only facts that have one proof (it was tried).
// The nodes are lent as their list: a slice is two words, stored and read for each premise.
#[derive(Clone, Copy)]
pub struct Names<'a> {
    pub nodes: &'a ArrayVec<u32, ALL_CONNECTIVES>,
    pub items: &'a [u8; ROOM],
}

// Which of a formula's two parts.
#[derive(Clone, Copy)]
pub enum Which {
    Neither,
    First,
    Second,
    Both,
}

// A premise of the table: which parts go left, and which right.
pub type Placing = Pair<Which>;

// The names of a formula's two parts, and where they go in a premise.
#[derive(Clone, Copy)]
struct Parts {
    p: Placing,
    f: u8,
    g: u8,
}

// A side and a place of it. That a formula stands there is asked where it is used: a type that says so would hold the running
// sequent once more.
#[derive(Clone, Copy)]
pub struct Place {
    pub side: Side,
    pub at: usize,
}

// The compound at a place, by its node. That a node holds a connective's command is asked where the connective is read.
#[derive(Clone, Copy)]
pub struct Reduction {
    pub place: Place,
    pub node: u32,
}

// A premise in the making: the next place of the old list, the next place of the new one, and the stores so far. The lists stay
// beside it: a pass that held the one it stores to could not be copied, and each step would have to lend it on.
#[derive(Clone, Copy)]
pub struct Pass {
    pub from: usize,
    pub to: usize,
    pub stores: usize,
}

// A pass, and the half whose letters or compounds the next parts join.
#[derive(Clone, Copy)]
struct Growing {
    pass: Pass,
    half: Half,
}

// A value, and the stores made for it.
#[derive(Clone, Copy)]
pub struct Counted<T> {
    pub value: T,
    pub stores: usize,
}

const N: Which = Which::Neither;

const F: Which = Which::First;

const G: Which = Which::Second;

const FG: Which = Which::Both;

// The ten reductions, NOT to EQUIV, each on the left and on the right: the parts that go left and right in each premise.
static RULES: [[&[Placing]; 2]; 5] = [
    // NOT
    [&[Pair { left: N, right: F }], &[Pair { left: F, right: N }]],
    // AND
    [
        &[Pair { left: FG, right: N }],
        &[Pair { left: N, right: F }, Pair { left: N, right: G }],
    ],
    // OR
    [
        &[Pair { left: F, right: N }, Pair { left: G, right: N }],
        &[Pair { left: N, right: FG }],
    ],
    // IMPLIES
    [
        &[Pair { left: G, right: N }, Pair { left: N, right: F }],
        &[Pair { left: F, right: G }],
    ],
    // EQUIV
    [
        &[Pair { left: FG, right: N }, Pair { left: N, right: FG }],
        &[Pair { left: F, right: G }, Pair { left: G, right: F }],
    ],
];

// The rule of a connective on a side.
fn rule_of(k: Connective, side: Side) -> &'static [Placing]
    ensures { result.now ≡ rule_of (connective_of k) side }
{
    let i = match k {
        Connective::Not => 0,
        Connective::Two(Binary::And) => 1,
        Connective::Two(Binary::Or) => 2,
        Connective::Two(Binary::Implies) => 3,
        Connective::Two(Binary::Equiv) => 4,
    };
    let j = match side {
        Side::Left => 0,
        Side::Right => 1,
    };
    RULES[i][j]
}

impl Reduction {
    // The command of the compound's connective: a node is one word, as naming searches for words.
    pub fn command(self) -> u8
        ensures { result ≡ self.node % 256 }
    {
        self.node.to_le_bytes()[0]
    }

    // The compound's connective.
    pub fn connective(self) -> Connective
        requires { (k : Defined) × (code (CONNECTIVE k) ≡ self.node % 256) }
        ensures { command_of result ≡ self.node % 256 }
    {
        Connective::try_from(self.command()).unwrap()
    }

    // The row of the table that it goes by: where the parts go in each premise.
    pub fn rule(self) -> &'static [Placing]
        requires { (k : Defined) × (code (CONNECTIVE k) ≡ self.node % 256) }
        ensures { result.now ≡ rule_for self }
    {
        rule_of(self.connective(), self.place.side)
    }
}

// ---- the places of a premise, stored from the first to the last

impl Pass {
    // The old places up to one.
    fn copy(self, old: &[u8; ROOM], new: &mut [u8; ROOM], end: usize) -> Pass
        requires { (self.from ≤ end) × (end ≤ Limits.ROOM) × Fits self (end - self.from) new.old }
        ensures { Stored self result end (slice self.from end old.now) new.old new.new }
    {
        let names = &old[self.from..end];
        let to = self.to + names.len();
        new[self.to..to].copy_from_slice(names);
        Pass {
            from: end,
            to,
            stores: self.stores + names.len(),
        }
    }

    // A name.
    fn put(self, new: &mut [u8; ROOM], name: u8) -> Pass
        requires { Fits self 1 new.old }
        ensures { Stored self result self.from (name ∷ []) new.old new.new }
    {
        new[self.to] = name;
        Pass {
            to: self.to + 1,
            stores: self.stores + 1,
            ..self
        }
    }

    // The formula that makes way.
    fn skip(self) -> Pass
        requires { self.from < Limits.ROOM }
        ensures { (result.from ≡ self.from + 1) × (result.to ≡ self.to) × (result.stores ≡ self.stores) }
    {
        Pass {
            from: self.from + 1,
            ..self
        }
    }
}

impl Growing {
    // The old places up to one. They bring no bits: those are in the half of their own side.
    fn copy(self, old: &[u8; ROOM], new: &mut [u8; ROOM], end: usize) -> Growing
        requires { (self.pass.from ≤ end) × (end ≤ Limits.ROOM) × Fits self.pass (end - self.pass.from) new.old }
        ensures { Stored self.pass result.pass end (slice self.pass.from end old.now) new.old new.new × (result.half ≡ self.half) }
    {
        Growing {
            pass: self.pass.copy(old, new, end),
            ..self
        }
    }

    // A part.
    fn part(self, new: &mut [u8; ROOM], name: u8) -> Growing
        requires { Fits self.pass 1 new.old }
        ensures { Stored self.pass result.pass self.pass.from (name ∷ []) new.old new.new
            × (result.half ≡ joined (name ∷ []) self.half) }
    {
        Growing {
            pass: self.pass.put(new, name),
            half: self.half.with(name),
        }
    }

    // The parts that a premise puts on a side.
    fn parts(self, new: &mut [u8; ROOM], side: Side, x: Parts) -> Growing
        requires { Fits self.pass (length (parts_on side x.p x.f x.g)) new.old }
        ensures { Stored self.pass result.pass self.pass.from (parts_on side x.p x.f x.g) new.old new.new
            × (result.half ≡ joined (parts_on side x.p x.f x.g) self.half) }
    {
        match x.p.on(side) {
            Which::Neither => self,
            Which::First => self.part(new, x.f),
            Which::Second => self.part(new, x.g),
            Which::Both => self.part(new, x.f).part(new, x.g),
        }
    }
}

// The running sequent of a left half and a right one, where the left one's names end at a place of the list.
fn both(l: Growing, r: Growing, end: usize) -> Counted<Running>
    requires { end ≤ r.pass.to }
    ensures { result ≡ both l r end }
{
    Counted {
        value: Running {
            left: Half {
                count: end,
                ..l.half
            },
            right: Half {
                count: r.pass.to - end,
                ..r.half
            },
        },
        stores: r.pass.stores,
    }
}

// ---- the running sequent

// The first place of a name.
fn place_of(names: &[u8], name: u8) -> Option<usize>
    ensures { Stands (λ x. x ≡ name) names.now result }
{
    names.iter().position(|x| *x == name)
}

// The first place of a compound.
fn compound_in(names: &[u8]) -> Option<usize>
    ensures { Stands (λ x. Limits.LETTERS ≤ x) names.now result }
{
    names.iter().position(|x| LETTERS <= *x)
}

impl Running {
    pub fn count(self, side: Side) -> usize
        ensures { result ≡ count_of side self }
    {
        match side {
            Side::Left => self.left.count,
            Side::Right => self.right.count,
        }
    }

    // Where the name at a place stands in the list.
    pub fn slot(self, p: Place) -> usize
        requires { (p.at < count_of p.side self) × (self.left.count + self.right.count ≤ Limits.ROOM) }
        ensures { (result ≡ slot_of p.side p.at self) × (result < Limits.ROOM) }
    {
        match p.side {
            Side::Left => p.at,
            Side::Right => self.left.count + p.at,
        }
    }

    // Where a side's names end in the list.
    fn end(self, side: Side) -> usize
        requires { self.left.count + self.right.count ≤ Limits.ROOM }
        ensures { result ≡ end_of side self }
    {
        match side {
            Side::Left => self.left.count,
            Side::Right => self.left.count + self.right.count,
        }
    }

    // Where the premises of a reduction of the first compound, at a place, are searched from: before it stand letters.
    pub fn start(self, p: Place) -> usize
        ensures { result ≡ start_of p.side p.at self }
    {
        match p.side {
            Side::Left => p.at,
            Side::Right => self.left.count,
        }
    }

    // What is left up to a place, and the parts in place of the formula there.
    #[inline(always)]
    fn replace(
        self,
        a: Growing,
        old: &[u8; ROOM],
        new: &mut [u8; ROOM],
        p: Place,
        x: Parts,
    ) -> Growing
        requires { (p.at < count_of p.side self)
            × (self.left.count + self.right.count ≤ Limits.ROOM)
            × (a.pass.from ≤ slot_of p.side p.at self)
            × Fits
            a.pass
            (slot_of p.side p.at self - a.pass.from + length (parts_on p.side x.p x.f x.g))
            new.old }
        ensures { Stored
            a.pass
            result.pass
            (slot_of p.side p.at self + 1)
            (slice a.pass.from (slot_of p.side p.at self) old.now ++ parts_on p.side x.p x.f x.g)
            new.old
            new.new
            × (result.half ≡ joined (parts_on p.side x.p x.f x.g) a.half) }
    {
        let k = self.slot(p);
        let b = a.copy(old, new, k).parts(new, p.side, x);
        Growing {
            pass: b.pass.skip(),
            ..b
        }
    }

    // What is left up to the end of a side, and the parts behind it.
    #[inline(always)]
    fn append(
        self,
        a: Growing,
        old: &[u8; ROOM],
        new: &mut [u8; ROOM],
        side: Side,
        x: Parts,
    ) -> Growing
        requires { (a.pass.from ≤ end_of side self)
            × (self.left.count + self.right.count ≤ Limits.ROOM)
            × Fits a.pass (end_of side self - a.pass.from + length (parts_on side x.p x.f x.g)) new.old }
        ensures { Stored
            a.pass
            result.pass
            (end_of side self)
            (slice a.pass.from (end_of side self) old.now ++ parts_on side x.p x.f x.g)
            new.old
            new.new
            × (result.half ≡ joined (parts_on side x.p x.f x.g) a.half) }
    {
        let k = self.end(side);
        a.copy(old, new, k).parts(new, side, x)
    }

    // The parts of the reduced side take the place, the others go to the end of their side.
    #[inline(always)]
    fn build(self, old: &[u8; ROOM], new: &mut [u8; ROOM], p: Place, x: Parts) -> Counted<Running>
        requires { (p.at < count_of p.side self)
            × (self.left.count + self.right.count ≤ Limits.ROOM)
            × (self.left.count
            + self.right.count
            + length (parts_on Left x.p x.f x.g)
            + length (parts_on Right x.p x.f x.g)
            ≤ Limits.ROOM + 1) }
        ensures { Builds p.side p.at x.p x.f x.g self old.now new.old new.new result }
    {
        let n = self.left.count + self.right.count;
        let start = Growing {
            pass: Pass {
                from: 0,
                to: 0,
                stores: 0,
            },
            half: self.left,
        };
        match p.side {
            Side::Left => {
                let l = self.replace(start, old, new, p, x);
                let next = Growing {
                    half: self.right,
                    ..l
                };
                let r = self.append(next, old, new, Side::Right, x);
                both(l, r, l.pass.to + (self.left.count - l.pass.from))
            }
            Side::Right => {
                let l = self.append(start, old, new, Side::Left, x);
                let next = Growing {
                    half: self.right,
                    ..l
                };
                let r = self.replace(next, old, new, p, x).copy(old, new, n);
                both(l, r, l.pass.to)
            }
        }
    }

    // A premise of a reduction: the names of its two parts go where p says. The list is lent (fixed memory), and run, writer and
    // checker each go on from a premise by themselves: a closure in a cycle of calls has to state all that the call inside
    // states, so that one function for the three would say each contract once more.
    #[inline(always)]
    pub fn premise(
        self,
        old: &[u8; ROOM],
        new: &mut [u8; ROOM],
        r: Reduction,
        p: Placing,
    ) -> Counted<Running>
        requires { (r.place.at < count_of r.place.side self)
            × (self.left.count + self.right.count ≤ Limits.ROOM)
            × (size
            (premise r.place.side r.place.at (view self old.now) (placed p (first_of r.node) (second_of r.node)))
            ≤ Limits.ROOM) }
        ensures { Builds
            r.place.side
            r.place.at
            p
            (first_of r.node)
            (second_of r.node)
            self
            old.now
            new.old
            new.new
            result }
    {
        let [_, f, g, _] = r.node.to_le_bytes();
        self.build(old, new, r.place, Parts { p, f, g })
    }

    // The first formula with a connective, the left side before the right, where there is none before a place of the list.
    pub fn first_compound(self, items: &[u8; ROOM], from: usize) -> Option<Place>
        requires { (self.left.count + self.right.count ≤ Limits.ROOM) × Clear from items.now self }
        ensures { Found (view self items.now) result }
    {
        let lefts = self.left.count;
        let n = lefts + self.right.count;
        let i = from + compound_in(&items[from..n])?;
        Some(if i < lefts {
            Place {
                side: Side::Left,
                at: i,
            }
        } else {
            Place {
                side: Side::Right,
                at: i - lefts,
            }
        })
    }

    // How the compound at a place reduces.
    pub fn reduction(self, t: Names<'_>, p: Place) -> Reduction
        requires { Good t.nodes.now.items t.items.now self
            × (p.at < count_of p.side self)
            × (Limits.LETTERS ≤ name_at p.side p.at (view self t.items.now)) }
        ensures { result ≡ reduction_at t.entry.nodes.now.items p.side p.at (view self t.entry.items.now) }
    {
        let k = self.slot(p);
        let n = usize::from(t.items[k] - LETTERS);
        Reduction {
            place: p,
            node: t.nodes.as_slice()[n],
        }
    }

    // The lowest left place of a compound that stands on the right too, with its lowest right place.
    fn search(self, items: &[u8; ROOM]) -> Option<Pair<usize>>
        requires { self.left.count + self.right.count ≤ Limits.ROOM }
        ensures { Paired (view self items.now) result }
    {
        let lefts = self.left.count;
        let n = lefts + self.right.count;
        let right = &items[lefts..n];
        for (i, &x) in items[..lefts].iter().enumerate() {
            if LETTERS <= x {
                if let Some(j) = place_of(right, x) {
                    return Some(Pair { left: i, right: j });
                }
            }
        }
        None
    }

    // The same: where the sets do not meet, no compound stands on both sides.
    pub fn twins(self, items: &[u8; ROOM]) -> Option<Pair<usize>>
        requires { (self.left.count + self.right.count ≤ Limits.ROOM) × Covered self items.now }
        ensures { Paired (view self items.now) result }
    {
        if self.left.set & self.right.set == 0 {
            return None;
        }
        self.search(items)
    }
}
