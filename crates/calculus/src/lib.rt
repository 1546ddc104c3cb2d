// The types that the code and the definitions share.
#![tactic(auto)]

ghost use Rattle.std.specs.Prelude.{◌≡◌};
ghost use Rattle.calculus.specs.Syntax.{other, side_of};

#[derive(Clone, Copy, PartialEq, Eq)]
pub enum Side {
    Left,
    Right,
}

impl Side {
    pub fn other(self) -> Side
        ensures { result ≡ other self }
    {
        match self {
            Side::Left => Side::Right,
            Side::Right => Side::Left,
        }
    }
}

// One for each side.
#[derive(Clone, Copy)]
pub struct Pair<T> {
    pub left: T,
    pub right: T,
}

impl<T: Copy> Pair<T> {
    // That of a side.
    pub fn on(self, side: Side) -> T
        ensures { result ≡ side_of self side }
    {
        match side {
            Side::Left => self.left,
            Side::Right => self.right,
        }
    }
}

// What the reader of a question still expects.
#[derive(Clone, Copy)]
pub enum Expected {
    // The command of a side.
    Head(Side),
    // The number of a side's formulas.
    Count(Side),
    // A formula of a side, and so many more after it.
    Formula(Side, usize),
    // The operand of a letter on a side, and so many formulas after it.
    Operand(Side, usize),
    End,
}

// How a run ends. A refuted question comes with its state.
#[derive(Clone, Copy)]
pub enum Kind {
    Theorem,
    Refuted(u64),
    Spent,
}

// What a run under a budget comes to: its kind, the reductions left, the sequents closed, and how many of these by equal
// formulas.
#[derive(Clone, Copy)]
pub struct Outcome {
    pub kind: Kind,
    pub unspent: u64,
    pub closings: u64,
    pub pairings: u64,
}

// A verdict carries its kind, and beside it the two counts.
#[derive(Clone, Copy)]
pub struct Verdict {
    pub kind: Kind,
    pub reductions: u64,
    pub closings: u64,
}

// Where the rounds over clauses end: the letters that are true there, and the rounds that made one true.
#[derive(Clone, Copy)]
pub struct Settled {
    pub state: u64,
    pub rounds: usize,
}

// What clauses decide, with the rounds. A refuted question comes with its state.
#[derive(Clone, Copy)]
pub enum ClauseVerdict {
    Theorem(usize),
    Refuted(u64, usize),
}

// A part of a question's bytes.
#[derive(Clone, Copy, Default)]
pub struct Part {
    pub start: usize,
    pub count: usize,
}
