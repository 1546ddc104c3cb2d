// The width of a question.
#![tactic(auto)]

ghost use Rattle.std.specs.Prelude.{◌≡◌, ℕ, ◌≤◌, length, take, drop, get_or, IfOk};
ghost use Rattle.calculus.specs.Limits.{CONNECTIVES};
ghost use Rattle.calculus.specs.Syntax.{on_side, connectives};
ghost use Rattle.calculus.specs.Bytes.{formulas, question};
ghost use Rattle.calculus.specs.Reply.{width_reply};
ghost use Rattle.question.specs.Positions.{Well, formula_at};
ghost use Rattle.question.specs.Connectives.{binary_of, command_of};
ghost use Rattle.width.specs.Walks.{Fit, exchanged, joined, walk_of, product_of};
ghost use Rattle.width.specs.Answers.{width_of, Sized};

use calculus::Pair;
use question::{Binary, Connective, Formulas, Question, Refusal};

// The pair of the negation of a formula, whose pair this is: the widths on the left and on the right.
pub fn exchanged(f: Pair<u64>) -> Pair<u64>
    ensures { result ≡ exchanged f }
{
    Pair {
        left: f.right,
        right: f.left,
    }
}

// The pair of two formulas joined by a binary connective.
pub fn joined(o: Binary, f: Pair<u64>, g: Pair<u64>) -> Pair<u64>
    requires { Fit f g }
    ensures { result ≡ joined (binary_of o) f g }
{
    match o {
        Binary::And => Pair {
            left: f.left * g.left,
            right: f.right + g.right,
        },
        Binary::Or => Pair {
            left: f.left + g.left,
            right: f.right * g.right,
        },
        Binary::Implies => Pair {
            left: f.right + g.left,
            right: f.left * g.right,
        },
        Binary::Equiv => Pair {
            left: f.left * g.left + f.right * g.right,
            right: f.left * g.right + g.left * f.right,
        },
    }
}

// What a walk over a formula or several comes to, with their connectives and the position behind them.
#[derive(Clone, Copy)]
pub struct Walked<T> {
    pub value: T,
    pub connectives: u64,
    pub end: usize,
}

// The formula at a position: its pair of widths, in one walk over its bytes.
#[cycle(part_widths_widths)]
pub fn widths(q: &[u8], at: usize) -> Walked<Pair<u64>>
    requires { Well q.now at × (connectives (formula_at q.now at) ≤ CONNECTIVES) }
    ensures { result ≡ walk_of q.now at }
{
    match Connective::try_from(q[at]) {
        Ok(k) => part_widths(q, k, at),
        Err(_) => Walked {
            value: Pair { left: 1, right: 1 },
            connectives: 0,
            end: at + 2,
        },
    }
}

// The formula at a position that has the connective k, from its parts. NOT exchanges the pair.
#[cycle(part_widths_widths)]
pub fn part_widths(q: &[u8], k: Connective, at: usize) -> Walked<Pair<u64>>
    requires well { Well q.now at × (connectives (formula_at q.now at) ≤ CONNECTIVES) }
    requires command { get_or q.now at 0 ≡ command_of k }
    ensures { result ≡ walk_of q.now at }
{
    let f = widths(q, at + 1);
    match k {
        Connective::Not => Walked {
            value: exchanged(f.value),
            connectives: f.connectives + 1,
            end: f.end,
        },
        Connective::Two(o) => {
            let g = widths(q, f.end);
            Walked {
                value: joined(o, f.value, g.value),
                connectives: f.connectives + g.connectives + 1,
                end: g.end,
            }
        }
    }
}

// The product of the widths of a side's formulas.
fn product(xs: Formulas<'_>) -> Walked<u64>
    ensures { result ≡ product_of xs.entry.side xs.entry.start (on_side xs.entry.side (question xs.entry.q.bytes.now)) }
{
    let mut all = Walked {
        value: 1,
        connectives: 0,
        end: xs.start,
    };
    for _ in 0..xs.count() {
        let f = widths(xs.q.bytes, all.end);
        all = Walked {
            value: all.value * f.value.on(xs.side),
            connectives: all.connectives + f.connectives,
            end: f.end,
        };
    }
    all
}

// What the width call answers: W and c.
#[derive(Clone, Copy)]
pub struct Measure {
    pub width: u64,
    pub connectives: u64,
}

// The width of a question.
pub fn width(q: &[u8]) -> Result<Measure, Refusal>
    ensures reply { width_of result ≡ width_reply q.now }
    ensures sized { IfOk result (λ m. Sized q.now m.width m.connectives) }
{
    let q = Question::read(q)?;
    let left = product(q.left());
    let right = product(q.right(left.end));
    Ok(Measure {
        width: left.value * right.value,
        connectives: left.connectives + right.connectives,
    })
}
