// The house rules as clauses: a question whose right side is empty and whose left formulas are clauses with at most one
// letter without NOT (Horn clauses) is decided by unit clauses alone (unit propagation). A set of letters is a mask, letter
// k as bit k.
#![tactic(auto)]

ghost use Rattle.std.specs.Prelude.{◌≡◌, List, [], ◌∷◌, map, ◌≤◌, IfOk};
ghost use Rattle.calculus.specs.Fold.{fold, ANY};
ghost use Rattle.calculus.specs.Bytes.{question, side_start, Lettered};
ghost use Rattle.calculus.specs.Tree.{state};
ghost use Rattle.calculus.specs.Clauses.{Clause, profile_from, profile, met, fired, round, settled, fails, decided};
ghost use Rattle.calculus.specs.Reply.{profile_reply, clauses_reply};
ghost use Rattle.question.specs.Positions.{Well, formula_at};
ghost use Rattle.clauses.specs.Walks.{start_at, total, total_of, Within, Onward};
ghost use Rattle.clauses.specs.Masks.{masks_of, clause_at};
ghost use Rattle.clauses.specs.Answers.{reply_of, Decides};
ghost use Rattle.clauses.specs.declared.NotClauses.TheVariants.{Refused};

use arrayvec::ArrayVec;
use calculus::{ClauseVerdict, Settled, Side};
use question::{ALL_FORMULAS, Ended, Question, Refusal};

// A clause: its letters under NOT, and its letters without NOT.
#[derive(Clone, Copy, Default)]
pub struct Masks {
    pub negative: u64,
    pub positive: u64,
}

impl Masks {
    // Its letters under NOT are all lit.
    fn is_met(self, lit: u64) -> bool
        ensures { (c : Clause) → self ≡ masks_of c → result ≡ met lit c }
    {
        self.negative & lit == self.negative
    }

    // The letters that it lights in a round that starts with these lit.
    fn fired(self, lit: u64) -> u64
        ensures { (c : Clause) → self ≡ masks_of c → result ≡ state (fired lit (c ∷ [])) }
    {
        if self.is_met(lit) { self.positive } else { 0 }
    }

    // It is false where these letters are lit.
    fn fails(self, lit: u64) -> bool
        ensures { (c : Clause) → self ≡ masks_of c → result ≡ fails lit c }
    {
        self.is_met(lit) && self.positive & lit == 0
    }
}

// What a walk has gathered: the letters, how many without NOT it met, the position, and the formulas that are due there,
// all joined by OR. No `question::Walk` is in it: that goes from letter to letter, and this one looks at each command.
#[derive(Clone, Copy)]
pub struct Gathered {
    pub masks: Masks,
    pub count: usize,
    pub at: usize,
    pub due: usize,
}

impl Gathered {
    // Nothing yet, where one formula is due.
    fn start(at: usize) -> Gathered
        ensures { result ≡ start_at at }
    {
        Gathered {
            masks: Masks::default(),
            count: 0,
            at,
            due: 1,
        }
    }

    // One command with its operands: a letter, NOT of a letter, or OR, whose two parts are due in its place. A clause has
    // no other. Commands stay bytes: with question's enum clauses take 1.07 to 1.09 times as long (DECISIONS 103).
    fn step(self, q: &[u8]) -> Option<Gathered>
        requires { Within q.now self × (1 ≤ self.due) }
        ensures { (total_of q.now result ≡ total q.now self) × Onward q.now self.at result }
    {
        let at = self.at;
        match q[at] {
            1 => Some(Gathered {
                masks: Masks {
                    positive: question::marked(self.masks.positive, q[at + 1]),
                    ..self.masks
                },
                count: self.count + 1,
                at: at + 2,
                due: self.due - 1,
            }),
            2 if q[at + 1] == 1 => Some(Gathered {
                masks: Masks {
                    negative: question::marked(self.masks.negative, q[at + 2]),
                    ..self.masks
                },
                at: at + 3,
                due: self.due - 1,
                ..self
            }),
            4 => Some(Gathered {
                at: at + 1,
                due: self.due + 1,
                ..self
            }),
            _ => None,
        }
    }

    // All formulas that are due, command by command: how many commands that is, is not known before, so this is no `for`.
    fn all(self, q: &[u8]) -> Option<Gathered>
        requires { Within q.now self }
        ensures { result ≡ total q.now self }
    {
        let mut g = self;
        while 0 < g.due {
            g = g.step(q)?;
        }
        Some(g)
    }
}

// Why clauses do not decide a question, and the place. By the Rust wrapper's name.
#[derive(Clone, Copy)]
pub enum NotClauses {
    Refused(Refusal),
    RightFormula(usize),
    NotClause(usize),
    ManyPositive(usize),
}

impl From<Refusal> for NotClauses {
    ghost from_gives = { λ r e. e ≡ Refused r };

    fn from(r: Refusal) -> NotClauses {
        NotClauses::Refused(r)
    }
}

// The clause of the formula at a position, with at most one letter without NOT, and the position behind it.
fn clause_at(q: &[u8], at: usize) -> Result<Ended<Masks>, NotClauses>
    requires { Well q.now at × Lettered (formula_at q.now at) }
    ensures { result ≡ clause_at q.now at }
{
    let g = Gathered::start(at).all(q).ok_or(NotClauses::NotClause(at))?;
    if 1 < g.count {
        return Err(NotClauses::ManyPositive(at));
    }
    Ok(Ended {
        value: g.masks,
        end: g.at,
    })
}

// The state after a round over the clauses. Here and below a contract speaks of any clauses that have these masks: a struct
// with the clauses in a ghost field would have them twice. A clause that is not met joins an empty mask: with a `filter`
// chains take 1.9 times as long (DECISIONS 80).
fn round(clauses: &[Masks], state: u64) -> u64
    ensures { (cs : List Clause) → clauses.now ≡ map masks_of cs → result ≡ round cs state }
{
    clauses.iter().fold(state, |next, c| next | c.fired(state))
}

// Rounds until one lights none. Each that lights a letter takes it from a clause that lit none before, so there are at most
// as many as clauses.
fn settle(clauses: &[Masks]) -> Settled
    ensures { (cs : List Clause) → clauses.now ≡ map masks_of cs → result ≡ settled cs }
{
    let mut state = 0;
    for rounds in 0..clauses.len() {
        let next = round(clauses, state);
        if next == state {
            return Settled { state, rounds };
        }
        state = next;
    }
    Settled {
        state,
        rounds: clauses.len(),
    }
}

// Some clause is false where these letters are lit.
fn some_fails(clauses: &[Masks], lit: u64) -> bool
    ensures { (cs : List Clause) → clauses.now ≡ map masks_of cs → result ≡ fold ANY (fails lit) cs }
{
    clauses.iter().any(|c| c.fails(lit))
}

// The rounds, and then whether some clause is false.
fn decide(clauses: &[Masks]) -> ClauseVerdict
    ensures { (cs : List Clause) → clauses.now ≡ map masks_of cs → result ≡ decided cs }
{
    let s = settle(clauses);
    if some_fails(clauses, s.state) {
        return ClauseVerdict::Theorem(s.rounds);
    }
    ClauseVerdict::Refuted(s.state, s.rounds)
}

// What the clauses on the left side of an accepted question decide.
fn decide_left(q: Question<'_>) -> Result<ClauseVerdict, NotClauses>
    ensures { let S = question q.entry.bytes.now in reply_of result ≡ profile_reply (profile_from (side_start Side.Left S) S.on_left) }
{
    let formulas = q.left();
    let n = formulas.count();
    let mut at = formulas.start;
    let mut clauses: ArrayVec<Masks, ALL_FORMULAS> = ArrayVec::new();
    for _i in 0..n {
        let next = clause_at(q.bytes, at)?;
        clauses.push(next.value);
        at = next.end;
    }
    Ok(decide(clauses.as_slice()))
}

// Decides an accepted question: 13, or what its left side comes to. Every formula ends with a letter's command and operand,
// so the last byte but one tells if the right side is empty.
fn decide_accepted(q: Question<'_>) -> Result<ClauseVerdict, NotClauses>
    ensures { reply_of result ≡ profile_reply (profile (question q.entry.bytes.now)) }
{
    let tail = q.bytes.len() - 2;
    if q.bytes[tail] == question::head_of(Side::Right) {
        return decide_left(q);
    }
    Err(NotClauses::RightFormula(q.formulas(Side::Right).start))
}

// Decides a question of the profile by unit clauses alone.
pub fn decide_clauses(q: &[u8]) -> Result<ClauseVerdict, NotClauses>
    ensures reply { reply_of result ≡ clauses_reply q.now }
    ensures decides { IfOk result (Decides q.now) }
{
    decide_accepted(Question::read(q)?)
}
