// The inner step on a running sequent, the run made from it, and the call that decides.
#![tactic(auto)]

ghost use Rattle.std.specs.Prelude.{◌≡◌, ◌≤◌, IfOk};
ghost use Rattle.std.proofs.Math.Option.{none};
ghost use Rattle.calculus.specs.Bytes.{question};
ghost use Rattle.calculus.specs.Reached.{Reachable};
ghost use Rattle.calculus.specs.Reply.{decide_reply};
ghost use Rattle.calculus.specs.Tree.{verdict_of, verdict, outcome, closing, afford, reduced};
ghost use Rattle.sequent.specs.View.{view, sequent_of, Good};
ghost use Rattle.sequent.specs.Compounds.{Clear, FoundAt, compound_at, premises_at, premise_by, Makes};
ghost use Rattle.prover.specs.Answers.{decision_of, Promised};
ghost use Rattle.prover.specs.Inner.{inner_of, Ready, Stepped, First};
ghost use Rattle.prover.specs.Runs.{ended, Ran, Comes};

use calculus::{Kind, Outcome, Pair, Verdict};
use names::Lists;
use question::{Question, Refusal};
use sequent::{Counted, Names, Place, Placing, ROOM, Reduction, Running};

// What is due at a sequent, with the reductions left.
#[derive(Clone, Copy)]
pub enum Finding {
    // A letter stands on both sides: the lowest.
    Closed(u32),
    // A compound stands on both sides: at these places.
    Paired(Pair<usize>),
    // No connective is left: the state.
    Open(u64),
    Spent,
    // How the first compound reduces.
    Reduce(Reduction),
}

// The tests at a sequent whose first compound is at a place of a side: SPENT, then the reduction.
fn due_at(t: Names<'_>, s: Running, p: Place, left: u64) -> Finding
    requires { Good t.nodes.now.items t.items.now s × FoundAt (view s t.items.now) p.side p.at }
    ensures { (inner_of t.entry.nodes.now.items (view s t.entry.items.now) result
        ≡ afford left
        (reduced p.side p.at (compound_at t.entry.nodes.now.items p.side p.at (view s t.entry.items.now))))
        × Ready t.entry.nodes.now.items t.entry.items.now s left result }
{
    if left == 0 {
        return Finding::Spent;
    }
    Finding::Reduce(s.reduction(t, p))
}

// The tests at a sequent that is not closed.
fn first_due(t: Names<'_>, s: Running, from: usize, left: u64) -> Finding
    requires { Good t.nodes.now.items t.items.now s
        × Clear from t.items.now s
        × (closing (sequent_of t.nodes.now.items t.items.now s) ≡ none) }
    ensures { Stepped t.entry.nodes.now.items t.entry.items.now s left result }
{
    match s.first_compound(t.items, from) {
        Some(p) => due_at(t, s, p, left),
        None => Finding::Open(s.left.mask),
    }
}

// The inner step: one sequent through the tests in their order, with the reductions left. Its answer says what is due and
// does nothing, so that no run made from it goes on after SPENT. Letters alone stand before place `from`.
#[inline(always)]
pub fn step(t: Names<'_>, s: Running, from: usize, left: u64) -> Finding
    requires { Good t.nodes.now.items t.items.now s × Clear from t.items.now s }
    ensures { Stepped t.entry.nodes.now.items t.entry.items.now s left result }
{
    let shared = s.left.mask & s.right.mask;
    if shared != 0 {
        return Finding::Closed(shared.trailing_zeros());
    }
    match s.twins(t.items) {
        Some(p) => Finding::Paired(p),
        None => first_due(t, s, from, left),
    }
}

fn ended(kind: Kind, left: u64, closings: u64, pairings: u64) -> Outcome
    ensures { result ≡ ended kind left closings pairings }
{
    Outcome {
        kind,
        unspent: left,
        closings,
        pairings,
    }
}

// The run: reductions left go in and come out. That names and nodes are good, that letters stand before `from`, and that the
// sequent is reached from a question, stay in clauses here and above (`sequent::Names` says why).
#[cycle(reduce_run_run_premise)]
#[inline(always)]
fn run(t: Names<'_>, s: Running, from: usize, left: u64) -> Outcome
    requires { Good t.nodes.now.items t.items.now s
        × Clear from t.items.now s
        × Reachable (sequent_of t.nodes.now.items t.items.now s) }
    ensures { result ≡ outcome left (sequent_of t.entry.nodes.now.items t.entry.items.now s) }
{
    match step(t, s, from, left) {
        Finding::Closed(_) => ended(Kind::Theorem, left, 1, 0),
        Finding::Paired(_) => ended(Kind::Theorem, left, 1, 1),
        Finding::Open(state) => ended(Kind::Refuted(state), left, 0, 0),
        Finding::Spent => ended(Kind::Spent, left, 0, 0),
        Finding::Reduce(r) => reduce(t, s, r, left - 1).value,
    }
}

// A premise of the reduction, made and run (`Running::premise` says why it goes on here). It is the one call of the recursion,
// and all else a part of it: so a premise is made in the frame that goes on from it.
#[cycle(reduce_run_run_premise)]
#[inline(never)]
fn run_premise(t: Names<'_>, s: Running, r: Reduction, p: Placing, left: u64) -> Counted<Outcome>
    requires { Makes t.nodes.now.items t.items.now s r p
        × FoundAt (view s t.items.now) r.place.side r.place.at }
    ensures { Ran left (premise_by t.entry.nodes.now.items t.entry.items.now s r p) result }
{
    let mut next = [0; ROOM];
    let made = s.premise(t.items, &mut next, r, p);
    let t = Names { items: &next, ..t };
    Counted {
        value: run(t, made.value, s.start(r.place), left),
        stores: made.stores,
    }
}

// The reduction that is due: the first premise is finished, then the second is taken up.
#[cycle(reduce_run_run_premise)]
#[inline(always)]
fn reduce(t: Names<'_>, s: Running, r: Reduction, left: u64) -> Counted<Outcome>
    requires { First t.nodes.now.items t.items.now s r }
    ensures { Comes left (premises_at t.entry.nodes.now.items t.entry.items.now s r) result }
{
    let rule = r.rule();
    let mut o = ended(Kind::Theorem, left, 0, 0);
    let mut stores = 0;
    for &p in rule {
        let m = run_premise(t, s, r, p, o.unspent);
        stores += m.stores;
        o = Outcome {
            closings: o.closings + m.value.closings,
            pairings: o.pairings + m.value.pairings,
            ..m.value
        };
        let Kind::Theorem = o.kind else {
            break;
        };
    }
    Counted { value: o, stores }
}

// What the run of an accepted question comes to.
pub fn outcome_of(q: Question<'_>, budget: u64) -> Outcome
    ensures { result ≡ outcome budget (question q.entry.bytes.now) }
{
    let mut lists = Lists::new();
    let s = names::root(q, &mut lists);
    run(lists.names(), s, 0, budget)
}

// What is reported of it: the kind, the reductions and the closings.
pub fn report(o: Outcome, budget: u64) -> Verdict
    requires { o.unspent ≤ budget }
    ensures { result ≡ verdict_of budget o }
{
    Verdict {
        kind: o.kind,
        reductions: budget - o.unspent,
        closings: o.closings,
    }
}

// The verdict of an accepted question.
pub fn verdict_of(q: Question<'_>, budget: u64) -> Verdict
    ensures { result ≡ verdict budget (question q.entry.bytes.now) }
{
    report(outcome_of(q, budget), budget)
}

// Decides a question within a budget of reductions.
pub fn decide(q: &[u8], budget: u64) -> Result<Verdict, Refusal>
    ensures reply { decision_of result ≡ decide_reply q.now budget }
    ensures promise { IfOk result (Promised q.now budget) }
{
    let q = Question::read(q)?;
    Ok(verdict_of(q, budget))
}
