// Writes the derivation of a theorem.
#![tactic(auto)]

ghost use Rattle.std.specs.Prelude.{◌≡◌, [], ◌∷◌, ◌≤◌, length, take, IfOk};
ghost use Rattle.std.proofs.lemmas.List.Edits.{sets};
ghost use Rattle.calculus.specs.Fold.{fold, SUM, Each};
ghost use Rattle.calculus.specs.Syntax.{size};
ghost use Rattle.calculus.specs.Bytes.{question};
ghost use Rattle.calculus.specs.Reached.{Reachable};
ghost use Rattle.calculus.specs.Derivation.{PAIR, order_code, derivation};
ghost use Rattle.calculus.specs.Reply.{derive};
ghost use Rattle.calculus.specs.Tree.{tree};
ghost use Rattle.sequent.specs.Orders.{byte_of};
ghost use Rattle.sequent.specs.View.{view, sequent_of, Good};
ghost use Rattle.sequent.specs.Compounds.{Clear, FoundAt, premises_at, premise_by, Makes};
ghost use Rattle.prover.specs.Inner.{First};
ghost use Rattle.writer.specs.declared.NotWritten.TheVariants.{Refused};
ghost use Rattle.writer.specs.Answers.{answer_of, IsTheorem, WrittenOut, Evidence};
ghost use Rattle.writer.specs.Emits.{Provable, derivations, Emits};

use calculus::{Kind, Verdict};
use names::Lists;
use prover::Finding;
use question::{Question, Refusal};
use sequent::{Counted, Names, Order, Placing, ROOM, Reduction, Running};

// A derivation that is written: its length, and the verdict.
#[derive(Clone, Copy)]
pub struct Written {
    pub length: u64,
    pub verdict: Verdict,
}

// Why none is written. By the Rust wrapper's name.
#[derive(Clone, Copy)]
pub enum NotWritten {
    Refused(Refusal),
    // Spent or refuted: the verdict.
    NotProved(Verdict),
    // The length needed.
    NoSpace(u64),
}

impl From<Refusal> for NotWritten {
    ghost from_gives = { λ r e. e ≡ Refused r };

    fn from(r: Refusal) -> NotWritten {
        NotWritten::Refused(r)
    }
}

// A command and its operand; answers how many bytes they are.
fn put(out: &mut [u8], o: Order, operand: u8) -> usize
    requires { 2 ≤ length out.old }
    ensures { (result ≡ 2) × (out.new ≡ sets out.old 0 (byte_of o ∷ operand ∷ [])) }
{
    out[0] = u8::from(o);
    out[1] = operand;
    2
}

// 42 and its two operands; answers how many bytes they are.
fn put_pair(out: &mut [u8], left: u8, right: u8) -> usize
    requires { 3 ≤ length out.old }
    ensures { (result ≡ 3) × (out.new ≡ sets out.old 0 (order_code PAIR ∷ left ∷ right ∷ [])) }
{
    put(out, Order::Pair, left);
    out[2] = right;
    3
}

// The derivation of a theorem; answers its length. Letters alone stand before place `from`.
#[cycle(emit_emit_premise_emit_premises)]
#[inline(always)]
fn emit(t: Names<'_>, s: Running, from: usize, out: &mut [u8]) -> usize
    requires { Good t.nodes.now.items t.items.now s
        × Clear from t.items.now s
        × Reachable (sequent_of t.nodes.now.items t.items.now s)
        × Provable (sequent_of t.nodes.now.items t.items.now s)
        × (length (derivation (sequent_of t.nodes.now.items t.items.now s)) ≤ length out.old) }
    ensures { (result ≡ length (derivation (sequent_of t.entry.nodes.now.items t.entry.items.now s)))
        × (out.new
        ≡ sets out.old 0 (derivation (sequent_of t.entry.nodes.now.items t.entry.items.now s))) }
{
    match prover::step(t, s, from, 1) {
        Finding::Closed(k) => put(out, Order::Close, k as u8),
        Finding::Paired(p) => put_pair(out, p.left as u8, p.right as u8),
        Finding::Reduce(r) => {
            let order = Order::Reduce(r.place.side, r.connective());
            let n = put(out, order, r.place.at as u8);
            n + emit_premises(t, s, r, &mut out[n..]).value
        }
        _ => unreachable!(),
    }
}

// A premise of the reduction, made, and its derivation: the one call of the recursion, as in the run.
#[cycle(emit_emit_premise_emit_premises)]
#[inline(never)]
fn emit_premise(
    t: Names<'_>,
    s: Running,
    r: Reduction,
    p: Placing,
    out: &mut [u8],
) -> Counted<usize>
    requires { Makes t.nodes.now.items t.items.now s r p
        × FoundAt (view s t.items.now) r.place.side r.place.at
        × Provable (premise_by t.nodes.now.items t.items.now s r p)
        × (length (derivation (premise_by t.nodes.now.items t.items.now s r p)) ≤ length out.old) }
    ensures { Emits
        (derivation (premise_by t.entry.nodes.now.items t.entry.items.now s r p))
        (size (premise_by t.entry.nodes.now.items t.entry.items.now s r p))
        out.old
        out.new
        result }
{
    let mut next = [0; ROOM];
    let made = s.premise(t.items, &mut next, r, p);
    let t = Names { items: &next, ..t };
    Counted {
        value: emit(t, made.value, s.start(r.place), out),
        stores: made.stores,
    }
}

// The whole derivation of the first premise, then that of the second.
#[cycle(emit_emit_premise_emit_premises)]
#[inline(always)]
fn emit_premises(t: Names<'_>, s: Running, r: Reduction, out: &mut [u8]) -> Counted<usize>
    requires { First t.nodes.now.items t.items.now s r
        × Each Provable (premises_at t.nodes.now.items t.items.now s r)
        × (length (derivations (premises_at t.nodes.now.items t.items.now s r)) ≤ length out.old) }
    ensures { Emits
        (derivations (premises_at t.entry.nodes.now.items t.entry.items.now s r))
        (fold SUM size (premises_at t.entry.nodes.now.items t.entry.items.now s r))
        out.old
        out.new
        result }
{
    let rule = r.rule();
    let mut length = 0;
    let mut stores = 0;
    for &p in rule {
        let e = emit_premise(t, s, r, p, &mut out[length..]);
        length += e.value;
        stores += e.stores;
    }
    Counted {
        value: length,
        stores,
    }
}

// The derivation of a theorem, if the buffer holds it: two bytes for each reduction and closing, and one more for each closing by
// equal formulas.
fn write_out(
    q: Question<'_>,
    v: Verdict,
    pairings: u64,
    buffer: &mut [u8],
) -> Result<Written, NotWritten>
    requires { IsTheorem (question q.bytes.now) v pairings }
    ensures { WrittenOut (question q.entry.bytes.now) v buffer.old buffer.new result }
{
    let length = 2 * (v.reductions + v.closings) + pairings;
    if (buffer.len() as u64) < length {
        return Err(NotWritten::NoSpace(length));
    }
    let mut lists = Lists::new();
    let s = names::root(q, &mut lists);
    emit(lists.names(), s, 0, buffer);
    Ok(Written { length, verdict: v })
}

// Decides a question, and writes the derivation of a theorem.
pub fn derive(q: &[u8], budget: u64, buffer: &mut [u8]) -> Result<Written, NotWritten>
    ensures reply { answer_of result ≡ (derive q.now budget buffer.old).reply }
    ensures written { buffer.new ≡ (derive q.now budget buffer.old).buffer }
    ensures evidence { IfOk result (λ w. (w.verdict.kind ≡ Kind.Theorem) × Evidence q.now (take w.length buffer.new)) }
{
    let q = Question::read(q)?;
    let o = prover::outcome_of(q, budget);
    let v = prover::report(o, budget);
    let Kind::Theorem = v.kind else {
        return Err(NotWritten::NotProved(v));
    };
    write_out(q, v, o.pairings, buffer)
}
