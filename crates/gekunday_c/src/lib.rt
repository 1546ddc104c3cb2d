// The exports for C: each calls the function of its name in `gekunday`, with the same clauses. They are a crate of their own,
// since a crate is a library or a static one.
#![tactic(auto)]

ghost use Rattle.std.specs.Prelude.{◌≡◌};
ghost use Rattle.calculus.specs.Reply.{decide_reply, width_reply, derive, check_reply, list_states, spell, clauses_reply};
ghost use Rattle.gekunday.specs.Words.{filled, decide_words, formula_words};

// Decides a question within a budget of reductions.
#[unsafe(no_mangle)]
pub extern "C" fn gekunday_decide(q: &[u8], budget: u64, out: &mut [u64; 4]) -> u32
    ensures number { result ≡ (decide_reply q.now budget).number }
    ensures words { out.new ≡ decide_words q.now budget }
{
    gekunday::gekunday_decide(q, budget, out)
}

// The width of a question, and its connectives.
#[unsafe(no_mangle)]
pub extern "C" fn gekunday_width(q: &[u8], out: &mut [u64; 2]) -> u32
    ensures number { result ≡ (width_reply q.now).number }
    ensures words { out.new ≡ filled 2 (width_reply q.now).values }
{
    gekunday::gekunday_width(q, out)
}

// The part of a question that is the formula at a place of a side: 0 left, 1 right.
#[unsafe(no_mangle)]
pub extern "C" fn gekunday_formula(q: &[u8], side: u32, place: usize, out: &mut [u64; 2]) -> u32
    ensures number { result ≡ 0 }
    ensures words { out.new ≡ formula_words q.now side place }
{
    gekunday::gekunday_formula(q, side, place, out)
}

// Decides a question, and writes the derivation of a theorem.
#[unsafe(no_mangle)]
pub extern "C" fn gekunday_derive(
    q: &[u8],
    budget: u64,
    buffer: &mut [u8],
    out: &mut [u64; 3],
) -> u32
    ensures number { result ≡ (derive q.now budget buffer.old).reply.number }
    ensures words { out.new ≡ filled 3 (derive q.now budget buffer.old).reply.values }
    ensures written { buffer.new ≡ (derive q.now budget buffer.old).buffer }
{
    gekunday::gekunday_derive(q, budget, buffer, out)
}

// Checks a derivation of a question.
#[unsafe(no_mangle)]
pub extern "C" fn gekunday_check(q: &[u8], derivation: &[u8], out: &mut [u64; 1]) -> u32
    ensures number { result ≡ (check_reply q.now derivation.now).number }
    ensures words { out.new ≡ filled 1 (check_reply q.now derivation.now).values }
{
    gekunday::gekunday_check(q, derivation, out)
}

// Lists every state that makes a question false.
#[unsafe(no_mangle)]
pub extern "C" fn gekunday_states(q: &[u8], list: &mut [u64], out: &mut [u64; 1]) -> u32
    ensures number { result ≡ (list_states q.now list.old).reply.number }
    ensures words { out.new ≡ filled 1 (list_states q.now list.old).reply.values }
    ensures written { list.new ≡ (list_states q.now list.old).buffer }
{
    gekunday::gekunday_states(q, list, out)
}

// Writes the standard spelling of a question.
#[unsafe(no_mangle)]
pub extern "C" fn gekunday_spell(q: &[u8], buffer: &mut [u8], out: &mut [u64; 1]) -> u32
    ensures number { result ≡ (spell q.now buffer.old).reply.number }
    ensures words { out.new ≡ filled 1 (spell q.now buffer.old).reply.values }
    ensures written { buffer.new ≡ (spell q.now buffer.old).buffer }
{
    gekunday::gekunday_spell(q, buffer, out)
}

// Decides a question of the clause profile by unit clauses alone.
#[unsafe(no_mangle)]
pub extern "C" fn gekunday_clauses(q: &[u8], out: &mut [u64; 3]) -> u32
    ensures number { result ≡ (clauses_reply q.now).number }
    ensures words { out.new ≡ filled 3 (clauses_reply q.now).values }
{
    gekunday::gekunday_clauses(q, out)
}
