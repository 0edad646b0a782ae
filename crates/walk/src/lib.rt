// The walk over the proofs: `check_proof_with_context` of proof_checker.rs. Each proof is checked once; a reference has a lower number.
#![tactic(auto)]

ghost use Rattle.std.specs.Prelude.{◌≡◌, true, List, suc, ◌+◌, ◌<◌, ◌≤◌, max, length, get_or, set};
ghost use Rattle.index.specs.Loans.{SameLoans};
ghost use Rattle.model.specs.Layout.{sizes_of};
ghost use Rattle.model.specs.Program.{Binding};
ghost use Rattle.model.specs.Walk.{no_proof, claim_at, check_justification, check_proof_with_context};
ghost use Rattle.model.specs.Height.{height};
ghost use Rattle.program.specs.Ready.{Ready, program_for};
ghost use Rattle.program.specs.Read.{fact_for, proofs_for};
ghost use Rattle.normal_form.specs.Search.{Searched};
ghost use Rattle.actions.specs.Acting.{effect_bindings};
ghost use Rattle.conditions.specs.Bound.{bound_over};
ghost use Rattle.turns.specs.Walking.{GroundIn, WalksIn, context_of};
ghost use Rattle.walk.specs.Start.{Starts, Follows, fact_numbers, StartsFact};

use actions::{Effect, push_binding};
use cells::wide;
use conditions::Bound;
use index::{Fill, Store};
use normal_form::is_ordinary;
use outcome::{Checked, pass};
use program::read::rule_facts_at;
use turns::{advance, plan_step, reference};

// A proof's word in scratch: its height where it is checked, else 0.
fn height_noted(scratch: &[u32], at: usize) -> u32
    requires { at < length scratch.now }
    ensures { result ≡ get_or scratch.now at 0 }
{
    scratch[at]
}

// Notes the height of a proof that is checked.
fn note_height(scratch: &mut [u32], at: usize, height: u32)
    requires { at < length scratch.old }
    ensures { scratch.new ≡ set scratch.old at height }
{
    scratch[at] = height;
}

// The greater of two.
fn greater(a: u32, b: u32) -> u32
    ensures { result ≡ max a b }
{
    a.max(b)
}

// What a condition bound, as an action would.
fn effect_of(binds: Option<Bound>) -> Effect
    ensures { (σ : List Binding) → effect_bindings result σ ≡ bound_over binds σ }
{
    match binds {
        Some(b) => Effect::Bind(b.name, b.term),
        None => Effect::Nothing,
    }
}

// How turn i starts: 1 where its proof is walked at once, as in a step that is no rule's; else 0.
fn state_at(rule: bool, count: usize, i: usize) -> usize
    ensures { Starts rule count i result }
{
    if rule {
        return 0;
    }
    if i < count {
        return 1;
    }
    0
}

// The turn after turn i, which was settled in that state. After the last proof of a rule's step the step is over, its head with it.
fn turn_after(state: usize, count: usize, i: usize) -> usize
    requires i_le_count { i ≤ count }
    requires count_bound { count ≤ 16 }
    ensures { Follows state count i result }
{
    if state == 0 {
        return i + 1;
    }
    if i + 1 == count {
        return i + 2;
    }
    i + 1
}

// How turn i of a rule's step starts: 1 where its fact is ordinary; else 0.
fn fact_state(job: &[u32], found: &[u32], r: usize, count: usize, i: usize) -> usize
    requires ready { Ready job.now }
    requires searched { Searched job.now found.now }
    requires r_bound { r < (sizes_of job.now).rules }
    requires count_in_bounds { count ≤ length (fact_numbers job.now r) }
    ensures { StartsFact job.now r count i result }
{
    if count <= i {
        return 0;
    }
    let facts = rule_facts_at(job, r);
    if is_ordinary(job, found, wide(facts[i])) {
        return 1;
    }
    0
}

// The step of proof p, a rule's too, turn by turn: each proof that it needs is walked, between what is done before it and after it. The value is the height: one more than
// the greatest among the proofs walked. The walk and this check call each other, with a falling proof number; all else is done in `advance`, outside of their frames.
// No `for`: a turn starts again with another state, and goes on by one or two.
#[cycle(justify_walk)]
fn justify(
    job: &[u32],
    strict: bool,
    found: &[u32],
    globals: &[u32],
    unions: &[u32],
    store: &mut Store<'_>,
    fill: Fill,
    memo: &mut [u32],
    scratch: &mut [u32],
    p: u32,
) -> Checked
    requires ground { GroundIn job.now found.now globals.now store.old fill memo.old scratch.old }
    requires p_bound { p < (sizes_of job.now).proofs }
    ensures does { WalksIn job.now found.now globals.now unions.now store.old fill scratch.old store.new result.fill result.refusal memo.new scratch.new (λ d. d) (λ room ps done. check_justification room (program_for job.now) (proofs_for job.now) (context_of globals.now ps) (check_proof_with_context room (program_for job.now) (proofs_for job.now) (context_of globals.now ps) strict p) strict p (claim_at (proofs_for job.now) p) (get_or (proofs_for job.now) p no_proof).justification done) }
    ensures high { result.refusal.number ≡ 0 → result.value ≡ height (program_for job.now) (proofs_for job.now) p }
    ensures loans { SameLoans store.old store.new }
{
    let s = plan_step(job, found, p);
    if s.refusal.number != 0 {
        let refusal = s.refusal;
        return Checked {
            refusal,
            value: 0,
            fill,
        };
    }
    let count = s.count;
    let mut bound = [0u32; 34];
    let mut at = 34;
    let mut have = fill;
    let mut most = 0;
    let mut i = 0;
    let mut state = state_at(s.rule, count, i);
    if s.rule {
        state = fact_state(job, found, s.r, count, i);
    }
    while i <= count {
        if state == 1 {
            let next = reference(job, p, s.rule, s.r, s.first, s.second, count, i);
            let cells = store.kinds.len();
            let noted = height_noted(scratch, cells + cells + wide(next));
            if noted != 0 {
                most = greater(most, noted);
                if s.rule {
                    state = 2;
                    continue;
                }
                i += 1;
                state = state_at(s.rule, count, i);
                continue;
            }
            let w = walk(
                job, strict, found, globals, unions, store, have, memo, scratch, next,
            );
            if w.refusal.number != 0 {
                return w;
            }
            have = w.fill;
            most = greater(most, w.value);
            if s.rule {
                state = 2;
                continue;
            }
            i += 1;
            state = state_at(s.rule, count, i);
            continue;
        }
        let c = advance(
            job,
            strict,
            found,
            globals,
            unions,
            &bound[at..],
            store,
            have,
            memo,
            scratch,
            p,
            s.rule,
            s.r,
            s.first,
            s.second,
            count,
            i,
            state,
        );
        have = c.fill;
        if c.refusal.number != 0 {
            let refusal = c.refusal;
            return Checked {
                refusal,
                value: 0,
                fill: have,
            };
        }
        if c.settled {
            let binds = c.binds;
            at = push_binding(&mut bound, at, effect_of(binds));
            i = turn_after(state, count, i);
            state = 0;
            if s.rule {
                state = fact_state(job, found, s.r, count, i);
            }
            continue;
        }
        state = 1;
    }
    pass(most + 1, have)
}

// `check_proof_with_context` for a proof that is not checked yet: one that is, is not walked. The value is the proof's height.
#[cycle(justify_walk)]
pub fn walk(
    job: &[u32],
    strict: bool,
    found: &[u32],
    globals: &[u32],
    unions: &[u32],
    store: &mut Store<'_>,
    fill: Fill,
    memo: &mut [u32],
    scratch: &mut [u32],
    p: u32,
) -> Checked
    requires ground { GroundIn job.now found.now globals.now store.old fill memo.old scratch.old }
    requires p_bound { p < (sizes_of job.now).proofs }
    requires p_value { get_or scratch.old (length store.old.kinds.now + length store.old.kinds.now + p) 0 ≡ 0 }
    ensures does { WalksIn job.now found.now globals.now unions.now store.old fill scratch.old store.new result.fill result.refusal memo.new scratch.new (λ d. d) (λ room ps done. check_proof_with_context room (program_for job.now) (proofs_for job.now) (context_of globals.now ps) strict (suc p) p done) }
    ensures high { result.refusal.number ≡ 0 → result.value ≡ height (program_for job.now) (proofs_for job.now) p }
    ensures loans { SameLoans store.old store.new }
{
    let cells = store.kinds.len();
    let at = cells + cells + wide(p);
    let r = justify(
        job, strict, found, globals, unions, store, fill, memo, scratch, p,
    );
    if r.refusal.number != 0 {
        return r;
    }
    note_height(scratch, at, r.value);
    r
}
