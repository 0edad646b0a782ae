// `ProofCheckContext::new`, from proof_checker.rs. The global pairs are not collected: marks stand for the reflexive ones, a table of unions for the others.
#![tactic(auto)]

ghost use Rattle.std.specs.Prelude.{◌≡◌, List, [], ◌+◌, ◌≤◌, ◌<◌, length, drop};
ghost use Rattle.index.specs.Loans.{SameLoans};
ghost use Rattle.model.specs.Layout.{sizes_of};
ghost use Rattle.model.specs.Program as model;
ghost use Rattle.model.specs.Action.{among};
ghost use Rattle.model.specs.Decode.{read_bindings};
ghost use Rattle.decode.specs.View.{proposition_of};
ghost use Rattle.termdag.specs.Store.{terms_of};
ghost use Rattle.program.specs.Ready.{program_for};
ghost use Rattle.program.specs.Read.{action_for};
ghost use Rattle.marks.specs.Covering.{Marks};
ghost use Rattle.actions.specs.Acting.{StandingIn};
ghost use Rattle.context.specs.Contexts.{unions_have, Even, Joined, GlobalPairs, TurnedIn, CollectedIn, ContextIn};

use actions::{Effect, process_action, push_binding};
use decode::{Name, Proposition};
use evaluate::Scope;
use index::{Fill, Store};
use lookups::duplicate_rule_name;
use marks::{clear, close, is_marked};
use outcome::Refusal;
use program::job::globals;

// What the global actions leave: where the bindings start in their table, the words of unions in theirs, and the fill of the store.
#[derive(Clone, Copy)]
pub struct Globals {
    pub refusal: Refusal,
    pub bindings: usize,
    pub unions: usize,
    pub fill: Fill,
}

// Writes a union's two terms behind the words that are there; the number of words then.
fn push_union(unions: &mut [u32], count: usize, effect: Effect) -> usize
    requires count_in_bounds { count + 2 ≤ length unions.old }
    requires even { Even count }
    ensures { Joined unions.old count effect unions.new result }
{
    match effect {
        Effect::Bind(_, _) => count,
        Effect::Union(a, b) => {
            unions[count] = a;
            unions[count + 1] = b;
            count + 2
        }
        Effect::Nothing => count,
    }
}

// The pair is one of the two of a union.
fn has_union(unions: &[u32], q: Proposition) -> bool
    ensures { result ≡ unions_have unions.now (proposition_of q) }
{
    for pair in unions.chunks_exact(2) {
        let a = pair[0];
        let b = pair[1];
        if (q.lhs == a && q.rhs == b) || (q.lhs == b && q.rhs == a) {
            return true;
        }
    }
    false
}

// The pair is a global one.
pub fn is_global_pair(unions: &[u32], marks: &[u32], q: Proposition) -> bool
    ensures { (ps : List model.Proposition) → GlobalPairs ps unions.now marks.now → result ≡ among (proposition_of q) ps }
{
    if q.lhs == q.rhs {
        return is_marked(marks, q.lhs);
    }
    has_union(unions, q)
}

// Global action i, in the context that the table has from `at` on and the first n words of the unions.
fn global_action(
    job: &[u32],
    found: &[u32],
    store: &mut Store<'_>,
    fill: Fill,
    memo: &mut [u32],
    marks: &mut [u32],
    table: &mut [u32],
    at: usize,
    unions: &mut [u32],
    n: usize,
    i: u32,
) -> Globals
    requires standing { StandingIn job.now found.now (read_bindings (drop at table.old)) store.old fill memo.old marks.old }
    requires i_bound { i < (sizes_of job.now).actions }
    requires le_at { 2 ≤ at }
    requires at_in_bounds { at ≤ length table.old }
    requires n_in_bounds { n + 2 ≤ length unions.old }
    requires even { Even n }
    ensures does { TurnedIn (program_for job.now) (action_for job.now i) store.old fill marks.old table.old at unions.old n store.new result memo.new marks.new table.new unions.new }
    ensures loans { SameLoans store.old store.new }
{
    let rule = Name::GLOBAL_ACTIONS.number;
    let none = &job[..0];
    let scope = Scope {
        job,
        found,
        bound: &table[at..],
        pairs: none,
        globals: none,
        rule,
    };
    let r = process_action(&scope, store, fill, memo, false, true, marks, i);
    let refusal = r.refusal;
    let have = r.fill;
    if refusal.number != 0 {
        return Globals {
            refusal,
            bindings: at,
            unions: n,
            fill: have,
        };
    }
    let effect = r.effect;
    let bindings = push_binding(table, at, effect);
    let unions = push_union(unions, n, effect);
    Globals {
        refusal,
        bindings,
        unions,
        fill: have,
    }
}

// The global actions, one after the other.
fn global_actions(
    job: &[u32],
    found: &[u32],
    store: &mut Store<'_>,
    fill: Fill,
    memo: &mut [u32],
    marks: &mut [u32],
    table: &mut [u32],
    unions: &mut [u32],
) -> Globals
    requires standing { StandingIn job.now found.now [] store.old fill memo.old marks.old }
    requires marks { Marks (terms_of store.old fill) marks.old [] }
    requires table_len { length table.old ≡ 512 }
    requires unions_len { length unions.old ≡ 512 }
    ensures does { CollectedIn (program_for job.now) store.old fill store.new result memo.new marks.new table.new unions.new }
    ensures loans { SameLoans store.old store.new }
{
    let count = globals(job);
    let mut have = fill;
    let mut at = 512;
    let mut n = 0;
    for i in 0..count {
        let r = global_action(
            job, found, store, have, memo, marks, table, at, unions, n, i as u32,
        );
        if r.refusal.number != 0 {
            return r;
        }
        have = r.fill;
        at = r.bindings;
        n = r.unions;
    }
    Globals {
        refusal: Refusal::NONE,
        bindings: at,
        unions: n,
        fill: have,
    }
}

// `ProofCheckContext::new`: no two rules of one name, the global actions, and their marks closed.
pub fn new_context(
    job: &[u32],
    found: &[u32],
    store: &mut Store<'_>,
    fill: Fill,
    memo: &mut [u32],
    marks: &mut [u32],
    table: &mut [u32],
    unions: &mut [u32],
) -> Globals
    requires standing { StandingIn job.now found.now [] store.old fill memo.old marks.old }
    requires table_len { length table.old ≡ 512 }
    requires unions_len { length unions.old ≡ 512 }
    ensures does { ContextIn (program_for job.now) store.old fill store.new result memo.new marks.new table.new unions.new }
    ensures loans { SameLoans store.old store.new }
{
    let duplicate = duplicate_rule_name(job, found);
    if let Some(name) = duplicate {
        return Globals {
            refusal: Refusal {
                number: 44,
                count: 1,
                fields: [name, 0, 0, 0, 0, 0],
            },
            bindings: 0,
            unions: 0,
            fill,
        };
    }
    clear(marks);
    let r = global_actions(job, found, store, fill, memo, marks, table, unions);
    if r.refusal.number != 0 {
        return r;
    }
    let have = r.fill;
    close(&store.view(), have, marks);
    r
}
