// Actions, rule heads and merges, from proof_checker.rs. Pairs are not collected: marks stand for the reflexive ones, and a union's two are tested or kept.
#![tactic(auto)]

ghost use Rattle.std.specs.Prelude.{◌≡◌, true, false, ◌+◌, ◌≤◌, ◌<◌, length};
ghost use Rattle.index.specs.Loans.{SameLoans};
ghost use Rattle.model.specs.Layout.{sizes_of};
ghost use Rattle.model.specs.Program.{bind, union, run};
ghost use Rattle.model.specs.Evaluate.{eval_expr};
ghost use Rattle.termdag.specs.Store.{terms_of, room_in};
ghost use Rattle.program.specs.Ready.{program_for};
ghost use Rattle.program.specs.Read.{expr_for, action_for};
ghost use Rattle.evaluate.specs.Value.{bindings_under};
ghost use Rattle.memo.specs.Memo.{Past, Started};
ghost use Rattle.actions.specs.Acting.{StandingIn, GoingIn, marked_if, YieldsIn, ActsIn, Pushed};

use cells::wide;
use decode::Action;
use evaluate::{Scope, eval};
use index::{Fill, Store};
use outcome::{Checked, Refusal};
use pairs::mark_values;
use program::job::{Table, size};
use program::read::action_at;

// What an action did: bound a name to a term, joined two terms, or neither. An Option of the first two would be told apart in two matches where this takes one.
#[derive(Clone, Copy)]
pub enum Effect {
    Bind(u32, u32),
    Union(u32, u32),
    Nothing,
}

// What an action gives.
#[derive(Clone, Copy)]
pub struct Acted {
    pub refusal: Refusal,
    pub effect: Effect,
    pub fill: Fill,
}

// Marks the values of an evaluation, if they are to be marked.
fn mark_if(marking: bool, memo: &[u32], n: usize, marks: &mut [u32])
    requires { n + n < length memo.now }
    ensures { marks.new ≡ marked_if marking memo.now n marks.old }
{
    if !marking {
        return;
    }
    mark_values(memo, n, marks);
}

// The value of expression e, with marks for its pairs.
pub fn yield_value(
    scope: &Scope<'_>,
    store: &mut Store<'_>,
    fill: Fill,
    memo: &mut [u32],
    marking: bool,
    marks: &mut [u32],
    e: u32,
) -> Checked
    requires standing { StandingIn scope.now.job.now scope.now.found.now (bindings_under scope.now) store.old fill memo.old marks.old }
    requires going_2 { GoingIn scope.now.job.now scope.now.rule (bindings_under scope.now) marking store.old fill memo.old marks.old }
    requires e_bound { e < (sizes_of scope.now.job.now).expressions }
    ensures yields { YieldsIn (program_for scope.now.job.now) (bindings_under scope.now) (eval_expr (room_in store.old) (program_for scope.now.job.now) scope.now.rule (bindings_under scope.now) (expr_for scope.now.job.now e) (terms_of store.old fill)) marking store.old fill marks.old store.new result memo.new marks.new }
    ensures going { result.refusal.number ≡ 0 → GoingIn scope.now.job.now scope.now.rule (bindings_under scope.now) marking store.new result.fill memo.new marks.new }
    ensures loans { SameLoans store.old store.new }
{
    let count = size(scope.job, Table::Expressions);
    let r = eval(scope, false, store, fill, memo, e);
    if r.refusal.number != 0 {
        return r;
    }
    mark_if(marking, memo, count, marks);
    r
}

// A let.
fn act_let(
    scope: &Scope<'_>,
    store: &mut Store<'_>,
    fill: Fill,
    memo: &mut [u32],
    marking: bool,
    marks: &mut [u32],
    name: u32,
    e: u32,
) -> Acted
    requires standing { StandingIn scope.now.job.now scope.now.found.now (bindings_under scope.now) store.old fill memo.old marks.old }
    requires going_2 { GoingIn scope.now.job.now scope.now.rule (bindings_under scope.now) marking store.old fill memo.old marks.old }
    requires e_bound { e < (sizes_of scope.now.job.now).expressions }
    ensures acts { ActsIn (program_for scope.now.job.now) scope.now.rule (bind name (expr_for scope.now.job.now e)) (bindings_under scope.now) marking store.old fill marks.old store.new result memo.new marks.new }
    ensures going { result.refusal.number ≡ 0 → GoingIn scope.now.job.now scope.now.rule (bindings_under scope.now) marking store.new result.fill memo.new marks.new }
    ensures loans { SameLoans store.old store.new }
{
    let r = yield_value(scope, store, fill, memo, marking, marks, e);
    let refusal = r.refusal;
    let fill = r.fill;
    Acted {
        refusal,
        effect: Effect::Bind(name, r.value),
        fill,
    }
}

// A set or an expression.
fn act_run(
    scope: &Scope<'_>,
    store: &mut Store<'_>,
    fill: Fill,
    memo: &mut [u32],
    marking: bool,
    marks: &mut [u32],
    e: u32,
) -> Acted
    requires standing { StandingIn scope.now.job.now scope.now.found.now (bindings_under scope.now) store.old fill memo.old marks.old }
    requires going_2 { GoingIn scope.now.job.now scope.now.rule (bindings_under scope.now) marking store.old fill memo.old marks.old }
    requires e_bound { e < (sizes_of scope.now.job.now).expressions }
    ensures acts { ActsIn (program_for scope.now.job.now) scope.now.rule (run (expr_for scope.now.job.now e)) (bindings_under scope.now) marking store.old fill marks.old store.new result memo.new marks.new }
    ensures going { result.refusal.number ≡ 0 → GoingIn scope.now.job.now scope.now.rule (bindings_under scope.now) marking store.new result.fill memo.new marks.new }
    ensures loans { SameLoans store.old store.new }
{
    let r = yield_value(scope, store, fill, memo, marking, marks, e);
    let refusal = r.refusal;
    let fill = r.fill;
    Acted {
        refusal,
        effect: Effect::Nothing,
        fill,
    }
}

// A union.
fn act_union(
    scope: &Scope<'_>,
    store: &mut Store<'_>,
    fill: Fill,
    memo: &mut [u32],
    marking: bool,
    marks: &mut [u32],
    left: u32,
    right: u32,
) -> Acted
    requires standing { StandingIn scope.now.job.now scope.now.found.now (bindings_under scope.now) store.old fill memo.old marks.old }
    requires going_2 { GoingIn scope.now.job.now scope.now.rule (bindings_under scope.now) marking store.old fill memo.old marks.old }
    requires left_bound { left < (sizes_of scope.now.job.now).expressions }
    requires right_bound { right < (sizes_of scope.now.job.now).expressions }
    ensures acts { ActsIn (program_for scope.now.job.now) scope.now.rule (union (expr_for scope.now.job.now left) (expr_for scope.now.job.now right)) (bindings_under scope.now) marking store.old fill marks.old store.new result memo.new marks.new }
    ensures going { result.refusal.number ≡ 0 → GoingIn scope.now.job.now scope.now.rule (bindings_under scope.now) marking store.new result.fill memo.new marks.new }
    ensures loans { SameLoans store.old store.new }
{
    let a = yield_value(scope, store, fill, memo, marking, marks, left);
    let have = a.fill;
    if a.refusal.number != 0 {
        let refusal = a.refusal;
        return Acted {
            refusal,
            effect: Effect::Nothing,
            fill: have,
        };
    }
    let b = yield_value(scope, store, have, memo, marking, marks, right);
    let refusal = b.refusal;
    let fill = b.fill;
    Acted {
        refusal,
        effect: Effect::Union(a.value, b.value),
        fill,
    }
}

// One action, in a round of the memo that may have begun before.
fn act(
    scope: &Scope<'_>,
    store: &mut Store<'_>,
    fill: Fill,
    memo: &mut [u32],
    marking: bool,
    marks: &mut [u32],
    i: u32,
) -> Acted
    requires standing { StandingIn scope.now.job.now scope.now.found.now (bindings_under scope.now) store.old fill memo.old marks.old }
    requires going_2 { GoingIn scope.now.job.now scope.now.rule (bindings_under scope.now) marking store.old fill memo.old marks.old }
    requires i_bound { i < (sizes_of scope.now.job.now).actions }
    ensures acts { ActsIn (program_for scope.now.job.now) scope.now.rule (action_for scope.now.job.now i) (bindings_under scope.now) marking store.old fill marks.old store.new result memo.new marks.new }
    ensures going { result.refusal.number ≡ 0 → GoingIn scope.now.job.now scope.now.rule (bindings_under scope.now) marking store.new result.fill memo.new marks.new }
    ensures loans { SameLoans store.old store.new }
{
    let action = action_at(scope.job, wide(i));
    match action {
        Action::Let(x, e) => act_let(scope, store, fill, memo, marking, marks, x, e),
        Action::Union(l, r) => act_union(scope, store, fill, memo, marking, marks, l, r),
        Action::Run(e) => act_run(scope, store, fill, memo, marking, marks, e),
        Action::Idle => Acted {
            refusal: Refusal::NONE,
            effect: Effect::Nothing,
            fill,
        },
    }
}

// A new round of the memo, unless the one that there is goes on.
fn new_round_unless(kept: bool, memo: &mut [u32])
    requires memo_nonzero { 0 < length memo.old }
    requires past { Past memo.old }
    ensures same { kept ≡ true → memo.new ≡ memo.old }
    ensures fresh { kept ≡ false → Started memo.new }
{
    if kept {
        return;
    }
    memo::new_round(memo)
}

// One action. What the memo has noted is used where it is kept: where no binding has changed since.
pub fn process_action(
    scope: &Scope<'_>,
    store: &mut Store<'_>,
    fill: Fill,
    memo: &mut [u32],
    kept: bool,
    marking: bool,
    marks: &mut [u32],
    i: u32,
) -> Acted
    requires standing { StandingIn scope.now.job.now scope.now.found.now (bindings_under scope.now) store.old fill memo.old marks.old }
    requires going_2 { kept ≡ true → GoingIn scope.now.job.now scope.now.rule (bindings_under scope.now) marking store.old fill memo.old marks.old }
    requires i_bound { i < (sizes_of scope.now.job.now).actions }
    ensures acts { ActsIn (program_for scope.now.job.now) scope.now.rule (action_for scope.now.job.now i) (bindings_under scope.now) marking store.old fill marks.old store.new result memo.new marks.new }
    ensures going { result.refusal.number ≡ 0 → GoingIn scope.now.job.now scope.now.rule (bindings_under scope.now) marking store.new result.fill memo.new marks.new }
    ensures loans { SameLoans store.old store.new }
{
    new_round_unless(kept, memo);
    act(scope, store, fill, memo, marking, marks, i)
}

// Writes what an action bound before the bindings that stand in the table from `at` on; the place where they then start.
pub fn push_binding(table: &mut [u32], at: usize, effect: Effect) -> usize
    requires le_at { 2 ≤ at }
    requires at_in_bounds { at ≤ length table.old }
    ensures { Pushed table.old at effect table.new result }
{
    match effect {
        Effect::Bind(x, t) => {
            table[at - 2] = x;
            table[at - 1] = t;
            at - 2
        }
        Effect::Union(_, _) => at,
        Effect::Nothing => at,
    }
}
