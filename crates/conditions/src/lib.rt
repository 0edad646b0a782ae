// Container side conditions, from proof_checker.rs: what a condition binds.
#![tactic(auto)]

ghost use Rattle.std.specs.Prelude.{◌≡◌, Bool, List, ℕ, ◌+◌, ◌<◌, length};
ghost use Rattle.index.specs.Loans.{SameLoans};
ghost use Rattle.std.proofs.Math.Option.{Option, none, some};
ghost use Rattle.model.specs.Layout.{sizes_of};
ghost use Rattle.model.specs.Term.{Term};
ghost use Rattle.model.specs.Program.{equal, bare, Binding};
ghost use Rattle.model.specs.Fact as model;
ghost use Rattle.termdag.specs.Store.{terms_of, IndexedIn, room_in};
ghost use Rattle.memo.specs.Memo.{Past};
ghost use Rattle.outcome.specs.Does.{outcome_of};
ghost use Rattle.program.specs.Ready.{Ready, program_for, option_of};
ghost use Rattle.lookups.specs.Keyed.{Keyed};
ghost use Rattle.program.specs.Read.{expr_for, fact_for};
ghost use Rattle.evaluate.specs.Value.{bindings_under};
ghost use Rattle.evaluate.specs.Evaluation.{ChecksIn};
ghost use Rattle.conditions.specs.Bound.{bound_over};

use cells::wide;
use decode::Fact;
use evaluate::{Scope, evaluate, lookup};
use index::{Fill, Store};
use normal_form::variable_of;
use outcome::Refusal;
use program::read::fact_at;

// The value of a condition's side, if it has one.
#[derive(Clone, Copy)]
pub struct Side {
    pub refusal: Refusal,
    pub value: Option<u32>,
    pub fill: Fill,
}

// What a condition may bind: a name to a term.
#[derive(Clone, Copy)]
pub struct Bound {
    pub name: u32,
    pub term: u32,
}

// What a condition gives.
#[derive(Clone, Copy)]
pub struct Condition {
    pub refusal: Refusal,
    pub binds: Option<Bound>,
    pub fill: Fill,
}

// `eval_side`: an unbound variable has no value.
fn eval_side(scope: &Scope<'_>, store: &mut Store<'_>, fill: Fill, memo: &mut [u32], e: u32) -> Side
    requires ready { Ready scope.now.job.now }
    requires keyed { Keyed scope.now.job.now scope.now.found.now }
    requires indexed { IndexedIn store.old fill }
    requires job_in_bounds { (sizes_of scope.now.job.now).expressions + (sizes_of scope.now.job.now).expressions < length memo.old }
    requires past { Past memo.old }
    requires e_bound { e < (sizes_of scope.now.job.now).expressions }
    ensures does { ChecksIn store.old fill store.new result.fill result.refusal (option_of result.value) memo.new (model.eval_side (room_in store.old) (program_for scope.now.job.now) scope.now.rule (bindings_under scope.now) (expr_for scope.now.job.now e) (terms_of store.old fill)) }
    ensures loans { SameLoans store.old store.new }
{
    let variable = variable_of(scope.job, e);
    if let Some(x) = variable {
        let value = lookup(scope.bound, scope.pairs, scope.globals, x);
        return Side {
            refusal: Refusal::NONE,
            value,
            fill,
        };
    }
    let r = evaluate(scope, false, store, fill, memo, e);
    let refusal = r.refusal;
    let have = r.fill;
    Side {
        refusal,
        value: Some(r.value),
        fill: have,
    }
}

// A variable without a value is bound to the other side's.
fn bind_output(rule: u32, i: u32, variable: Option<u32>, t: u32, fill: Fill) -> Condition
    ensures fill_value { result.fill ≡ fill }
    ensures s_value { (σ : List Binding) (s : List Term) → outcome_of result.refusal (bound_over result.binds σ) s ≡ model.bind_output rule i σ (option_of variable) t s }
{
    match variable {
        Some(x) => Condition {
            refusal: Refusal::NONE,
            binds: Some(Bound { name: x, term: t }),
            fill,
        },
        None => Condition {
            refusal: Refusal {
                number: 48,
                count: 2,
                fields: [rule, i, 0, 0, 0, 0],
            },
            binds: None,
            fill,
        },
    }
}

// The two sides, where the left one has no value.
fn compare_right(rule: u32, i: u32, left: Option<u32>, b: Option<u32>, fill: Fill) -> Condition
    ensures fill_value { result.fill ≡ fill }
    ensures s_value { (σ : List Binding) (rv : Option ℕ) (s : List Term) → outcome_of result.refusal (bound_over result.binds σ) s ≡ model.compare_sides rule i σ (option_of left) none rv (option_of b) s }
{
    match b {
        Some(y) => bind_output(rule, i, left, y, fill),
        None => Condition {
            refusal: Refusal {
                number: 48,
                count: 2,
                fields: [rule, i, 0, 0, 0, 0],
            },
            binds: None,
            fill,
        },
    }
}

// Two values that must be equal.
fn compare_values(rule: u32, i: u32, x: u32, y: u32, fill: Fill) -> Condition
    ensures fill_value { result.fill ≡ fill }
    ensures s_value { (σ : List Binding) (lv rv : Option ℕ) (s : List Term) → outcome_of result.refusal (bound_over result.binds σ) s ≡ model.compare_sides rule i σ lv (some x) rv (some y) s }
{
    if x == y {
        return Condition {
            refusal: Refusal::NONE,
            binds: None,
            fill,
        };
    }
    Condition {
        refusal: Refusal {
            number: 42,
            count: 4,
            fields: [rule, i, x, y, 0, 0],
        },
        binds: None,
        fill,
    }
}

// The two sides of a condition: each its variable, if it is one, and its value, if it has one.
fn compare_sides(
    rule: u32,
    i: u32,
    left: Option<u32>,
    a: Option<u32>,
    right: Option<u32>,
    b: Option<u32>,
    fill: Fill,
) -> Condition
    ensures fill_value { result.fill ≡ fill }
    ensures s_value { (σ : List Binding) (s : List Term) → outcome_of result.refusal (bound_over result.binds σ) s ≡ model.compare_sides rule i σ (option_of left) (option_of a) (option_of right) (option_of b) s }
{
    let Some(x) = a else {
        return compare_right(rule, i, left, b, fill);
    };
    let Some(y) = b else {
        return bind_output(rule, i, right, x, fill);
    };
    compare_values(rule, i, x, y, fill)
}

// A condition that binds nothing, after its side.
fn binds_nothing(s: Side) -> Condition
    ensures { result ≡ record { refusal = s.refusal; binds = None; fill = s.fill } }
{
    let refusal = s.refusal;
    let binds = None;
    let fill = s.fill;
    Condition {
        refusal,
        binds,
        fill,
    }
}

// A side condition that is an equality, in either mode: the left side, then the right one, then both.
fn check_equality_condition(
    scope: &Scope<'_>,
    store: &mut Store<'_>,
    fill: Fill,
    memo: &mut [u32],
    i: u32,
    left: u32,
    right: u32,
) -> Condition
    requires ready { Ready scope.now.job.now }
    requires keyed { Keyed scope.now.job.now scope.now.found.now }
    requires indexed { IndexedIn store.old fill }
    requires job_in_bounds { (sizes_of scope.now.job.now).expressions + (sizes_of scope.now.job.now).expressions < length memo.old }
    requires past { Past memo.old }
    requires left_bound { left < (sizes_of scope.now.job.now).expressions }
    requires right_bound { right < (sizes_of scope.now.job.now).expressions }
    ensures does { (strict : Bool) → ChecksIn store.old fill store.new result.fill result.refusal (bound_over result.binds (bindings_under scope.now)) memo.new (model.check_side_condition (room_in store.old) (program_for scope.now.job.now) scope.now.rule (bindings_under scope.now) strict (equal i (expr_for scope.now.job.now left) (expr_for scope.now.job.now right)) (terms_of store.old fill)) }
    ensures loans { SameLoans store.old store.new }
{
    let a = eval_side(scope, store, fill, memo, left);
    if a.refusal.number != 0 {
        return binds_nothing(a);
    }
    let b = eval_side(scope, store, a.fill, memo, right);
    if b.refusal.number != 0 {
        return binds_nothing(b);
    }
    let lv = variable_of(scope.job, left);
    let rv = variable_of(scope.job, right);
    let x = a.value;
    let y = b.value;
    compare_sides(scope.rule, i, lv, x, rv, y, b.fill)
}

// A side condition that is a bare call: it passes unevaluated; in strict mode it is evaluated as a side is. It binds nothing.
fn check_bare_condition(
    scope: &Scope<'_>,
    strict: bool,
    store: &mut Store<'_>,
    fill: Fill,
    memo: &mut [u32],
    i: u32,
    e: u32,
) -> Condition
    requires ready { Ready scope.now.job.now }
    requires keyed { Keyed scope.now.job.now scope.now.found.now }
    requires indexed { IndexedIn store.old fill }
    requires job_in_bounds { (sizes_of scope.now.job.now).expressions + (sizes_of scope.now.job.now).expressions < length memo.old }
    requires past { Past memo.old }
    requires e_bound { e < (sizes_of scope.now.job.now).expressions }
    ensures does { ChecksIn store.old fill store.new result.fill result.refusal (bound_over result.binds (bindings_under scope.now)) memo.new (model.check_side_condition (room_in store.old) (program_for scope.now.job.now) scope.now.rule (bindings_under scope.now) strict (bare i (expr_for scope.now.job.now e)) (terms_of store.old fill)) }
    ensures loans { SameLoans store.old store.new }
{
    if strict {
        return binds_nothing(eval_side(scope, store, fill, memo, e));
    }
    Condition {
        refusal: Refusal::NONE,
        binds: None,
        fill,
    }
}

// `check_side_condition`: what it binds.
pub fn check_side_condition(
    scope: &Scope<'_>,
    strict: bool,
    store: &mut Store<'_>,
    fill: Fill,
    memo: &mut [u32],
    i: u32,
) -> Condition
    requires ready { Ready scope.now.job.now }
    requires keyed { Keyed scope.now.job.now scope.now.found.now }
    requires indexed { IndexedIn store.old fill }
    requires job_in_bounds { (sizes_of scope.now.job.now).expressions + (sizes_of scope.now.job.now).expressions < length memo.old }
    requires past { Past memo.old }
    requires i_bound { i < (sizes_of scope.now.job.now).facts }
    ensures does { ChecksIn store.old fill store.new result.fill result.refusal (bound_over result.binds (bindings_under scope.now)) memo.new (model.check_side_condition (room_in store.old) (program_for scope.now.job.now) scope.now.rule (bindings_under scope.now) strict (fact_for scope.now.job.now i) (terms_of store.old fill)) }
    ensures loans { SameLoans store.old store.new }
{
    let fact = fact_at(scope.job, wide(i));
    match fact {
        Fact::Equal(l, r) => check_equality_condition(scope, store, fill, memo, i, l, r),
        Fact::Bare(e) => check_bare_condition(scope, strict, store, fill, memo, i, e),
    }
}
