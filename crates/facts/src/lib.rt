// The ordinary facts of a rule's body against their premises, from proof_checker.rs.
#![tactic(auto)]

ghost use Rattle.std.specs.Prelude.{◌≡◌, List, ◌+◌, ◌<◌, eqb, length, take};
ghost use Rattle.index.specs.Loans.{SameLoans};
ghost use Rattle.std.proofs.Math.Option.{none, some};
ghost use Rattle.model.specs.Layout.{sizes_of};
ghost use Rattle.model.specs.Term.{Term};
ghost use Rattle.model.specs.Program.{Expr, equal, bare};
ghost use Rattle.model.specs.Decode.{arguments_by};
ghost use Rattle.model.specs.Evaluate.{eval_fact_exprs};
ghost use Rattle.model.specs.Fact as model;
ghost use Rattle.decode.specs.View.{proposition_of};
ghost use Rattle.termdag.specs.Store.{terms_of, IndexedIn, room_in};
ghost use Rattle.memo.specs.Memo.{Past};
ghost use Rattle.outcome.specs.Does.{outcome_of};
ghost use Rattle.program.specs.Ready.{Ready, program_for, option_of};
ghost use Rattle.lookups.specs.Keyed.{Keyed};
ghost use Rattle.program.specs.Read.{expr_for, arguments_for, fact_for};
ghost use Rattle.evaluate.specs.Value.{bindings_under};
ghost use Rattle.evaluate.specs.Evaluation.{ChecksIn};
ghost use Rattle.facts.specs.Call.{function_fact_of};

use cells::wide;
use decode::{Fact, Head, Proposition};
use evaluate::{Scope, evaluate};
use index::{Fill, Store};
use normal_form::variable_of;
use outcome::{Checked, Refusal, add_app, pass};
use program::read::{arguments_at, fact_at, head_at};

// What a fact asks its premise to prove.
#[derive(Clone, Copy)]
pub struct Asked {
    pub refusal: Refusal,
    pub pair: Proposition,
    pub fill: Fill,
}

// A custom call = variable: the function and the variable.
#[derive(Clone, Copy)]
pub struct FunctionFact {
    pub function: u32,
    pub variable: u32,
}

// The function that expression e calls, if it is a custom call.
fn custom_of(job: &[u32], e: u32) -> Option<u32>
    requires ready { Ready job.now }
    requires e_bound { e < (sizes_of job.now).expressions }
    ensures { option_of result ≡ model.custom_of (model.head_of (expr_for job.now e)) }
{
    let head = head_at(job, wide(e));
    match head {
        Head::Lit(_) => None,
        Head::Var(_) => None,
        Head::Constructor(_) => None,
        Head::Custom(f) => Some(f),
        Head::Primitive(_) => None,
    }
}

// The values of the arguments of expression e in an ordinary fact, written into `values`. They share one round: what two of them have in common is evaluated once.
fn evaluate_arguments(
    scope: &Scope<'_>,
    store: &mut Store<'_>,
    fill: Fill,
    memo: &mut [u32],
    e: u32,
    values: &mut [u32],
) -> Checked
    requires ready { Ready scope.now.job.now }
    requires keyed { Keyed scope.now.job.now scope.now.found.now }
    requires indexed { IndexedIn store.old fill }
    requires job_in_bounds { (sizes_of scope.now.job.now).expressions + (sizes_of scope.now.job.now).expressions < length memo.old }
    requires past { Past memo.old }
    requires e_bound { e < (sizes_of scope.now.job.now).expressions }
    requires in_bounds { 16 < length values.old }
    ensures does { ChecksIn store.old fill store.new result.fill result.refusal (take (length (arguments_for scope.now.job.now e)) values.new) memo.new (eval_fact_exprs (room_in store.old) (program_for scope.now.job.now) scope.now.rule (bindings_under scope.now) (arguments_by (expr_for scope.now.job.now) (arguments_for scope.now.job.now e)) (terms_of store.old fill)) }
    ensures loans { SameLoans store.old store.new }
{
    let args = arguments_at(scope.job, wide(e));
    memo::new_round(memo);
    let mut have = fill;
    for (i, &argument) in args.iter().enumerate() {
        let r = evaluate::eval(scope, true, store, have, memo, argument);
        if r.refusal.number != 0 {
            return r;
        }
        values[i] = r.value;
        have = r.fill;
    }
    pass(0, have)
}

// What is asked for, after a check.
fn asks(c: Checked, lhs: u32, rhs: u32) -> Asked
    ensures { result ≡ record { refusal = c.refusal; pair = record { lhs = lhs; rhs = rhs }; fill = c.fill } }
{
    let refusal = c.refusal;
    let fill = c.fill;
    Asked {
        refusal,
        pair: Proposition { lhs, rhs },
        fill,
    }
}

// What a function fact asks for: the call, the variable's value appended, equal to itself.
fn wanted_call(
    scope: &Scope<'_>,
    store: &mut Store<'_>,
    fill: Fill,
    memo: &mut [u32],
    e: u32,
    function: u32,
    variable: u32,
) -> Asked
    requires ready { Ready scope.now.job.now }
    requires keyed { Keyed scope.now.job.now scope.now.found.now }
    requires indexed { IndexedIn store.old fill }
    requires job_in_bounds { (sizes_of scope.now.job.now).expressions + (sizes_of scope.now.job.now).expressions < length memo.old }
    requires past { Past memo.old }
    requires e_bound { e < (sizes_of scope.now.job.now).expressions }
    ensures does { (right : Expr) → ChecksIn store.old fill store.new result.fill result.refusal (proposition_of result.pair) memo.new (model.wanted_equality (room_in store.old) (program_for scope.now.job.now) scope.now.rule (bindings_under scope.now) (expr_for scope.now.job.now e) right (some (record { function = function; variable = variable })) (terms_of store.old fill)) }
    ensures loans { SameLoans store.old store.new }
{
    let v = evaluate::variable(
        scope.bound,
        scope.pairs,
        scope.globals,
        scope.rule,
        variable,
        fill,
    );
    if v.refusal.number != 0 {
        return asks(v, 0, 0);
    }
    let mut values = [0u32; 17];
    let r = evaluate_arguments(scope, store, fill, memo, e, &mut values);
    if r.refusal.number != 0 {
        return asks(r, 0, 0);
    }
    let count = arguments_at(scope.job, wide(e)).len();
    values[count] = v.value;
    let end = count + 1;
    let t = add_app(store, r.fill, function, &values[..end]);
    asks(t, t.value, t.value)
}

// What an equality asks for that is no function fact: the values of its sides, which share one round.
fn wanted_values(
    scope: &Scope<'_>,
    store: &mut Store<'_>,
    fill: Fill,
    memo: &mut [u32],
    left: u32,
    right: u32,
) -> Asked
    requires ready { Ready scope.now.job.now }
    requires keyed { Keyed scope.now.job.now scope.now.found.now }
    requires indexed { IndexedIn store.old fill }
    requires job_in_bounds { (sizes_of scope.now.job.now).expressions + (sizes_of scope.now.job.now).expressions < length memo.old }
    requires past { Past memo.old }
    requires left_bound { left < (sizes_of scope.now.job.now).expressions }
    requires right_bound { right < (sizes_of scope.now.job.now).expressions }
    ensures does { ChecksIn store.old fill store.new result.fill result.refusal (proposition_of result.pair) memo.new (model.wanted_equality (room_in store.old) (program_for scope.now.job.now) scope.now.rule (bindings_under scope.now) (expr_for scope.now.job.now left) (expr_for scope.now.job.now right) none (terms_of store.old fill)) }
    ensures loans { SameLoans store.old store.new }
{
    memo::new_round(memo);
    let a = evaluate::eval(scope, true, store, fill, memo, left);
    if a.refusal.number != 0 {
        return asks(a, 0, 0);
    }
    let b = evaluate::eval(scope, true, store, a.fill, memo, right);
    asks(b, a.value, b.value)
}

// What a bare fact asks for: its value, equal to itself.
fn wanted_bare(
    scope: &Scope<'_>,
    store: &mut Store<'_>,
    fill: Fill,
    memo: &mut [u32],
    i: u32,
    e: u32,
) -> Asked
    requires ready { Ready scope.now.job.now }
    requires keyed { Keyed scope.now.job.now scope.now.found.now }
    requires indexed { IndexedIn store.old fill }
    requires job_in_bounds { (sizes_of scope.now.job.now).expressions + (sizes_of scope.now.job.now).expressions < length memo.old }
    requires past { Past memo.old }
    requires e_bound { e < (sizes_of scope.now.job.now).expressions }
    ensures does { ChecksIn store.old fill store.new result.fill result.refusal (proposition_of result.pair) memo.new (model.wanted (room_in store.old) (program_for scope.now.job.now) scope.now.rule (bindings_under scope.now) (bare i (expr_for scope.now.job.now e)) (terms_of store.old fill)) }
    ensures loans { SameLoans store.old store.new }
{
    let t = evaluate(scope, true, store, fill, memo, e);
    asks(t, t.value, t.value)
}

// The function fact that an equality is, if it is one.
fn function_fact(job: &[u32], left: u32, right: u32) -> Option<FunctionFact>
    requires ready { Ready job.now }
    requires left_bound { left < (sizes_of job.now).expressions }
    requires right_bound { right < (sizes_of job.now).expressions }
    ensures { function_fact_of result ≡ model.function_fact (expr_for job.now left) (expr_for job.now right) }
{
    let custom = custom_of(job, left);
    let Some(f) = custom else {
        return None;
    };
    let variable = variable_of(job, right);
    match variable {
        Some(x) => Some(FunctionFact {
            function: f,
            variable: x,
        }),
        None => None,
    }
}

// What an equality asks its premise to prove.
fn wanted_equality(
    scope: &Scope<'_>,
    store: &mut Store<'_>,
    fill: Fill,
    memo: &mut [u32],
    i: u32,
    left: u32,
    right: u32,
) -> Asked
    requires ready { Ready scope.now.job.now }
    requires keyed { Keyed scope.now.job.now scope.now.found.now }
    requires indexed { IndexedIn store.old fill }
    requires job_in_bounds { (sizes_of scope.now.job.now).expressions + (sizes_of scope.now.job.now).expressions < length memo.old }
    requires past { Past memo.old }
    requires left_bound { left < (sizes_of scope.now.job.now).expressions }
    requires right_bound { right < (sizes_of scope.now.job.now).expressions }
    ensures does { ChecksIn store.old fill store.new result.fill result.refusal (proposition_of result.pair) memo.new (model.wanted (room_in store.old) (program_for scope.now.job.now) scope.now.rule (bindings_under scope.now) (equal i (expr_for scope.now.job.now left) (expr_for scope.now.job.now right)) (terms_of store.old fill)) }
    ensures loans { SameLoans store.old store.new }
{
    let call = function_fact(scope.job, left, right);
    match call {
        Some(f) => wanted_call(scope, store, fill, memo, left, f.function, f.variable),
        None => wanted_values(scope, store, fill, memo, left, right),
    }
}

// What an ordinary fact asks its premise to prove.
fn wanted(scope: &Scope<'_>, store: &mut Store<'_>, fill: Fill, memo: &mut [u32], i: u32) -> Asked
    requires ready { Ready scope.now.job.now }
    requires keyed { Keyed scope.now.job.now scope.now.found.now }
    requires indexed { IndexedIn store.old fill }
    requires job_in_bounds { (sizes_of scope.now.job.now).expressions + (sizes_of scope.now.job.now).expressions < length memo.old }
    requires past { Past memo.old }
    requires i_bound { i < (sizes_of scope.now.job.now).facts }
    ensures does { ChecksIn store.old fill store.new result.fill result.refusal (proposition_of result.pair) memo.new (model.wanted (room_in store.old) (program_for scope.now.job.now) scope.now.rule (bindings_under scope.now) (fact_for scope.now.job.now i) (terms_of store.old fill)) }
    ensures loans { SameLoans store.old store.new }
{
    let fact = fact_at(scope.job, wide(i));
    match fact {
        Fact::Equal(l, r) => wanted_equality(scope, store, fill, memo, i, l, r),
        Fact::Bare(e) => wanted_bare(scope, store, fill, memo, i, e),
    }
}

// The premise's pair q is what the equality asks for, w.
fn equality_matches(
    job: &[u32],
    rule: u32,
    i: u32,
    left: u32,
    right: u32,
    w: Proposition,
    q: Proposition,
) -> Refusal
    requires ready { Ready job.now }
    requires left_bound { left < (sizes_of job.now).expressions }
    requires right_bound { right < (sizes_of job.now).expressions }
    ensures { (s : List Term) → outcome_of result tt s ≡ model.matches rule (equal i (expr_for job.now left) (expr_for job.now right)) (proposition_of w) (proposition_of q) s }
{
    let call = function_fact(job, left, right);
    if (q.lhs == w.lhs) & (q.rhs == w.rhs) {
        return Refusal::NONE;
    }
    match call {
        Some(_) => Refusal {
            number: 28,
            count: 4,
            fields: [rule, w.lhs, q.lhs, q.rhs, 0, 0],
        },
        None => Refusal {
            number: 29,
            count: 6,
            fields: [rule, i, w.lhs, w.rhs, q.lhs, q.rhs],
        },
    }
}

// What a bare fact compares: the right sides alone.
fn same_right(w: Proposition, q: Proposition) -> bool
    ensures { result ≡ eqb q.rhs w.rhs }
{
    q.rhs == w.rhs
}

// The premise's pair q is what a bare fact asks for, w.
fn bare_matches(rule: u32, i: u32, w: Proposition, q: Proposition) -> Refusal
    ensures { (e : Expr) (s : List Term) → outcome_of result tt s ≡ model.matches rule (bare i e) (proposition_of w) (proposition_of q) s }
{
    if same_right(w, q) {
        return Refusal::NONE;
    }
    Refusal {
        number: 30,
        count: 4,
        fields: [rule, i, q.rhs, w.rhs, 0, 0],
    }
}

// The premise's pair q is what the fact asks for, w.
fn matches(job: &[u32], rule: u32, i: u32, w: Proposition, q: Proposition) -> Refusal
    requires ready { Ready job.now }
    requires i_bound { i < (sizes_of job.now).facts }
    ensures { (s : List Term) → outcome_of result tt s ≡ model.matches rule (fact_for job.now i) (proposition_of w) (proposition_of q) s }
{
    let fact = fact_at(job, wide(i));
    match fact {
        Fact::Equal(l, r) => equality_matches(job, rule, i, l, r, w, q),
        Fact::Bare(_) => bare_matches(rule, i, w, q),
    }
}

// `check_fact_matches_proposition`
pub fn check_fact_matches_proposition(
    scope: &Scope<'_>,
    store: &mut Store<'_>,
    fill: Fill,
    memo: &mut [u32],
    i: u32,
    q: Proposition,
) -> Checked
    requires ready { Ready scope.now.job.now }
    requires keyed { Keyed scope.now.job.now scope.now.found.now }
    requires indexed { IndexedIn store.old fill }
    requires job_in_bounds { (sizes_of scope.now.job.now).expressions + (sizes_of scope.now.job.now).expressions < length memo.old }
    requires past { Past memo.old }
    requires i_bound { i < (sizes_of scope.now.job.now).facts }
    ensures does { ChecksIn store.old fill store.new result.fill result.refusal tt memo.new (model.check_fact_matches_proposition (room_in store.old) (program_for scope.now.job.now) scope.now.rule (bindings_under scope.now) (fact_for scope.now.job.now i) (proposition_of q) (terms_of store.old fill)) }
    ensures loans { SameLoans store.old store.new }
{
    let w = wanted(scope, store, fill, memo, i);
    let first = w.refusal;
    let have = w.fill;
    if first.number != 0 {
        return Checked {
            refusal: first,
            value: 0,
            fill: have,
        };
    }
    let refusal = matches(scope.job, scope.rule, i, w.pair, q);
    Checked {
        refusal,
        value: 0,
        fill: have,
    }
}
