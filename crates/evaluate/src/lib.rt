// The value of an expression: `eval_expr_with_subst` of proof_checker.rs, and the method of `ProofStore` that has the same name. Each expression is evaluated at
// most once in an evaluation.
#![tactic(auto)]

ghost use Rattle.std.specs.Prelude.{◌≡◌, List, [], ◌∷◌, cond, false, ℕ, suc, ◌+◌, ◌≤◌, ◌<◌, length, get_or, take, drop};
ghost use Rattle.index.specs.Loans.{SameLoans};
ghost use Rattle.model.specs.Layout.{sizes_of};
ghost use Rattle.model.specs.Term.{Term, app};
ghost use Rattle.model.specs.Program.{Binding};
ghost use Rattle.model.specs.Program as Program;
ghost use Rattle.model.specs.Check.{or_refuse, add_node};
ghost use Rattle.model.specs.Evaluate.{lookup, validated};
ghost use Rattle.termdag.specs.Store.{terms_of, IndexedIn, room_in, Known};
ghost use Rattle.program.specs.Ready.{Ready, program_for, option_of};
ghost use Rattle.lookups.specs.Keyed.{Keyed};
ghost use Rattle.decode.specs.View.{head_of};
ghost use Rattle.decode.specs.declared.Head as heads;
ghost use Rattle.memo.specs.Memo.{is_noted, Past};
ghost use Rattle.outcome.specs.Does.{outcome_of, DoesIn};
ghost use Rattle.program.specs.Read.{head_for, arguments_for};
ghost use Rattle.evaluate.specs.Value.{custom_term, head_term, bindings_in, bindings_under, eval_for, value_for};
ghost use Rattle.evaluate.specs.Evaluation.{Memo, Knows, KnowsFirst, EvaluatesIn, EvaluatesRootIn};

use cells::wide;
use computing::{compute, find_result};
use decode::{Head, Validator};
use index::{Fill, Store, View};
use lookups::row_value;
use outcome::{Checked, add_app, add_lit, pass, refuse1, refuse2};
use program::read::{arguments_at, head_at};
use program::{lookup_pairs, primitive_at};
use termdag::{find_app, find_lit};

// What an expression is evaluated under: a job with its table of offences and chains, what conditions and lets bound, the pairs of a substitution and those of the
// globals, and the rule that a refusal names.
#[derive(Clone, Copy)]
pub struct Scope<'a> {
    pub job: &'a [u32],
    pub found: &'a [u32],
    pub bound: &'a [u32],
    pub pairs: &'a [u32],
    pub globals: &'a [u32],
    pub rule: u32,
}

// The term bound to a name: by conditions and lets, by the substitution, by the globals.
pub fn lookup(bound: &[u32], pairs: &[u32], globals: &[u32], name: u32) -> Option<u32>
    ensures { option_of result ≡ lookup (bindings_in bound.now pairs.now globals.now) name }
{
    let first = lookup_pairs(bound, name);
    if let Some(t) = first {
        return Some(t);
    }
    let second = lookup_pairs(pairs, name);
    if let Some(t) = second {
        return Some(t);
    }
    lookup_pairs(globals, name)
}

// A primitive's value, computed or looked up: refusal n where it has no validator, 46 where the validator gives nothing.
fn validated(
    job: &[u32],
    found: &[u32],
    n: u32,
    store: &mut Store<'_>,
    fill: Fill,
    p: u32,
    args: &[u32],
) -> Checked
    requires ready { Ready job.now }
    requires keyed { Keyed job.now found.now }
    requires indexed { IndexedIn store.old fill }
    requires p_bound { p < (sizes_of job.now).primitives }
    requires n_nonzero { 0 < n }
    ensures does { DoesIn store.old fill store.new result.fill result.refusal result.value (validated (room_in store.old) (program_for job.now) n p args.now (terms_of store.old fill)) }
    ensures loans { SameLoans store.old store.new }
{
    let primitive = primitive_at(job, wide(p));
    let name = primitive.name;
    match primitive.validator {
        Validator::Nothing => refuse1(n, name, fill),
        Validator::Rows => match row_value(job, found, p, args) {
            Some(t) => pass(t, fill),
            None => refuse1(46, name, fill),
        },
        Validator::Computes(operation) => compute(store, fill, operation, name, args),
        Validator::Unknown(_) => refuse1(46, name, fill),
    }
}

// A variable's value.
pub fn variable(
    bound: &[u32],
    pairs: &[u32],
    globals: &[u32],
    rule: u32,
    name: u32,
    fill: Fill,
) -> Checked
    ensures fill_value { result.fill ≡ fill }
    ensures s_value { (s : List Term) → outcome_of result.refusal result.value s ≡ or_refuse (lookup (bindings_in bound.now pairs.now globals.now) name) 45 (rule ∷ name ∷ []) s }
{
    match lookup(bound, pairs, globals, name) {
        Some(t) => pass(t, fill),
        None => refuse2(45, rule, name, fill),
    }
}

// The number that refuses a primitive without validator: 47 in an ordinary fact, 51 elsewhere.
fn no_validator(fact: bool) -> u32
    ensures { result ≡ cond fact 47 51 }
{
    if fact { 47 } else { 51 }
}

// A custom call's value: in an ordinary fact it has none.
fn custom_value(fact: bool, store: &mut Store<'_>, fill: Fill, f: u32, args: &[u32]) -> Checked
    requires indexed { IndexedIn store.old fill }
    requires args_len_bound { length args.now ≤ 16 }
    ensures does { DoesIn store.old fill store.new result.fill result.refusal result.value (custom_term fact (room_in store.old) f args.now (terms_of store.old fill)) }
    ensures loans { SameLoans store.old store.new }
{
    if fact {
        return refuse1(52, f, fill);
    }
    add_app(store, fill, f, args)
}

// The value of an expression from its head and its arguments' values.
pub fn head_value(
    scope: &Scope<'_>,
    fact: bool,
    store: &mut Store<'_>,
    fill: Fill,
    head: Head,
    args: &[u32],
) -> Checked
    requires ready { Ready scope.now.job.now }
    requires keyed { Keyed scope.now.job.now scope.now.found.now }
    requires indexed { IndexedIn store.old fill }
    requires args_len_bound { length args.now ≤ 16 }
    requires by_index { (p : ℕ) → head ≡ heads.Head.Primitive p → p < (sizes_of scope.now.job.now).primitives }
    ensures does { DoesIn store.old fill store.new result.fill result.refusal result.value (head_term fact (room_in store.old) (program_for scope.now.job.now) scope.now.rule (bindings_under scope.now) (head_of head) args.now (terms_of store.old fill)) }
    ensures loans { SameLoans store.old store.new }
{
    match head {
        Head::Lit(l) => add_lit(store, fill, l),
        Head::Var(x) => variable(scope.bound, scope.pairs, scope.globals, scope.rule, x, fill),
        Head::Constructor(f) => add_app(store, fill, f, args),
        Head::Custom(f) => custom_value(fact, store, fill, f, args),
        Head::Primitive(p) => {
            let n = no_validator(fact);
            validated(scope.job, scope.found, n, store, fill, p, args)
        }
    }
}

// The value of an expression that needs no evaluation: it is noted, or a variable that is bound, which is noted then.
fn known_value(scope: &Scope<'_>, memo: &mut [u32], e: u32) -> Option<u32>
    requires ready { Ready scope.now.job.now }
    requires e_bound { e < (sizes_of scope.now.job.now).expressions }
    requires e_in_bounds { e + e + 2 < length memo.old }
    ensures { Knows (head_for scope.now.job.now) (bindings_under scope.now) e memo.old result memo.new }
{
    let at = wide(e);
    if memo::is_noted(memo, at) {
        return Some(memo::value_of(memo, at));
    }
    let head = head_at(scope.job, at);
    let Head::Var(x) = head else {
        return None;
    };
    match lookup(scope.bound, scope.pairs, scope.globals, x) {
        Some(t) => {
            memo::note(memo, at, t);
            Some(t)
        }
        None => None,
    }
}

// The values of a call's arguments from `from` on, as far as they are noted; up to which.
fn noted_values(memo: &[u32], args: &[u32], vals: &mut [u32; 16], from: usize) -> usize
    requires args_len_bound { length args.now ≤ 16 }
    requires from_in_bounds { from ≤ length args.now }
    requires by_index { (j : ℕ) → j < length args.now → get_or args.now j 0 + get_or args.now j 0 + 2 < length memo.now }
    ensures more { (head : ℕ → Program.Head) (σ : List Binding) (m₀ vals₀ : List ℕ) → KnowsFirst head σ args.now m₀ vals₀ from memo.now vals.old → KnowsFirst head σ args.now m₀ vals₀ result memo.now vals.new }
    ensures next { result < length args.now → is_noted memo.now (get_or args.now result 0) ≡ false }
    ensures far { from ≤ result }
{
    for i in from..args.len() {
        let at = wide(args[i]);
        if !memo::is_noted(memo, at) {
            return i;
        }
        vals[i] = memo::value_of(memo, at);
    }
    args.len()
}

// The values of a call's arguments, from the first on, as far as they need no evaluation; how many they are. No `for`: a turn goes on by as many as are noted.
fn known_values(scope: &Scope<'_>, memo: &mut [u32], args: &[u32], vals: &mut [u32; 16]) -> usize
    requires ready { Ready scope.now.job.now }
    requires job_in_bounds { (sizes_of scope.now.job.now).expressions + (sizes_of scope.now.job.now).expressions < length memo.old }
    requires args_len_bound { length args.now ≤ 16 }
    requires by_index { (j : ℕ) → j < length args.now → get_or args.now j 0 < (sizes_of scope.now.job.now).expressions }
    ensures known { KnowsFirst (head_for scope.now.job.now) (bindings_under scope.now) args.now memo.old vals.old result memo.new vals.new }
    ensures next { result < length args.now → is_noted memo.new (get_or args.now result 0) ≡ false }
{
    let mut i = noted_values(memo, args, vals, 0);
    while i < args.len() {
        let known = known_value(scope, memo, args[i]);
        let Some(t) = known else {
            return i;
        };
        vals[i] = t;
        i = noted_values(memo, args, vals, i + 1);
    }
    i
}

// The value of a call whose term is in the store already.
fn find_call(store: &Store<'_>, fill: Fill, f: u32, args: &[u32]) -> Option<u32>
    requires indexed { IndexedIn store.now fill }
    requires args_len_bound { length args.now ≤ 16 }
    ensures { Known result (add_node (room_in store.now) (app f args.now) (terms_of store.now fill)) (terms_of store.now fill) }
{
    let mut ws = [0u32; 17];
    ws[0] = f;
    cells::copy(&mut ws, 1, args);
    let n = args.len() + 1;
    let words = &ws[..n];
    find_app(
        store.kinds,
        store.ends,
        store.pool,
        store.index,
        fill,
        words,
    )
}

// The value of a custom call whose term is in the store already: none in an ordinary fact.
fn find_custom(fact: bool, store: &Store<'_>, fill: Fill, f: u32, args: &[u32]) -> Option<u32>
    requires indexed { IndexedIn store.now fill }
    requires args_len_bound { length args.now ≤ 16 }
    ensures { Known result (custom_term fact (room_in store.now) f args.now (terms_of store.now fill)) (terms_of store.now fill) }
{
    if fact {
        return None;
    }
    find_call(store, fill, f, args)
}

// A primitive's value, if it needs no new term.
fn find_validated(
    job: &[u32],
    found: &[u32],
    store: &Store<'_>,
    fill: Fill,
    p: u32,
    args: &[u32],
) -> Option<u32>
    requires ready { Ready job.now }
    requires keyed { Keyed job.now found.now }
    requires indexed { IndexedIn store.now fill }
    requires p_bound { p < (sizes_of job.now).primitives }
    ensures { (n : ℕ) → Known result (validated (room_in store.now) (program_for job.now) n p args.now (terms_of store.now fill)) (terms_of store.now fill) }
{
    let primitive = primitive_at(job, wide(p));
    match primitive.validator {
        Validator::Nothing | Validator::Unknown(_) => None,
        Validator::Rows => row_value(job, found, p, args),
        Validator::Computes(operation) => {
            let view = View {
                kinds: store.kinds,
                ends: store.ends,
                pool: store.pool,
                index: store.index,
            };
            find_result(&view, fill, operation, args)
        }
    }
}

// The value of an expression from its head and its arguments' values, if it needs no new term: most need none, and this leaves the store alone.
fn find_value(
    job: &[u32],
    found: &[u32],
    fact: bool,
    store: &Store<'_>,
    fill: Fill,
    head: Head,
    args: &[u32],
) -> Option<u32>
    requires ready { Ready job.now }
    requires keyed { Keyed job.now found.now }
    requires indexed { IndexedIn store.now fill }
    requires args_len_bound { length args.now ≤ 16 }
    requires by_index { (p : ℕ) → head ≡ heads.Head.Primitive p → p < (sizes_of job.now).primitives }
    ensures { (rule : ℕ) (σ : List Binding) → Known result (head_term fact (room_in store.now) (program_for job.now) rule σ (head_of head) args.now (terms_of store.now fill)) (terms_of store.now fill) }
{
    match head {
        Head::Lit(l) => find_lit(store.kinds, store.ends, store.pool, store.index, fill, l),
        Head::Var(_) => None,
        Head::Constructor(f) => find_call(store, fill, f, args),
        Head::Custom(f) => find_custom(fact, store, fill, f, args),
        Head::Primitive(p) => find_validated(job, found, store, fill, p, args),
    }
}

// The value of expression e, noted. One that is noted is not evaluated again. An expression that waits for the value of an argument is that argument's value in the memo
// until it has one, so that the way back needs no stack. No `for`: the way goes down and up, by the memo.
pub fn eval(
    scope: &Scope<'_>,
    fact: bool,
    store: &mut Store<'_>,
    fill: Fill,
    memo: &mut [u32],
    e: u32,
) -> Checked
    requires ready { Ready scope.now.job.now }
    requires keyed { Keyed scope.now.job.now scope.now.found.now }
    requires indexed { IndexedIn store.old fill }
    requires e_bound { e < (sizes_of scope.now.job.now).expressions }
    requires memo { Memo (arguments_for scope.now.job.now) (eval_for fact scope.now.job.now scope.now.rule (bindings_under scope.now) (room_in store.old)) (sizes_of scope.now.job.now).expressions (terms_of store.old fill) memo.old }
    ensures does { EvaluatesIn (arguments_for scope.now.job.now) (eval_for fact scope.now.job.now scope.now.rule (bindings_under scope.now)) (sizes_of scope.now.job.now).expressions e store.old fill memo.old store.new result memo.new }
    ensures loans { SameLoans store.old store.new }
{
    let root = wide(e);
    if memo::is_noted(memo, root) {
        return pass(memo::value_of(memo, root), fill);
    }
    let mut vals = [0u32; 16];
    let mut have = fill;
    let mut at = e;
    loop {
        let i = wide(at);
        let args = arguments_at(scope.job, i);
        let count = known_values(scope, memo, args, &mut vals);
        if count < args.len() {
            let below = args[count];
            memo::put_value(memo, wide(below), at);
            at = below;
            continue;
        }
        let head = head_at(scope.job, i);
        let known = find_value(
            scope.job,
            scope.found,
            fact,
            store,
            have,
            head,
            &vals[..count],
        );
        if let Some(t) = known {
            let above = memo::value_of(memo, i);
            memo::note(memo, i, t);
            if at == e {
                return pass(t, have);
            }
            at = above;
            continue;
        }
        let r = head_value(scope, fact, store, have, head, &vals[..count]);
        if r.refusal.number != 0 {
            return r;
        }
        let above = memo::value_of(memo, i);
        memo::note(memo, i, r.value);
        if at == e {
            return r;
        }
        have = r.fill;
        at = above;
    }
}

// The value of expression e: in an ordinary fact, or elsewhere.
pub fn evaluate(
    scope: &Scope<'_>,
    fact: bool,
    store: &mut Store<'_>,
    fill: Fill,
    memo: &mut [u32],
    e: u32,
) -> Checked
    requires ready { Ready scope.now.job.now }
    requires keyed { Keyed scope.now.job.now scope.now.found.now }
    requires indexed { IndexedIn store.old fill }
    requires e_bound { e < (sizes_of scope.now.job.now).expressions }
    requires job_in_bounds { (sizes_of scope.now.job.now).expressions + (sizes_of scope.now.job.now).expressions < length memo.old }
    requires past { Past memo.old }
    ensures does { EvaluatesRootIn (arguments_for scope.now.job.now) (value_for fact scope.now.job.now scope.now.rule (bindings_under scope.now)) (sizes_of scope.now.job.now).expressions e store.old fill store.new result memo.new }
    ensures loans { SameLoans store.old store.new }
{
    memo::new_round(memo);
    eval(scope, fact, store, fill, memo, e)
}
