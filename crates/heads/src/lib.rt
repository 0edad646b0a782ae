// Rule heads and merges, from proof_checker.rs: `check_rule_produces_equality` and `run_merge`. A claimed pair is looked for while the actions are evaluated.
#![tactic(auto)]

ghost use Rattle.std.specs.Prelude.{◌≡◌, true, List, [], ◌∷◌, map, ℕ, ◌≤◌, ◌<◌, length, get_or};
ghost use Rattle.index.specs.Loans.{SameLoans};
ghost use Rattle.std.proofs.Math.Option.{none};
ghost use Rattle.model.specs.Layout.{sizes_of};
ghost use Rattle.model.specs.Term.{Term};
ghost use Rattle.model.specs.Program.{Rule, run};
ghost use Rattle.model.specs.Check.{check_that};
ghost use Rattle.model.specs.Action as model;
ghost use Rattle.decode.specs.View.{proposition_of};
ghost use Rattle.termdag.specs.Store.{terms_at, terms_of, StoredAt, room_in};
ghost use Rattle.outcome.specs.Does.{outcome_of};
ghost use Rattle.marks.specs.Marks as closing;
ghost use Rattle.program.specs.Ready.{Ready, program_for, rule_for, option_of};
ghost use Rattle.program.specs.Read.{expr_for, action_for};
ghost use Rattle.evaluate.specs.Value.{bindings_under};
ghost use Rattle.actions.specs.Acting.{StandingIn, Steady, YieldsIn, effect_has};
ghost use Rattle.heads.specs.Heading.{cleared_if, claimed_by, LoneRun, HeadsIn, ProducesIn};

use actions::{Effect, process_action, push_binding, yield_value};
use cells::wide;
use decode::{Action, Name, Proposition};
use evaluate::{Scope, evaluate, lookup};
use index::{Fill, Store, View};
use lookups::merge_of;
use outcome::{Checked, Refusal, pass, refuse1};
use pairs::mark_values;
use program::job::{Table, size};
use program::read::{action_at, rule_actions_at, rule_name_at};

// What a head's actions give: whether the claimed pair, if it is not reflexive, is among their pairs.
#[derive(Clone, Copy)]
pub struct Headed {
    pub refusal: Refusal,
    pub found: bool,
    pub fill: Fill,
}

// The pair is one of a union's two.
fn has_pair(effect: Effect, q: Proposition) -> bool
    ensures { result ≡ effect_has effect (proposition_of q) }
{
    match effect {
        Effect::Bind(_, _) => false,
        Effect::Union(a, b) => ((q.lhs == a) & (q.rhs == b)) | ((q.lhs == b) & (q.rhs == a)),
        Effect::Nothing => false,
    }
}

// No term was found.
fn is_none(l: Option<u32>) -> bool
    ensures { result ≡ true → option_of l ≡ none }
{
    match l {
        Some(_) => false,
        None => true,
    }
}

// After an action the values noted stand: it bound no name, or one that was not bound.
fn is_steady(scope: &Scope<'_>, effect: Effect) -> bool
    ensures { result ≡ true → Steady effect (bindings_under scope.now) }
{
    match effect {
        Effect::Bind(x, _) => is_none(lookup(scope.bound, scope.pairs, scope.globals, x)),
        Effect::Union(_, _) => true,
        Effect::Nothing => true,
    }
}

// `process_actions` for a head. The actions share a round of the memo, up to a let that binds a name anew.
fn head_actions(
    scope: &Scope<'_>,
    store: &mut Store<'_>,
    fill: Fill,
    memo: &mut [u32],
    marking: bool,
    marks: &mut [u32],
    actions: &[u32],
    q: Proposition,
) -> Headed
    requires standing { StandingIn scope.now.job.now scope.now.found.now (bindings_under scope.now) store.old fill memo.old marks.old }
    requires bound_len_bound { length scope.now.bound.now ≤ 32 }
    requires actions_len_bound { length actions.now ≤ 64 }
    requires by_index { (i : ℕ) → i < length actions.now → get_or actions.now i 0 < (sizes_of scope.now.job.now).actions }
    ensures does { HeadsIn (program_for scope.now.job.now) scope.now.rule (map (action_for scope.now.job.now) actions.now) (bindings_under scope.now) (proposition_of q) marking store.old fill marks.old store.new result memo.new marks.new }
    ensures loans { SameLoans store.old store.new }
{
    let mut table = [0u32; 160];
    let mut at = 160 - scope.bound.len();
    cells::copy(&mut table, at, scope.bound);
    let mut have = fill;
    let mut seen = false;
    let mut kept = false;
    for &action in actions {
        let inner = Scope {
            bound: &table[at..],
            ..*scope
        };
        let r = process_action(&inner, store, have, memo, kept, marking, marks, action);
        have = r.fill;
        if r.refusal.number != 0 {
            let refusal = r.refusal;
            return Headed {
                refusal,
                found: false,
                fill: have,
            };
        }
        let effect = r.effect;
        seen = seen | has_pair(effect, q);
        kept = is_steady(&inner, effect);
        at = push_binding(&mut table, at, effect);
    }
    Headed {
        refusal: Refusal::NONE,
        found: seen,
        fill: have,
    }
}

// Clears the marks, if they are used.
pub fn clear_if(marking: bool, marks: &mut [u32])
    ensures { marks.new ≡ cleared_if marking marks.old }
{
    if !marking {
        return;
    }
    marks::clear(marks);
}

// A reflexive pair is among the pairs that the marks stand for: its term is marked, or is once they are closed.
fn is_covered(store: &View<'_>, fill: Fill, marks: &mut [u32], t: u32) -> bool
    requires { StoredAt store.now fill }
    ensures { result ≡ closing.is_marked (closing.close (terms_at store.now fill) fill.cells marks.old) t }
{
    if marks::is_marked(marks, t) {
        return true;
    }
    marks::close(store, fill, marks);
    marks::is_marked(marks, t)
}

// The claimed pair is among the pairs: by the marks where it is reflexive, else by the unions.
pub fn is_claimed(
    store: &View<'_>,
    fill: Fill,
    marking: bool,
    marks: &mut [u32],
    found: bool,
    t: u32,
) -> bool
    requires { StoredAt store.now fill }
    ensures { result ≡ claimed_by marking found (closing.is_marked (closing.close (terms_at store.now fill) fill.cells marks.old) t) }
{
    if !marking {
        return found;
    }
    is_covered(store, fill, marks, t)
}

// 31, where the claimed pair is not among the pairs.
fn produced(claimed: bool, rule: u32, q: Proposition, fill: Fill) -> Checked
    ensures fill_value { result.fill ≡ fill }
    ensures s_value { (s : List Term) → outcome_of result.refusal tt s ≡ check_that claimed 31 (rule ∷ q.lhs ∷ q.rhs ∷ []) s }
{
    if claimed {
        return pass(0, fill);
    }
    Checked {
        refusal: Refusal {
            number: 31,
            count: 3,
            fields: [rule, q.lhs, q.rhs, 0, 0, 0],
        },
        value: 0,
        fill,
    }
}

// The expression of a head that is one action, a set or an expression, if there is marking.
fn lone_run(job: &[u32], marking: bool, actions: &[u32]) -> Option<u32>
    requires ready { Ready job.now }
    requires by_index { (i : ℕ) → i < length actions.now → get_or actions.now i 0 < (sizes_of job.now).actions }
    ensures { (e : ℕ) → result ≡ Some e → LoneRun job.now marking actions.now e }
{
    if !marking {
        return None;
    }
    if actions.len() != 1 {
        return None;
    }
    let action = action_at(job, wide(actions[0]));
    match action {
        Action::Let(_, _) => None,
        Action::Union(_, _) => None,
        Action::Run(e) => Some(e),
        Action::Idle => None,
    }
}

// A head of one such action, for a reflexive claim: its value is compared first, and marked with those below it only where it is another.
fn run_produces(
    scope: &Scope<'_>,
    store: &mut Store<'_>,
    fill: Fill,
    memo: &mut [u32],
    marks: &mut [u32],
    e: u32,
    q: Proposition,
) -> Checked
    requires standing { StandingIn scope.now.job.now scope.now.found.now (bindings_under scope.now) store.old fill memo.old marks.old }
    requires e_bound { e < (sizes_of scope.now.job.now).expressions }
    requires lhs_value { q.lhs ≡ q.rhs }
    ensures does { (t : Rule) → scope.now.rule ≡ t.name → run (expr_for scope.now.job.now e) ∷ [] ≡ t.actions → ProducesIn (program_for scope.now.job.now) t (bindings_under scope.now) (proposition_of q) store.old fill store.new result memo.new }
    ensures loans { SameLoans store.old store.new }
{
    let v = evaluate(scope, false, store, fill, memo, e);
    if v.refusal.number != 0 {
        return v;
    }
    let have = v.fill;
    if v.value == q.lhs {
        return pass(0, have);
    }
    marks::clear(marks);
    mark_values(memo, size(scope.job, Table::Expressions), marks);
    let claimed = is_covered(&store.view(), have, marks, q.lhs);
    produced(claimed, scope.rule, q, have)
}

// `check_rule_produces_equality` for rule r.
pub fn check_rule_produces_equality(
    scope: &Scope<'_>,
    store: &mut Store<'_>,
    fill: Fill,
    memo: &mut [u32],
    marks: &mut [u32],
    r: usize,
    q: Proposition,
) -> Checked
    requires standing { StandingIn scope.now.job.now scope.now.found.now (bindings_under scope.now) store.old fill memo.old marks.old }
    requires bound_len_bound { length scope.now.bound.now ≤ 32 }
    requires r_bound { r < (sizes_of scope.now.job.now).rules }
    ensures does { ProducesIn (program_for scope.now.job.now) (rule_for scope.now.job.now r) (bindings_under scope.now) (proposition_of q) store.old fill store.new result memo.new }
    ensures loans { SameLoans store.old store.new }
{
    let marking = q.lhs == q.rhs;
    let rule = rule_name_at(scope.job, r);
    let named = Scope { rule, ..*scope };
    let actions = rule_actions_at(scope.job, r);
    let lone = lone_run(scope.job, marking, actions);
    if let Some(e) = lone {
        return run_produces(&named, store, fill, memo, marks, e, q);
    }
    clear_if(marking, marks);
    let h = head_actions(&named, store, fill, memo, marking, marks, actions, q);
    let have = h.fill;
    if h.refusal.number != 0 {
        let refusal = h.refusal;
        return Checked {
            refusal,
            value: 0,
            fill: have,
        };
    }
    let claimed = is_claimed(&store.view(), have, marking, marks, h.found, q.lhs);
    produced(claimed, rule, q, have)
}

// `run_merge`: with `old` and `new` alone.
pub fn run_merge(
    job: &[u32],
    found: &[u32],
    store: &mut Store<'_>,
    fill: Fill,
    memo: &mut [u32],
    marking: bool,
    marks: &mut [u32],
    function: u32,
    old: u32,
    new: u32,
) -> Checked
    requires { StandingIn job.now found.now (model.merge_bindings old new) store.old fill memo.old marks.old }
    ensures does { YieldsIn (program_for job.now) (model.merge_bindings old new) (model.run_merge (room_in store.old) (program_for job.now) function old new (terms_of store.old fill)) marking store.old fill marks.old store.new result memo.new marks.new }
    ensures loans { SameLoans store.old store.new }
{
    let merge = merge_of(job, found, function);
    let bound = [Name::OLD.number, old, Name::NEW.number, new];
    let none = [0u32; 0];
    match merge {
        None => refuse1(43, function, fill),
        Some(e) => {
            memo::new_round(memo);
            let scope = Scope {
                job,
                found,
                bound: &bound,
                pairs: &none,
                globals: &none,
                rule: Name::MERGE_FUNCTION.number,
            };
            yield_value(&scope, store, fill, memo, marking, marks, e)
        }
    }
}
