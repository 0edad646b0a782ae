// A step turn by turn: the proofs that it needs, what is done before and after each, and what ends the step. Nothing here walks a proof.
#![tactic(auto)]

ghost use Rattle.std.specs.Prelude.{◌≡◌, ◌+◌, ◌≤◌, ◌<◌, true, false, length, get_or, drop};
ghost use Rattle.index.specs.Loans.{SameLoans};
ghost use Rattle.model.specs.Fact.{is_container_side_condition};
ghost use Rattle.model.specs.Layout.{sizes_of};
ghost use Rattle.termdag.specs.Store.{terms_of, IndexedIn, room_in};
ghost use Rattle.model.specs.Term.{Extends};
ghost use Rattle.memo.specs.Memo.{Past};
ghost use Rattle.outcome.specs.Does.{passed};
ghost use Rattle.normal_form.specs.Search.{Searched};
ghost use Rattle.program.specs.Ready.{Ready, program_for};
ghost use Rattle.lookups.specs.Keyed.{Keyed};
ghost use Rattle.program.specs.Read.{fact_for, proofs_for};
ghost use Rattle.evaluate.specs.Value.{bindings_under};
ghost use Rattle.evaluate.specs.Evaluation.{Sane, ChecksIn};
ghost use Rattle.conditions.specs.Bound.{bound_over};
ghost use Rattle.turns.specs.Walking.{GroundIn, Operates};
ghost use Rattle.turns.specs.Turning.{of_fact, proof_of, no_turn, turns_by, bindings_by, after_turn, before_proof, RuleStep, Planned, Plans, AdvancesIn};

use cells::wide;
use conditions::{Bound, check_side_condition};
use decode::Justification;
use evaluate::Scope;
use facts::check_fact_matches_proposition;
use heads::check_rule_produces_equality;
use index::{Fill, Store};
use lookups::rule_of;
use marks::words_for;
use normal_form::{assert_body_proof_normal_form, is_container_side_condition};
use outcome::{Checked, Refusal, pass};
use program::read::{claim_at, justification_at, premises_at, rule_facts_at, substitution_at};
use steps::conclude;

// What a step refers to: whether it is a rule's, else the proofs that it needs, at most two.
#[derive(Clone, Copy)]
pub struct Needs {
    pub rule: bool,
    pub name: u32,
    pub count: usize,
    pub first: u32,
    pub second: u32,
}

// The proofs that proof p needs.
fn operands(job: &[u32], p: u32) -> Needs
    requires ready { Ready job.now }
    requires p_bound { p < (sizes_of job.now).proofs }
    ensures { Operates job.now p result }
{
    let justification = justification_at(job, wide(p));
    match justification {
        Justification::Fiat => Needs {
            rule: false,
            name: 0,
            count: 0,
            first: 0,
            second: 0,
        },
        Justification::Rule(s) => Needs {
            rule: true,
            name: s.name,
            count: 0,
            first: 0,
            second: 0,
        },
        Justification::MergeFn(s) => Needs {
            rule: false,
            name: 0,
            count: 2,
            first: s.old_proof,
            second: s.new_proof,
        },
        Justification::Trans(a, b) => Needs {
            rule: false,
            name: 0,
            count: 2,
            first: a,
            second: b,
        },
        Justification::Sym(a) => Needs {
            rule: false,
            name: 0,
            count: 1,
            first: a,
            second: 0,
        },
        Justification::Congr(s) => Needs {
            rule: false,
            name: 0,
            count: 2,
            first: s.proof,
            second: s.child_proof,
        },
        Justification::ContainerNormalize(a) => Needs {
            rule: false,
            name: 0,
            count: 1,
            first: a,
            second: 0,
        },
        Justification::Eval => Needs {
            rule: false,
            name: 0,
            count: 0,
            first: 0,
            second: 0,
        },
    }
}

// What a step takes. A rule's: the rule of number r, whose name is `first`, with so many facts. Another's: the first so many of two proofs. Or the step's refusal.
#[derive(Clone, Copy)]
pub struct Plan {
    pub refusal: Refusal,
    pub rule: bool,
    pub r: usize,
    pub count: usize,
    pub first: u32,
    pub second: u32,
}

// How far a stage of a step came: whether it is over, and what it bound.
#[derive(Clone, Copy)]
pub struct Stage {
    pub refusal: Refusal,
    pub settled: bool,
    pub binds: Option<Bound>,
    pub fill: Fill,
}

// A step that needs the proofs that it refers to.
fn plain_plan(ops: Needs) -> Plan
    ensures { result ≡ record { refusal = passed; rule = false; r = 0; count = ops.count; first = ops.first; second = ops.second } }
{
    Plan {
        refusal: Refusal::NONE,
        rule: false,
        r: 0,
        count: ops.count,
        first: ops.first,
        second: ops.second,
    }
}

// A rule's step.
fn rule_plan(job: &[u32], found: &[u32], p: u32, name: u32) -> Plan
    requires ready { Ready job.now }
    requires keyed { Keyed job.now found.now }
    requires p_bound { p < (sizes_of job.now).proofs }
    requires rule_step { RuleStep job.now p name }
    ensures { Plans job.now p result }
{
    let rule = rule_of(job, found, name);
    let Some(r) = rule else {
        return Plan {
            refusal: Refusal {
                number: 32,
                count: 1,
                fields: [name, 0, 0, 0, 0, 0],
            },
            rule: true,
            r: 0,
            count: 0,
            first: 0,
            second: 0,
        };
    };
    let facts = rule_facts_at(job, r).len();
    let premises = premises_at(job, wide(p)).len();
    if facts != premises {
        return Plan {
            refusal: Refusal {
                number: 27,
                count: 4,
                fields: [p, name, facts as u32, premises as u32, 0, 0],
            },
            rule: true,
            r: 0,
            count: 0,
            first: 0,
            second: 0,
        };
    }
    Plan {
        refusal: Refusal::NONE,
        rule: true,
        r,
        count: facts,
        first: name,
        second: 0,
    }
}

// What the step of proof p takes.
pub fn plan_step(job: &[u32], found: &[u32], p: u32) -> Plan
    requires ready { Ready job.now }
    requires keyed { Keyed job.now found.now }
    requires p_bound { p < (sizes_of job.now).proofs }
    ensures { Plans job.now p result }
{
    let ops = operands(job, p);
    if ops.rule {
        return rule_plan(job, found, p, ops.name);
    }
    plain_plan(ops)
}

// The proof that the step's turn i walks.
pub fn reference(
    job: &[u32],
    p: u32,
    rule: bool,
    r: usize,
    first: u32,
    second: u32,
    count: usize,
    i: usize,
) -> u32
    requires ready { Ready job.now }
    requires p_bound { p < (sizes_of job.now).proofs }
    requires planned { Planned job.now p rule r first second count }
    requires i_lt_count { i < count }
    ensures { result ≡ proof_of (get_or (turns_by job.now p rule r first second count) i no_turn) }
{
    if rule {
        let premises = premises_at(job, wide(p));
        return premises[i];
    }
    let refs = [first, second];
    refs[i]
}

// Fact i of a rule before its premise: normal form, and a side condition.
fn before_premise(
    scope: &Scope<'_>,
    strict: bool,
    store: &mut Store<'_>,
    fill: Fill,
    memo: &mut [u32],
    i: u32,
) -> Stage
    requires ready { Ready scope.now.job.now }
    requires keyed { Keyed scope.now.job.now scope.now.found.now }
    requires searched { Searched scope.now.job.now scope.now.found.now }
    requires indexed { IndexedIn store.old fill }
    requires job_in_bounds { (sizes_of scope.now.job.now).expressions + (sizes_of scope.now.job.now).expressions < length memo.old }
    requires past { Past memo.old }
    requires i_bound { i < (sizes_of scope.now.job.now).facts }
    requires sane { Sane (program_for scope.now.job.now) (bindings_under scope.now) (terms_of store.old fill) }
    ensures does { ChecksIn store.old fill store.new result.fill result.refusal (bound_over result.binds (bindings_under scope.now)) memo.new (before_proof (room_in store.old) (program_for scope.now.job.now) (proofs_for scope.now.job.now) strict scope.now.rule (of_fact (fact_for scope.now.job.now i) 0) (bindings_under scope.now) (terms_of store.old fill)) }
    ensures over { result.refusal.number ≡ 0 → result.settled ≡ is_container_side_condition (program_for scope.now.job.now) (fact_for scope.now.job.now i) }
    ensures kept { result.refusal.number ≡ 0 → Extends (terms_of store.old fill) (terms_of store.new result.fill) × Sane (program_for scope.now.job.now) (bound_over result.binds (bindings_under scope.now)) (terms_of store.new result.fill) }
    ensures waits { result.settled ≡ false → result.binds ≡ None }
    ensures loans { SameLoans store.old store.new }
{
    let offence = assert_body_proof_normal_form(scope.job, scope.found, scope.rule, i);
    if offence.number != 0 {
        return Stage {
            refusal: offence,
            settled: true,
            binds: None,
            fill,
        };
    }
    if !is_container_side_condition(scope.job, scope.found, wide(i)) {
        return Stage {
            refusal: offence,
            settled: false,
            binds: None,
            fill,
        };
    }
    let c = check_side_condition(scope, strict, store, fill, memo, i);
    let refusal = c.refusal;
    let binds = c.binds;
    let after = c.fill;
    Stage {
        refusal,
        settled: true,
        binds,
        fill: after,
    }
}

// A stage that is over, with nothing bound.
fn over(c: Checked) -> Stage
    ensures { result ≡ record { refusal = c.refusal; settled = true; binds = None; fill = c.fill } }
{
    let refusal = c.refusal;
    let fill = c.fill;
    Stage {
        refusal,
        settled: true,
        binds: None,
        fill,
    }
}

// Fact i of a rule after its premise, if there is one.
fn after_premise(
    scope: &Scope<'_>,
    store: &mut Store<'_>,
    fill: Fill,
    memo: &mut [u32],
    p: u32,
    r: usize,
    second: u32,
    count: usize,
    i: usize,
) -> Checked
    requires ready { Ready scope.now.job.now }
    requires keyed { Keyed scope.now.job.now scope.now.found.now }
    requires indexed { IndexedIn store.old fill }
    requires job_in_bounds { (sizes_of scope.now.job.now).expressions + (sizes_of scope.now.job.now).expressions < length memo.old }
    requires past { Past memo.old }
    requires p_bound { p < (sizes_of scope.now.job.now).proofs }
    requires planned { Planned scope.now.job.now p true r scope.now.rule second count }
    ensures does { ChecksIn store.old fill store.new result.fill result.refusal tt memo.new (after_turn (room_in store.old) (program_for scope.now.job.now) (proofs_for scope.now.job.now) scope.now.rule (drop i (turns_by scope.now.job.now p true r scope.now.rule second count)) (bindings_under scope.now) (terms_of store.old fill)) }
    ensures loans { SameLoans store.old store.new }
{
    if count <= i {
        return pass(0, fill);
    }
    let facts = rule_facts_at(scope.job, r);
    let premises = premises_at(scope.job, wide(p));
    let q = claim_at(scope.job, wide(premises[i]));
    check_fact_matches_proposition(scope, store, fill, memo, facts[i], q)
}

// Turn i of a rule's step: a fact before its premise or after it; after the last, and where there is none, the head.
fn advance_rule(
    job: &[u32],
    strict: bool,
    found: &[u32],
    globals: &[u32],
    bound: &[u32],
    store: &mut Store<'_>,
    fill: Fill,
    memo: &mut [u32],
    scratch: &mut [u32],
    unions: &[u32],
    p: u32,
    r: usize,
    name: u32,
    second: u32,
    count: usize,
    i: usize,
    walked: usize,
) -> Stage
    requires ground { GroundIn job.now found.now globals.now store.old fill memo.old scratch.old }
    requires p_bound { p < (sizes_of job.now).proofs }
    requires planned { Planned job.now p true r name second count }
    requires sane { true ≡ true → Sane (program_for job.now) (bindings_by job.now p true bound.now globals.now) (terms_of store.old fill) }
    requires bound_len_bound { length bound.now ≤ 32 }
    requires i_le_count { i ≤ count }
    ensures does { AdvancesIn job.now strict found.now globals.now unions.now p true r name second count bound.now store.old fill scratch.old i walked store.new result memo.new scratch.new }
    ensures loans { SameLoans store.old store.new }
{
    let pairs = substitution_at(job, wide(p));
    let scope = Scope {
        job,
        found,
        bound,
        pairs,
        globals,
        rule: name,
    };
    if (walked == 0) & (i < count) {
        let facts = rule_facts_at(job, r);
        return before_premise(&scope, strict, store, fill, memo, facts[i]);
    }
    let cells = store.kinds.len();
    let d = cells + words_for(cells);
    let c = after_premise(&scope, store, fill, memo, p, r, second, count, i);
    let have = c.fill;
    if c.refusal.number != 0 {
        return over(c);
    }
    if i + 1 < count {
        return over(c);
    }
    let q = claim_at(job, wide(p));
    over(check_rule_produces_equality(&scope, store, have, memo, &mut scratch[cells..d], r, q))
}

// Turn i of a rule's step, or the end of another.
pub fn advance(
    job: &[u32],
    strict: bool,
    found: &[u32],
    globals: &[u32],
    unions: &[u32],
    bound: &[u32],
    store: &mut Store<'_>,
    fill: Fill,
    memo: &mut [u32],
    scratch: &mut [u32],
    p: u32,
    rule: bool,
    r: usize,
    first: u32,
    second: u32,
    count: usize,
    i: usize,
    walked: usize,
) -> Stage
    requires ground { GroundIn job.now found.now globals.now store.old fill memo.old scratch.old }
    requires p_bound { p < (sizes_of job.now).proofs }
    requires planned { Planned job.now p rule r first second count }
    requires sane { rule ≡ true → Sane (program_for job.now) (bindings_by job.now p rule bound.now globals.now) (terms_of store.old fill) }
    requires bound_len_bound { length bound.now ≤ 32 }
    requires i_le_count { i ≤ count }
    requires count_le_i { rule ≡ false → count ≤ i }
    ensures does { AdvancesIn job.now strict found.now globals.now unions.now p rule r first second count bound.now store.old fill scratch.old i walked store.new result memo.new scratch.new }
    ensures loans { SameLoans store.old store.new }
{
    if rule {
        return advance_rule(
            job, strict, found, globals, bound, store, fill, memo, scratch, unions, p, r, first,
            second, count, i, walked,
        );
    }
    over(conclude(job, found, unions, store, fill, memo, scratch, p))
}
