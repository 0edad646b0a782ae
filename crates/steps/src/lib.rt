// Proof steps other than a rule's, from `check_proof_with_context` of proof_checker.rs: what they do once the proofs that they refer to are checked.
#![tactic(auto)]

ghost use Rattle.std.specs.Prelude.{◌≡◌, List, cond, ◌≤◌, ◌<◌, length};
ghost use Rattle.index.specs.Loans.{SameLoans};
ghost use Rattle.model.specs.Layout.{sizes_of};
ghost use Rattle.model.specs.Check.{Room};
ghost use Rattle.model.specs.Term as terms;
ghost use Rattle.model.specs.Program as program;
ghost use Rattle.model.specs.Walk.{claim_at, is_literal};
ghost use Rattle.decode.specs.View.{proposition_of};
ghost use Rattle.termdag.specs.Store.{terms_of, StoredIn, IndexedIn, room_in};
ghost use Rattle.outcome.specs.Does.{outcome_of, DoesIn};
ghost use Rattle.program.specs.Ready.{Ready, program_for};
ghost use Rattle.lookups.specs.Keyed.{Keyed};
ghost use Rattle.program.specs.Read.{proofs_for, ClaimAt, JustificationAt};
ghost use Rattle.evaluate.specs.Evaluation.{ChecksIn};
ghost use Rattle.context.specs.Contexts.{GlobalPairs};
ghost use Rattle.merges.specs.Merge.{merge_step};
ghost use Rattle.merges.specs.Step.{Small};
ghost use Rattle.steps.specs.Concluding.{trans_step, sym_step, fiat_step, normalize_step, child_matches, congr_claims, congr_step};
ghost use Rattle.steps.specs.Step.{TermsFirst, PlainStep, SecondPart, PreparedIn, ConcludesIn};

use cells::wide;
use context::is_global_pair;
use decode::{Justification, Proposition, Term};
use index::{Fill, Store, View};
use lookups::normalize_container;
use marks::words_for;
use merges::{app_head, check_that, merge_step, replace_child};
use outcome::{Checked, Refusal, refuse1};
use program::read::{claim_at, justification_at};
use termdag::children;

// `Trans`: a, then b.
fn trans_step(p: u32, q: Proposition, a: Proposition, b: Proposition) -> Refusal
    ensures { (s : List terms.Term) → outcome_of result tt s ≡ trans_step p (proposition_of q) (proposition_of a) (proposition_of b) s }
{
    let first = check_that(
        a.rhs == b.lhs,
        Refusal {
            number: 21,
            count: 3,
            fields: [p, a.rhs, b.lhs, 0, 0, 0],
        },
    );
    if first.number != 0 {
        return first;
    }
    check_that(
        (q.lhs == a.lhs) & (q.rhs == b.rhs),
        Refusal {
            number: 20,
            count: 5,
            fields: [p, q.lhs, q.rhs, a.lhs, b.rhs, 0],
        },
    )
}

// `Sym`: a, turned round.
fn sym_step(p: u32, q: Proposition, a: Proposition) -> Refusal
    ensures { (s : List terms.Term) → outcome_of result tt s ≡ sym_step p (proposition_of q) (proposition_of a) s }
{
    check_that(
        (q.lhs == a.rhs) & (q.rhs == a.lhs),
        Refusal {
            number: 20,
            count: 5,
            fields: [p, q.lhs, q.rhs, a.rhs, a.lhs, 0],
        },
    )
}

// A term is a literal.
fn is_literal(store: &Store<'_>, fill: Fill, t: u32) -> bool
    requires stored { StoredIn store.now fill }
    requires t_lt_cells { t < fill.cells }
    ensures { result ≡ is_literal (terms.get_term (terms_of store.now fill) t) }
{
    let view = View {
        kinds: store.kinds,
        ends: store.ends,
        pool: store.pool,
        index: store.index,
    };
    let term = termdag::get(&view, fill, wide(t));
    match term {
        Term::Lit(_) => true,
        Term::Var(_) => false,
        Term::App(_) => false,
    }
}

// `Fiat`: a literal, equal to itself, or a global pair.
fn fiat_step(
    store: &Store<'_>,
    fill: Fill,
    unions: &[u32],
    gmarks: &[u32],
    p: u32,
    q: Proposition,
) -> Refusal
    requires stored { StoredIn store.now fill }
    requires lhs_lt_cells { q.lhs < fill.cells }
    ensures { (ps : List program.Proposition) → GlobalPairs ps unions.now gmarks.now → outcome_of result tt (terms_of store.now fill) ≡ fiat_step ps p (proposition_of q) (terms_of store.now fill) }
{
    let literal = is_literal(store, fill, q.lhs);
    let global = is_global_pair(unions, gmarks, q);
    check_that(
        (literal & (q.lhs == q.rhs)) | global,
        Refusal {
            number: 33,
            count: 3,
            fields: [p, q.lhs, q.rhs, 0, 0, 0],
        },
    )
}

// 1 or 0.
fn flag(test: bool) -> u32
    ensures { result ≡ cond test 1 0 }
{
    u32::from(test)
}

// `ContainerNormalize`: the right side of a has the normal form that is claimed.
fn normalize_step(
    job: &[u32],
    found: &[u32],
    store: &Store<'_>,
    fill: Fill,
    p: u32,
    q: Proposition,
    a: Proposition,
) -> Refusal
    requires ready { Ready job.now }
    requires keyed { Keyed job.now found.now }
    requires stored { StoredIn store.now fill }
    requires rhs_lt_cells { a.rhs < fill.cells }
    ensures { (room : Room) → outcome_of result tt (terms_of store.now fill) ≡ normalize_step room (program_for job.now) p (proposition_of q) (proposition_of a) (terms_of store.now fill) }
{
    let view = View {
        kinds: store.kinds,
        ends: store.ends,
        pool: store.pool,
        index: store.index,
    };
    let n = normalize_container(job, found, &view, fill, a.rhs);
    let same = q.lhs == a.lhs;
    check_that(
        same & (q.rhs == n),
        Refusal {
            number: 40,
            count: 5,
            fields: [p, a.rhs, n, q.rhs, flag(same), 0],
        },
    )
}

// The child that a congruence replaces.
fn child_matches(args: &[u32], p: u32, i: u32, lhs: u32) -> Refusal
    requires { length args.now ≤ 16 }
    ensures s_value { (s : List terms.Term) → outcome_of result tt s ≡ child_matches p i lhs args.now s }
    ensures i_in_bounds { result.number ≡ 0 → i < length args.now }
{
    let n = args.len();
    let k = wide(i);
    if n <= k {
        return Refusal {
            number: 23,
            count: 3,
            fields: [p, i, n as u32, 0, 0, 0],
        };
    }
    let child = args[k];
    check_that(
        child == lhs,
        Refusal {
            number: 24,
            count: 4,
            fields: [p, lhs, child, i, 0, 0],
        },
    )
}

// What a congruence claims, where it gives the term t of a term equal to lhs.
fn congr_claims(p: u32, q: Proposition, lhs: u32, t: u32) -> Refusal
    ensures { (s : List terms.Term) → outcome_of result tt s ≡ congr_claims p (proposition_of q) lhs t s }
{
    let first = check_that(
        q.rhs == t,
        Refusal {
            number: 25,
            count: 3,
            fields: [p, q.rhs, t, 0, 0, 0],
        },
    );
    if first.number != 0 {
        return first;
    }
    check_that(
        q.lhs == lhs,
        Refusal {
            number: 26,
            count: 1,
            fields: [p, 0, 0, 0, 0, 0],
        },
    )
}

// `Congr`: child i of the right side of a is replaced, by b.
fn congr_step(
    store: &mut Store<'_>,
    fill: Fill,
    p: u32,
    q: Proposition,
    a: Proposition,
    i: u32,
    b: Proposition,
) -> Checked
    requires indexed { IndexedIn store.old fill }
    requires small { Small (terms_of store.old fill) a.rhs }
    ensures does { DoesIn store.old fill store.new result.fill result.refusal tt (congr_step (room_in store.old) p (proposition_of q) (proposition_of a) i (proposition_of b) (terms_of store.old fill)) }
    ensures loans { SameLoans store.old store.new }
{
    let t = a.rhs;
    let view = store.view();
    let head = app_head(&view, fill, t);
    let Some(f) = head else {
        return refuse1(22, p, fill);
    };
    let args = children(view.kinds, view.ends, view.pool, fill, wide(t));
    let first = child_matches(args, p, i, b.lhs);
    if first.number != 0 {
        return Checked {
            refusal: first,
            value: 0,
            fill,
        };
    }
    let r = replace_child(store, fill, t, f, wide(i), b.rhs);
    if r.refusal.number != 0 {
        return r;
    }
    let refusal = congr_claims(p, q, a.lhs, r.value);
    let have = r.fill;
    Checked {
        refusal,
        value: 0,
        fill: have,
    }
}

// What the step of proof p concludes that adds no term; one of another kind is refused.
fn plain_step(
    job: &[u32],
    found: &[u32],
    unions: &[u32],
    gmarks: &[u32],
    store: &Store<'_>,
    fill: Fill,
    p: u32,
    q: Proposition,
    j: Justification,
) -> Refusal
    requires ready { Ready job.now }
    requires keyed { Keyed job.now found.now }
    requires stored { StoredIn store.now fill }
    requires job_bound { (sizes_of job.now).terms ≤ fill.cells }
    requires p_bound { p < (sizes_of job.now).proofs }
    requires claim_at { ClaimAt job.now p q }
    requires justification_at { JustificationAt job.now p j }
    ensures { PlainStep job.now unions.now gmarks.now (terms_of store.now fill) p (proposition_of q) j result }
{
    match j {
        Justification::Fiat => fiat_step(store, fill, unions, gmarks, p, q),
        Justification::Trans(x, y) => {
            let a = claim_at(job, wide(x));
            let b = claim_at(job, wide(y));
            trans_step(p, q, a, b)
        }
        Justification::Sym(x) => {
            let a = claim_at(job, wide(x));
            sym_step(p, q, a)
        }
        Justification::ContainerNormalize(x) => {
            let a = claim_at(job, wide(x));
            normalize_step(job, found, store, fill, p, q, a)
        }
        _ => Refusal {
            number: 41,
            count: 1,
            fields: [p, 0, 0, 0, 0, 0],
        },
    }
}

// `Congr`, with the claims of proofs x and y.
fn congr_at(
    job: &[u32],
    store: &mut Store<'_>,
    fill: Fill,
    p: u32,
    q: Proposition,
    x: u32,
    i: u32,
    y: u32,
) -> Checked
    requires ready { Ready job.now }
    requires indexed { IndexedIn store.old fill }
    requires terms_first { TermsFirst job.now (terms_of store.old fill) }
    requires x_bound { x < (sizes_of job.now).proofs }
    requires y_bound { y < (sizes_of job.now).proofs }
    ensures does { DoesIn store.old fill store.new result.fill result.refusal tt (congr_step (room_in store.old) p (proposition_of q) (claim_at (proofs_for job.now) x) i (claim_at (proofs_for job.now) y) (terms_of store.old fill)) }
    ensures loans { SameLoans store.old store.new }
{
    let a = claim_at(job, wide(x));
    let b = claim_at(job, wide(y));
    congr_step(store, fill, p, q, a, i, b)
}

// `MergeFn`, with the claims of proofs x and y, and marks in the second part of the scratch.
fn merge_at(
    job: &[u32],
    found: &[u32],
    store: &mut Store<'_>,
    fill: Fill,
    memo: &mut [u32],
    scratch: &mut [u32],
    p: u32,
    q: Proposition,
    function: u32,
    x: u32,
    y: u32,
) -> Checked
    requires prepared { PreparedIn job.now found.now store.old fill memo.old scratch.old }
    requires x_bound { x < (sizes_of job.now).proofs }
    requires y_bound { y < (sizes_of job.now).proofs }
    ensures checks { ChecksIn store.old fill store.new result.fill result.refusal tt memo.new (merge_step (room_in store.old) (program_for job.now) p (proposition_of q) function (claim_at (proofs_for job.now) x) (claim_at (proofs_for job.now) y) (terms_of store.old fill)) }
    ensures second_part { SecondPart (length store.old.kinds.now) scratch.old scratch.new }
    ensures loans { SameLoans store.old store.new }
{
    let a = claim_at(job, wide(x));
    let b = claim_at(job, wide(y));
    let c = store.kinds.len();
    let d = c + words_for(c);
    merge_step(
        job,
        found,
        store,
        fill,
        memo,
        &mut scratch[c..d],
        p,
        q,
        function,
        a,
        b,
    )
}

// What the step of proof p concludes, once the proofs that it refers to are checked. A rule's step is checked elsewhere; here it is refused.
pub fn conclude(
    job: &[u32],
    found: &[u32],
    unions: &[u32],
    store: &mut Store<'_>,
    fill: Fill,
    memo: &mut [u32],
    scratch: &mut [u32],
    p: u32,
) -> Checked
    requires prepared { PreparedIn job.now found.now store.old fill memo.old scratch.old }
    requires p_bound { p < (sizes_of job.now).proofs }
    ensures does { ConcludesIn job.now unions.now store.old fill scratch.old p store.new result memo.new scratch.new }
    ensures loans { SameLoans store.old store.new }
{
    let n = wide(p);
    let q = claim_at(job, n);
    let j = justification_at(job, n);
    match j {
        Justification::MergeFn(s) => merge_at(
            job,
            found,
            store,
            fill,
            memo,
            scratch,
            p,
            q,
            s.function,
            s.old_proof,
            s.new_proof,
        ),
        Justification::Congr(s) => congr_at(
            job,
            store,
            fill,
            p,
            q,
            s.proof,
            s.child_index,
            s.child_proof,
        ),
        _ => {
            let c = store.kinds.len();
            let refusal = plain_step(job, found, unions, &scratch[..c], store, fill, p, q, j);
            Checked {
                refusal,
                value: 0,
                fill,
            }
        }
    }
}
