// The merge step of a proof, from `check_proof_with_context` of proof_checker.rs: two views of one function are merged, and the view of the merged value is added.
#![tactic(auto)]

ghost use Rattle.std.specs.Prelude.{◌≡◌, List, [], ◌∷◌, false, ◌||◌, ◌<◌, eqb, length, set};
ghost use Rattle.index.specs.Loans.{SameLoans};
ghost use Rattle.model.specs.Term as terms;
ghost use Rattle.model.specs.Check.{check_that, add_node};
ghost use Rattle.model.specs.Evaluate as evaluate;
ghost use Rattle.model.specs.Action.{same_proposition};
ghost use Rattle.model.specs.Normalize.{as_app};
ghost use Rattle.model.specs.Walk.{front};
ghost use Rattle.decode.specs.View.{proposition_of};
ghost use Rattle.termdag.specs.Store.{terms_at, terms_of, StoredAt, StoredIn, IndexedIn, room_in};
ghost use Rattle.outcome.specs.Does.{outcome_of, DoesIn};
ghost use Rattle.marks.specs.Marks as closing;
ghost use Rattle.program.specs.Ready.{program_for, option_of};
ghost use Rattle.evaluate.specs.Evaluation.{ChecksIn};
ghost use Rattle.actions.specs.Acting.{StandingIn};
ghost use Rattle.heads.specs.Heading.{claimed_by};
ghost use Rattle.merges.specs.Merge.{merge_step, both_reflexive, compare_views, read_views};
ghost use Rattle.merges.specs.Step.{refused_unless, app_with, Small, merging_of, AddsViewIn};

use cells::wide;
use decode::{Proposition, Term};
use heads::{clear_if, is_claimed, run_merge};
use index::{Fill, Store, View};
use outcome::{Checked, Refusal, add_app};
use termdag::children;

// Two views to merge: their function and their values.
#[derive(Clone, Copy)]
struct Views {
    refusal: Refusal,
    head: u32,
    old: u32,
    new: u32,
}

// The refusal, unless the test passes.
pub fn check_that(test: bool, refusal: Refusal) -> Refusal
    ensures { result ≡ refused_unless test refusal }
{
    if test {
        return Refusal::NONE;
    }
    refusal
}

// The head of a term, if it is an application.
pub fn app_head(store: &View<'_>, fill: Fill, t: u32) -> Option<u32>
    requires stored { StoredAt store.now fill }
    requires t_lt_cells { t < fill.cells }
    ensures { app_with (option_of result) (evaluate.children (terms.get_term (terms_at store.now fill) t)) ≡ as_app (terms.get_term (terms_at store.now fill) t) }
{
    let term = termdag::get(store, fill, wide(t));
    match term {
        Term::Lit(_) => None,
        Term::Var(_) => None,
        Term::App(f) => Some(f),
    }
}

// The application of a head to the children of t, of which child i is replaced by x.
pub fn replace_child(
    store: &mut Store<'_>,
    fill: Fill,
    t: u32,
    head: u32,
    i: usize,
    x: u32,
) -> Checked
    requires indexed { IndexedIn store.old fill }
    requires small { Small (terms_of store.old fill) t }
    requires i_in_bounds { i < length (evaluate.children (terms.get_term (terms_of store.old fill) t)) }
    ensures does { DoesIn store.old fill store.new result.fill result.refusal result.value (add_node (room_in store.old) (terms.app head (set (evaluate.children (terms.get_term (terms_of store.old fill) t)) i x)) (terms_of store.old fill)) }
    ensures loans { SameLoans store.old store.new }
{
    let mut args = [0u32; 17];
    let view = store.view();
    let xs = children(view.kinds, view.ends, view.pool, fill, wide(t));
    let n = xs.len();
    cells::copy(&mut args, 0, xs);
    args[i] = x;
    add_app(store, fill, head, &args[..n])
}

// Two claims that are reflexive.
fn both_reflexive(p: u32, a: Proposition, b: Proposition) -> Refusal
    ensures { (s : List terms.Term) → outcome_of result tt s ≡ both_reflexive p (proposition_of a) (proposition_of b) s }
{
    let first = check_that(
        a.lhs == a.rhs,
        Refusal {
            number: 39,
            count: 4,
            fields: [p, 0, a.lhs, a.rhs, 0, 0],
        },
    );
    if first.number != 0 {
        return first;
    }
    check_that(
        b.lhs == b.rhs,
        Refusal {
            number: 39,
            count: 4,
            fields: [p, 1, b.lhs, b.rhs, 0, 0],
        },
    )
}

// Views that are refused.
fn refused_views(refusal: Refusal) -> Views
    ensures { result ≡ record { refusal = refusal; head = 0; old = 0; new = 0 } }
{
    Views {
        refusal,
        head: 0,
        old: 0,
        new: 0,
    }
}

// Two views, of the functions f and g with these arguments: the same function and the same inputs.
fn compare_views(xs: &[u32], ys: &[u32], p: u32, f: u32, g: u32) -> Views
    ensures { (s : List terms.Term) → outcome_of result.refusal (merging_of result (front xs.now)) s ≡ compare_views p (record { head = f; args = xs.now }) (record { head = g; args = ys.now }) s }
{
    let m = xs.len();
    let n = ys.len();
    if f != g {
        return refused_views(Refusal {
            number: 34,
            count: 3,
            fields: [p, f, g, 0, 0, 0],
        });
    }
    if m == 0 {
        return refused_views(Refusal {
            number: 35,
            count: 2,
            fields: [p, 0, 0, 0, 0, 0],
        });
    }
    if n == 0 {
        return refused_views(Refusal {
            number: 35,
            count: 2,
            fields: [p, 1, 0, 0, 0, 0],
        });
    }
    let i = m - 1;
    let j = n - 1;
    let refusal = check_that(
        cells::same_words(&xs[..i], &ys[..j]),
        Refusal {
            number: 36,
            count: 1,
            fields: [p, 0, 0, 0, 0, 0],
        },
    );
    Views {
        refusal,
        head: f,
        old: xs[i],
        new: ys[j],
    }
}

// The views that two claims are of.
fn read_views(store: &Store<'_>, fill: Fill, p: u32, a: Proposition, b: Proposition) -> Views
    requires stored { StoredIn store.now fill }
    requires rhs_lt_cells { a.rhs < fill.cells }
    requires rhs_lt_cells_2 { b.rhs < fill.cells }
    ensures { outcome_of result.refusal (merging_of result (front (evaluate.children (terms.get_term (terms_of store.now fill) a.rhs)))) (terms_of store.now fill) ≡ read_views p (proposition_of a) (proposition_of b) (terms_of store.now fill) }
{
    let first = both_reflexive(p, a, b);
    if first.number != 0 {
        return refused_views(first);
    }
    let view = View {
        kinds: store.kinds,
        ends: store.ends,
        pool: store.pool,
        index: store.index,
    };
    let x = app_head(&view, fill, a.rhs);
    let y = app_head(&view, fill, b.rhs);
    let none = Refusal {
        number: 37,
        count: 3,
        fields: [p, a.rhs, b.rhs, 0, 0, 0],
    };
    let Some(f) = x else {
        return refused_views(none);
    };
    let Some(g) = y else {
        return refused_views(none);
    };
    let xs = children(view.kinds, view.ends, view.pool, fill, wide(a.rhs));
    let ys = children(view.kinds, view.ends, view.pool, fill, wide(b.rhs));
    compare_views(xs, ys, p, f, g)
}

// The claimed pair is the view, equal to itself, or one that the marks stand for.
fn view_claimed(
    store: &Store<'_>,
    fill: Fill,
    marks: &mut [u32],
    p: u32,
    q: Proposition,
    view: u32,
) -> Refusal
    requires { StoredIn store.now fill }
    ensures { (s : List terms.Term) → outcome_of result tt s ≡ check_that (same_proposition (proposition_of q) (evaluate.same view) || claimed_by (eqb q.lhs q.rhs) false (closing.is_marked (closing.close (terms_of store.now fill) fill.cells marks.old) q.lhs)) 38 (p ∷ q.lhs ∷ q.rhs ∷ []) s }
{
    let marking = q.lhs == q.rhs;
    let lent = View {
        kinds: store.kinds,
        ends: store.ends,
        pool: store.pool,
        index: store.index,
    };
    let covered = is_claimed(&lent, fill, marking, marks, false, q.lhs);
    check_that(
        ((q.lhs == view) & (q.rhs == view)) | covered,
        Refusal {
            number: 38,
            count: 3,
            fields: [p, q.lhs, q.rhs, 0, 0, 0],
        },
    )
}

// The view of a merged value is added, with the inputs of t, and the claimed pair looked for.
fn add_view(
    store: &mut Store<'_>,
    fill: Fill,
    marks: &mut [u32],
    p: u32,
    q: Proposition,
    t: u32,
    head: u32,
    value: u32,
) -> Checked
    requires indexed { IndexedIn store.old fill }
    requires small { Small (terms_of store.old fill) t }
    requires nonzero { 0 < length (evaluate.children (terms.get_term (terms_of store.old fill) t)) }
    ensures does { AddsViewIn p (proposition_of q) t head value store.old fill marks.old store.new result }
    ensures loans { SameLoans store.old store.new }
{
    let view = store.view();
    let n = children(view.kinds, view.ends, view.pool, fill, wide(t)).len();
    let r = replace_child(store, fill, t, head, n - 1, value);
    if r.refusal.number != 0 {
        return r;
    }
    let have = r.fill;
    let refusal = view_claimed(store, have, marks, p, q, r.value);
    Checked {
        refusal,
        value: 0,
        fill: have,
    }
}

// `MergeFn`: the views of a and b, merged by the function named.
pub fn merge_step(
    job: &[u32],
    found: &[u32],
    store: &mut Store<'_>,
    fill: Fill,
    memo: &mut [u32],
    marks: &mut [u32],
    p: u32,
    q: Proposition,
    function: u32,
    a: Proposition,
    b: Proposition,
) -> Checked
    requires standing { StandingIn job.now found.now [] store.old fill memo.old marks.old }
    requires small { Small (terms_of store.old fill) a.rhs }
    requires small_2 { Small (terms_of store.old fill) b.rhs }
    ensures does { ChecksIn store.old fill store.new result.fill result.refusal tt memo.new (merge_step (room_in store.old) (program_for job.now) p (proposition_of q) function (proposition_of a) (proposition_of b) (terms_of store.old fill)) }
    ensures loans { SameLoans store.old store.new }
{
    let v = read_views(store, fill, p, a, b);
    let first = v.refusal;
    if first.number != 0 {
        return Checked {
            refusal: first,
            value: 0,
            fill,
        };
    }
    let marking = q.lhs == q.rhs;
    clear_if(marking, marks);
    let m = run_merge(
        job, found, store, fill, memo, marking, marks, function, v.old, v.new,
    );
    if m.refusal.number != 0 {
        return m;
    }
    add_view(store, m.fill, marks, p, q, a.rhs, v.head, m.value)
}
