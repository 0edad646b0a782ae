// Proof normal form of a rule's body: `assert_body_proof_normal_form` and `is_container_side_condition` of proof_checker.rs. Each expression is searched once.
#![tactic(auto)]

ghost use Rattle.std.specs.Prelude.{◌≡◌, List, true, ℕ, ◌/◌, ◌≤◌, ◌<◌, length};
ghost use Rattle.model.specs.Layout.{sizes_of};
ghost use Rattle.model.specs.Term.{Term};
ghost use Rattle.model.specs.Check.{first_of};
ghost use Rattle.model.specs.Fact as fact;
ghost use Rattle.model.specs.Fact.{is_func, is_primitive, is_container_primitive, argument_offence, offence, fact_offence, assert_body_proof_normal_form, variable_of, is_container_side_condition};
ghost use Rattle.decode.specs.View.{head_of};
ghost use Rattle.outcome.specs.Does.{outcome_of};
ghost use Rattle.program.specs.Ready.{Ready, program_for, option_of};
ghost use Rattle.program.specs.Read.{expr_for, fact_for};
ghost use Rattle.normal_form.specs.Search.{offence_of, offence_in, container_in, SearchedTo, Searched, Ordinary};

use cells::wide;
use decode::{Fact, Head};
use outcome::Refusal;
use program::job::{Table, size};
use program::primitive_at;
use program::read::{arguments_at, fact_at, head_at};

// An argument, by its expression number, that is not in proof normal form.
#[derive(Clone, Copy)]
pub enum Offence {
    PrimitiveNonNormalArg(u32),
    ContainerPrimitiveNotSideCondition(u32),
}

// The offence that half a word of the table says.
fn read_offence(w: u32) -> Option<Offence>
    ensures { offence_of result ≡ offence_in w }
{
    if w == 0 {
        return None;
    }
    if w % 2 == 1 {
        return Some(Offence::PrimitiveNonNormalArg(w / 2));
    }
    Some(Offence::ContainerPrimitiveNotSideCondition(w / 2 - 1))
}

// The first offence of two halves.
fn first_of(a: u32, b: u32) -> u32
    ensures says { offence_in result ≡ first_of (offence_in a) (offence_in b) }
    ensures low { (n : ℕ) → a < n → b < n → result < n }
{
    if a == 0 {
        return b;
    }
    a
}

// A call of a constructor or a function.
fn is_func(h: Head) -> bool
    ensures { result ≡ is_func (head_of h) }
{
    match h {
        Head::Constructor(_) | Head::Custom(_) => true,
        _ => false,
    }
}

// A call of a primitive.
fn is_primitive(h: Head) -> bool
    ensures { result ≡ is_primitive (head_of h) }
{
    match h {
        Head::Primitive(_) => true,
        _ => false,
    }
}

// A call of a primitive whose output is a container.
fn is_container_primitive(job: &[u32], e: usize) -> bool
    requires ready { Ready job.now }
    requires e_bound { e < (sizes_of job.now).expressions }
    ensures { result ≡ is_container_primitive (program_for job.now) (fact.head_of (expr_for job.now e)) }
{
    let h = head_at(job, e);
    match h {
        Head::Lit(_) => false,
        Head::Var(_) => false,
        Head::Constructor(_) => false,
        Head::Custom(_) => false,
        Head::Primitive(p) => {
            let primitive = primitive_at(job, wide(p));
            primitive.container
        }
    }
}

// The variable that expression e is, if it is one.
pub fn variable_of(job: &[u32], e: u32) -> Option<u32>
    requires ready { Ready job.now }
    requires e_bound { e < (sizes_of job.now).expressions }
    ensures { option_of result ≡ variable_of (fact.head_of (expr_for job.now e)) }
{
    let head = head_at(job, wide(e));
    match head {
        Head::Lit(_) => None,
        Head::Var(x) => Some(x),
        Head::Constructor(_) => None,
        Head::Custom(_) => None,
        Head::Primitive(_) => None,
    }
}

// The offence of the argument j directly under a head.
fn argument_offence(job: &[u32], h: Head, j: u32) -> u32
    requires ready { Ready job.now }
    requires j_bound { j < (sizes_of job.now).expressions }
    ensures says { offence_in result ≡ argument_offence (program_for job.now) (head_of h) (expr_for job.now j) }
    ensures low { result < 32768 }
{
    let g = head_at(job, wide(j));
    let func = is_func(g);
    let container = is_container_primitive(job, wide(j));
    if is_primitive(h) & func {
        return 2 * j + 1;
    }
    if is_func(h) & container {
        return 2 * j + 2;
    }
    0
}

// The first offence in expression e, by the words of the expressions before it: half a word.
fn first_offence(job: &[u32], found: &[u32], e: usize) -> u32
    requires ready { Ready job.now }
    requires searched_to { SearchedTo job.now e found.now }
    requires e_bound { e < (sizes_of job.now).expressions }
    ensures says { offence_in result ≡ offence (expr_for job.now e) (program_for job.now) }
    ensures low { result < 32768 }
{
    let h = head_at(job, e);
    let args = arguments_at(job, e);
    for &j in args {
        let w = first_of(argument_offence(job, h, j), found[wide(j)] / 2);
        if w != 0 {
            return w;
        }
    }
    0
}

// The word of an expression: twice what its first offence says, and 1 more for a call of a container's primitive.
fn word_of(offence: u32, container: bool) -> u32
    requires { offence < 32768 }
    ensures half { result / 2 ≡ offence }
    ensures calls { container_in result ≡ container }
    ensures low { result < 65536 }
{
    if container {
        return 2 * offence + 1;
    }
    2 * offence
}

// A word is that of a call of a container's primitive.
fn calls_container(w: u32) -> bool
    ensures { result ≡ container_in w }
{
    w % 2 == 1
}

// Fills the table: a word for each expression.
pub fn find_offences(job: &[u32], found: &mut [u32])
    requires ready { Ready job.now }
    requires job_in_bounds { (sizes_of job.now).expressions ≤ length found.old }
    ensures { Searched job.now found.new }
{
    for e in 0..size(job, Table::Expressions) {
        let offence = first_offence(job, found, e);
        found[e] = word_of(offence, is_container_primitive(job, e));
    }
}

// The first offence in a fact.
fn fact_offence(job: &[u32], found: &[u32], i: usize) -> Option<Offence>
    requires ready { Ready job.now }
    requires searched { Searched job.now found.now }
    requires i_bound { i < (sizes_of job.now).facts }
    ensures { offence_of result ≡ fact_offence (program_for job.now) (fact_for job.now i) }
{
    let f = fact_at(job, i);
    match f {
        Fact::Equal(l, r) => read_offence(first_of(found[wide(l)] / 2, found[wide(r)] / 2)),
        Fact::Bare(e) => read_offence(found[wide(e)] / 2),
    }
}

// `assert_body_proof_normal_form`
pub fn assert_body_proof_normal_form(job: &[u32], found: &[u32], rule: u32, i: u32) -> Refusal
    requires ready { Ready job.now }
    requires searched { Searched job.now found.now }
    requires i_bound { i < (sizes_of job.now).facts }
    ensures { (s : List Term) → outcome_of result tt s ≡ assert_body_proof_normal_form (program_for job.now) rule (fact_for job.now i) s }
{
    let Some(offence) = fact_offence(job, found, wide(i)) else {
        return Refusal::NONE;
    };
    match offence {
        Offence::PrimitiveNonNormalArg(e) => Refusal {
            number: 49,
            count: 2,
            fields: [rule, e, 0, 0, 0, 0],
        },
        Offence::ContainerPrimitiveNotSideCondition(e) => Refusal {
            number: 50,
            count: 2,
            fields: [rule, e, 0, 0, 0, 0],
        },
    }
}

// A fact with a container primitive at the top is a side condition.
pub fn is_container_side_condition(job: &[u32], found: &[u32], i: usize) -> bool
    requires ready { Ready job.now }
    requires searched { Searched job.now found.now }
    requires i_bound { i < (sizes_of job.now).facts }
    ensures { result ≡ is_container_side_condition (program_for job.now) (fact_for job.now i) }
{
    let f = fact_at(job, i);
    match f {
        Fact::Equal(l, r) => {
            let left = calls_container(found[wide(l)]);
            let right = calls_container(found[wide(r)]);
            left | right
        }
        Fact::Bare(e) => calls_container(found[wide(e)]),
    }
}

// Fact i is in normal form and no side condition, as the words of its sides are 0.
pub fn is_ordinary(job: &[u32], found: &[u32], i: usize) -> bool
    requires ready { Ready job.now }
    requires searched { Searched job.now found.now }
    requires i_bound { i < (sizes_of job.now).facts }
    ensures { result ≡ true → Ordinary (program_for job.now) (fact_for job.now i) }
{
    let f = fact_at(job, i);
    match f {
        Fact::Equal(l, r) => (found[wide(l)] == 0) & (found[wide(r)] == 0),
        Fact::Bare(e) => found[wide(e)] == 0,
    }
}
