// `check_proof` of proof_checker.rs, for an admitted job whose terms are in the store: the global actions, then the walk.
#![tactic(auto)]

ghost use Rattle.std.specs.Prelude.{◌≡◌, ◌<◌};
ghost use Rattle.index.specs.Loans.{SameLoans};
ghost use Rattle.model.specs.Layout.{sizes_of};
ghost use Rattle.model.specs.Walk.{claim_at, check_proof};
ghost use Rattle.model.specs.Height.{height};
ghost use Rattle.termdag.specs.Store.{terms_of, room_in};
ghost use Rattle.outcome.specs.Does.{DoesIn};
ghost use Rattle.program.specs.Ready.{program_for};
ghost use Rattle.program.specs.Read.{proofs_for};
ghost use Rattle.lookups.specs.Keyed.{Keyed};
ghost use Rattle.normal_form.specs.Search.{Searched};
ghost use Rattle.check_proof.specs.Checking.{GivenIn};

use context::new_context;
use index::{Fill, Store};
use lookups::{chain_tables, needs_no_chains};
use normal_form::find_offences;
use outcome::Checked;
use program::job::{Table, size};
use walk::walk;

// The outcome of the asked proof, where the offences and the chains of long tables are found.
fn check_found(
    job: &[u32],
    strict: bool,
    found: &[u32],
    store: &mut Store<'_>,
    fill: Fill,
    scratch: &mut [u32],
    asked: u32,
) -> Checked
    requires given { GivenIn job.now store.old fill scratch.old }
    requires searched { Searched job.now found.now }
    requires keyed { Keyed job.now found.now }
    requires asked_bound { asked < (sizes_of job.now).proofs }
    ensures does { DoesIn store.old fill store.new result.fill result.refusal (claim_at (proofs_for job.now) asked) (check_proof (room_in store.old) (program_for job.now) (proofs_for job.now) strict asked (terms_of store.old fill)) }
    ensures high { result.refusal.number ≡ 0 → result.value ≡ height (program_for job.now) (proofs_for job.now) asked }
    ensures loans { SameLoans store.old store.new }
{
    let mut memo = [0u32; 8193];
    let mut table = [0u32; 512];
    let mut unions = [0u32; 512];
    let c = store.kinds.len();
    let d = c + c;
    let e = d + size(job, Table::Proofs);
    let g = new_context(
        job,
        found,
        store,
        fill,
        &mut memo,
        &mut scratch[..c],
        &mut table,
        &mut unions,
    );
    let have = g.fill;
    if g.refusal.number != 0 {
        let refusal = g.refusal;
        return Checked {
            refusal,
            value: 0,
            fill: have,
        };
    }
    marks::clear(&mut scratch[d..e]);
    let b = g.bindings;
    let n = g.unions;
    walk(
        job,
        strict,
        found,
        &table[b..],
        &unions[..n],
        store,
        have,
        &mut memo,
        scratch,
        asked,
    )
}

// The outcome of the asked proof, in strict mode or not: passed, with its height as value, or a refusal. Whatever scratch held makes no difference.
pub fn check_proof(
    job: &[u32],
    strict: bool,
    store: &mut Store<'_>,
    fill: Fill,
    scratch: &mut [u32],
    asked: u32,
) -> Checked
    requires given { GivenIn job.now store.old fill scratch.old }
    requires asked_bound { asked < (sizes_of job.now).proofs }
    ensures does { DoesIn store.old fill store.new result.fill result.refusal (claim_at (proofs_for job.now) asked) (check_proof (room_in store.old) (program_for job.now) (proofs_for job.now) strict asked (terms_of store.old fill)) }
    ensures high { result.refusal.number ≡ 0 → result.value ≡ height (program_for job.now) (proofs_for job.now) asked }
    ensures loans { SameLoans store.old store.new }
{
    if needs_no_chains(job) {
        let mut found = [0u32; 4096];
        find_offences(job, &mut found);
        return check_found(job, strict, &found, store, fill, scratch, asked);
    }
    let mut found = [0u32; 36865];
    find_offences(job, &mut found);
    chain_tables(job, fill.multiplier, &mut found);
    check_found(job, strict, &found, store, fill, scratch, asked)
}
