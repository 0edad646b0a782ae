// The entry of the checker: eight words of answer for a job's words and an asked proof, with lent arrays for the store.
#![tactic(auto)]

ghost use Rattle.std.specs.Prelude.{◌≡◌, ◌<◌, ◌^◌, length, get_or};
ghost use Rattle.index.specs.Loans.{SameLoans};
ghost use Rattle.model.specs.Layout.{sizes_of};
ghost use Rattle.model.specs.Height.{height};
ghost use Rattle.model.specs.Answer.{entry};
ghost use Rattle.program.specs.Ready.{Ready, program_for};
ghost use Rattle.program.specs.Read.{proofs_for};
ghost use Rattle.entry.specs.Told.{told_words};

use answer::{write_passed, write_refusal};
use cells::wide;
use check_proof::check_proof;
use index::Store;
use outcome::Checked;
use prepare::prepare;
use program::read::claim_at;

// Writes what the check of the asked proof gave, and gives its number.
fn tell(job: &[u32], asked: usize, r: Checked, answer: &mut [u32]) -> u32
    requires ready { Ready job.now }
    requires asked_bound { asked < (sizes_of job.now).proofs }
    requires answer_len { length answer.old ≡ 8 }
    requires cells_bound { r.fill.cells < 2 ^ 32 }
    requires value_value { r.refusal.number ≡ 0 → r.value ≡ height (program_for job.now) (proofs_for job.now) asked }
    ensures is { answer.new ≡ told_words r.refusal r.fill.cells (program_for job.now) (proofs_for job.now) asked }
    ensures first { result ≡ get_or answer.new 0 0 }
{
    let terms = r.fill.cells;
    if r.refusal.number != 0 {
        let refusal = r.refusal;
        return write_refusal(answer, refusal, terms);
    }
    let q = claim_at(job, asked);
    write_passed(answer, terms, q.lhs, q.rhs, r.value)
}

// The check with the lent arrays as one store.
fn check_store(
    job: &[u32],
    asked: u32,
    mode: u32,
    store: &mut Store<'_>,
    scratch: &mut [u32],
    answer: &mut [u32],
) -> u32
    ensures is { record { number = result; answer = answer.new; arrays = record { kinds = store.new.kinds.now; ends = store.new.ends.now; pool = store.new.pool.now } } ≡ entry job.now asked mode (record { kinds = store.old.kinds.now; ends = store.old.ends.now; pool = store.old.pool.now }) (length store.old.index.now) (length scratch.old) answer.old }
    ensures loans { SameLoans store.old store.new }
    ensures len_k { length store.new.kinds.now ≡ length store.old.kinds.now }
    ensures len_e { length store.new.ends.now ≡ length store.old.ends.now }
    ensures len_p { length store.new.pool.now ≡ length store.old.pool.now }
    ensures len_i { length store.new.index.now ≡ length store.old.index.now }
{
    if answer.len() != 8 {
        return 10;
    }
    let p = prepare(job, asked, mode, store, scratch.len());
    if p.refusal.number != 0 {
        let refusal = p.refusal;
        return write_refusal(answer, refusal, 0);
    }
    let fill = p.fill;
    let r = check_proof(job, mode == 1, store, fill, scratch, asked);
    tell(job, wide(asked), r, answer)
}

// The check of a job's words for an asked proof in a mode, 0 as the Rust checks or 1 strict: the number returned, the answer and the lent arrays are as the definition says, for all inputs.
// What a returned 0 means, demand 3, is stated and proved in proofs/Sound. The arrays are parameters of their own, as the C interface hands them in.
pub fn check(
    job: &[u32],
    asked: u32,
    mode: u32,
    kinds: &mut [u32],
    ends: &mut [u32],
    pool: &mut [u32],
    index: &mut [u32],
    scratch: &mut [u32],
    answer: &mut [u32],
) -> u32
    ensures { record { number = result; answer = answer.new; arrays = record { kinds = kinds.new; ends = ends.new; pool = pool.new } } ≡ entry job.now asked mode (record { kinds = kinds.old; ends = ends.old; pool = pool.old }) (length index.old) (length scratch.old) answer.old }
{
    let mut store = Store {
        kinds,
        ends,
        pool,
        index,
    };
    check_store(job, asked, mode, &mut store, scratch, answer)
}
