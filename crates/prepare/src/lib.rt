// The start of the entry: a job's words are loaded, and its terms copied into the lent arrays and listed in the lent index.
#![tactic(auto)]

ghost use Rattle.std.specs.Prelude.{◌≡◌, [], ◌∷◌, length};
ghost use Rattle.index.specs.Loans.{SameLoans};
ghost use Rattle.model.specs.Layout.{sizes_of, kinds_of, ends_of, pool_of};
ghost use Rattle.termdag.specs.Store.{LoadedIn};
ghost use Rattle.outcome.specs.Does.{passed, refusal};
ghost use Rattle.prepare.specs.Prepares.{Loads, LoadsIn, PreparesIn};

use index::{Fill, Store, multiplier};
use load::{Rejection, load};
use outcome::Refusal;
use program::job::load_terms;

// What preparing gives: the refusal below 20, whose number is 0 for none, and the fill of the store.
#[derive(Clone, Copy)]
pub struct Prepared {
    pub refusal: Refusal,
    pub fill: Fill,
}

// A refusal below 20, with at most one field.
fn refused(number: u32, count: usize, field: u32) -> Prepared
    ensures { result.refusal ≡ refusal number count (field ∷ 0 ∷ 0 ∷ 0 ∷ 0 ∷ 0 ∷ []) }
{
    Prepared {
        refusal: Refusal {
            number,
            count,
            fields: [field, 0, 0, 0, 0, 0],
        },
        fill: Fill {
            cells: 0,
            words: 0,
            multiplier: 0,
        },
    }
}

// The terms of a job that loads, copied into the lent arrays; x is the multiplier.
fn start(job: &[u32], x: u32, store: &mut Store<'_>) -> Prepared
    requires { LoadsIn job.now store.old }
    ensures is { result.refusal ≡ passed }
    ensures begun { LoadedIn (kinds_of job.now) (ends_of job.now) (pool_of job.now) (sizes_of job.now).terms x store.old store.new result.fill }
    ensures index { store.new.index.now ≡ store.old.index.now }
    ensures loans { SameLoans store.old store.new }
{
    let have = load_terms(job, x, store);
    Prepared {
        refusal: Refusal::NONE,
        fill: have,
    }
}

// Loads a job's words for an asked proof in a mode, and its terms into the lent arrays and the lent index.
pub fn prepare(
    job: &[u32],
    asked: u32,
    mode: u32,
    store: &mut Store<'_>,
    scratch: usize,
) -> Prepared
    ensures does { PreparesIn job.now asked mode store.old scratch store.new result }
    ensures len_i { length store.new.index.now ≡ length store.old.index.now }
    ensures loans { SameLoans store.old store.new }
{
    let kinds = store.kinds.len();
    let ends = store.ends.len();
    let pool = store.pool.len();
    let index = &mut *store.index;
    let x = multiplier(index);
    let loaded = load(job, asked, mode, kinds, ends, pool, index, x, scratch);
    let Err(rejection) = loaded else {
        return start(job, x, store);
    };
    match rejection {
        Rejection::Host(number) => refused(number, 0, 0),
        Rejection::Writer(number, cell) => refused(number, 1, cell as u32),
    }
}
