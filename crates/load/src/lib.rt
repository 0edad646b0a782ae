// Loading: from a job's words to the refusal below 20, or none. Each test is that of the definitions' Load.
#![tactic(auto)]

pub mod bytes;
pub mod sizes;
pub mod tables;

ghost use Rattle.std.specs.Prelude.{◌≡◌, OnOk, true, false, ℕ, ◌+◌, ◌≤◌, ◌<◌, length};
ghost use Rattle.model.specs.Cell.{cells_of};
ghost use Rattle.model.specs.Layout.{sizes_of, kinds_of, ends_of, pool_of};
ghost use Rattle.model.specs.Load.{ends_rise, wrong_slots, first_failing, first_refusal, load_refusal};
ghost use Rattle.index.specs.Listing.{Lists};
ghost use Rattle.load.specs.Held.{sizes_in, Limits, Fills, HeldCells, DistinctCells, SoundCells, tables_of, tests_for, round_of, refusal_of, writer_tests, room_lacks, Cut, cell_refusal};

use crate::sizes::{Sizes, cell_count, read_sizes, too_large, wrong_length};
use crate::tables::{Cells, Known, Test, fill, first_marked, passing_terms};
use cells::{start, wide};
use index::fill_once;

// Why a job is not admitted: the host is at fault, or the job's writer, with the least cell.
#[derive(Clone, Copy)]
pub enum Rejection {
    Host(u32),
    Writer(u32, usize),
}

// 5: the ends rise and finish at the pool's end.
pub fn ends_rise(ends: &[u32], pool: usize) -> bool
    ensures { result ≡ ends_rise 0 ends.now pool }
{
    let mut start = 0;
    for &end in ends {
        let e = wide(end);
        if e < start {
            return false;
        }
        start = e;
    }
    start == pool
}

// 6, 7, 8 or 9: the first cell that fails.
fn test_refusal(cells: &Cells<'_>, known: Known, test: Test) -> Result<(), Rejection>
    requires held { HeldCells cells.now }
    requires distinct { DistinctCells cells.now known.distinct }
    requires sound { SoundCells cells.now known.sound }
    ensures { refusal_of result ≡ first_failing (6 + round_of test) (tests_for (round_of test) (sizes_in cells.now.sizes) (tables_of cells.now)) (tables_of cells.now) }
{
    match first_marked(cells, known, test) {
        Some(cell) => Err(Rejection::Writer(test.number(), cell)),
        None => Ok(()),
    }
}

// 6 to 9: the first cell, of the lowest number that applies.
pub fn writer_refusal(cells: &Cells<'_>, distinct: usize, multiplier: u32) -> Result<(), Rejection>
    requires held { HeldCells cells.now }
    requires distinct { DistinctCells cells.now distinct }
    ensures { refusal_of result ≡ first_refusal (writer_tests (sizes_in cells.now.sizes) (tables_of cells.now)) }
{
    let sound = passing_terms(cells);
    let known = Known {
        distinct,
        sound,
        multiplier,
    };
    test_refusal(cells, known, Test::Shape)?;
    test_refusal(cells, known, Test::References)?;
    test_refusal(cells, known, Test::Validators)?;
    test_refusal(cells, known, Test::Once)
}

// 10: too little room, too much, unequal arrays, or scratch short.
pub fn no_room(
    z: Sizes,
    words: usize,
    kinds: usize,
    ends: usize,
    pool: usize,
    scratch: usize,
) -> bool
    requires { Limits (sizes_in z) }
    ensures { (slots : ℕ) → result ≡ room_lacks (sizes_in z) words (record { kinds = kinds; ends = ends; pool = pool; index = slots; scratch = scratch }) }
{
    if 65536 < kinds {
        return true;
    }
    (kinds < z.terms)
        | (pool < words)
        | (1048576 < pool)
        | (kinds != ends)
        | (scratch < 2 * (kinds + z.proofs))
}

// 12: fewer than two slots for each cell of the store, or a slot count that is no power of two.
pub fn wrong_slots(slots: usize, cells: usize) -> bool
    requires { cells ≤ 65536 }
    ensures { (ends pool scratch : ℕ) → result ≡ wrong_slots (record { kinds = cells; ends = ends; pool = pool; index = slots; scratch = scratch }) }
{
    slots < 2 * cells || !slots.is_power_of_two()
}

// How many terms, from the first on, are known to differ: those that the index lists, or none where it has too few slots.
fn known_terms(cells: &Cells<'_>, index: &mut [u32], multiplier: u32) -> usize
    requires { HeldCells cells.now }
    ensures distinct { DistinctCells cells.now result }
    ensures fills { cells.now.sizes.terms < length index.old → Fills multiplier cells.now.kinds.now cells.now.ends.now cells.now.pool.now cells.now.sizes index.new result }
{
    let terms = cells.sizes.terms;
    if index.len() <= terms {
        return 0;
    }
    let t = fill_once(
        index,
        multiplier,
        cells.kinds,
        cells.ends,
        cells.pool,
        fill(cells.sizes),
        terms,
    );
    t.listed
}

// 5 to 10 and 12, on the kinds, the ends and the pool of a job's words; after an admitted job the index lists its terms.
pub fn load_cells(
    cells: &Cells<'_>,
    lent_kinds: usize,
    lent_ends: usize,
    lent_pool: usize,
    index: &mut [u32],
    multiplier: u32,
    scratch: usize,
) -> Result<(), Rejection>
    requires { Cut cells.now.kinds.now cells.now.ends.now cells.now.pool.now cells.now.sizes }
    ensures refusal { refusal_of result ≡ cell_refusal cells.now.ends.now (sizes_in cells.now.sizes) (tables_of cells.now) (record { kinds = lent_kinds; ends = lent_ends; pool = lent_pool; index = length index.old; scratch = scratch }) }
    ensures lists { OnOk result (Lists multiplier index.new (cells_of cells.now.kinds.now cells.now.ends.now cells.now.pool.now cells.now.sizes.terms)) }
{
    let z = cells.sizes;
    if !ends_rise(cells.ends, z.pool) {
        return Err(Rejection::Host(5));
    }
    let slots = index.len();
    let distinct = known_terms(cells, index, multiplier);
    writer_refusal(cells, distinct, multiplier)?;
    let words = start(cells.ends, z.terms);
    if no_room(z, words, lent_kinds, lent_ends, lent_pool, scratch) {
        return Err(Rejection::Host(10));
    }
    if wrong_slots(slots, lent_kinds) {
        return Err(Rejection::Host(12));
    }
    Ok(())
}

// The refusal below 20 of a job's words, for an asked proof in a mode and the lengths that are lent; after an admitted job the index lists its terms.
pub fn load(
    job: &[u32],
    asked: u32,
    mode: u32,
    kinds: usize,
    ends: usize,
    pool: usize,
    index: &mut [u32],
    multiplier: u32,
    scratch: usize,
) -> Result<(), Rejection>
    ensures refusal { refusal_of result ≡ load_refusal job.now asked mode (record { kinds = kinds; ends = ends; pool = pool; index = length index.old; scratch = scratch }) }
    ensures lists { OnOk result (Lists multiplier index.new (cells_of (kinds_of job.now) (ends_of job.now) (pool_of job.now) (sizes_of job.now).terms)) }
{
    if wrong_length(job) {
        return Err(Rejection::Host(1));
    }
    let z = read_sizes(job);
    if too_large(z) {
        return Err(Rejection::Host(2));
    }
    if z.proofs <= wide(asked) {
        return Err(Rejection::Host(3));
    }
    if 1 < mode {
        return Err(Rejection::Host(11));
    }
    let n = cell_count(z);
    let a = 12 + n;
    let b = a + n;
    let len = job.len();
    let cells = Cells {
        kinds: &job[12..a],
        ends: &job[a..b],
        pool: &job[b..len],
        sizes: z,
    };
    load_cells(&cells, kinds, ends, pool, index, multiplier, scratch)
}
