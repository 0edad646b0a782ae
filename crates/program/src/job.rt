// The words of an admitted job: its tables, and their cells. Behind loading this alone knows where they stand.
ghost use Rattle.std.specs.Prelude.{◌≡◌, ◌<◌, get_or};
ghost use Rattle.index.specs.Loans.{SameLoans};
ghost use Rattle.model.specs.Cell.{no_cell};
ghost use Rattle.model.specs.Layout.{sizes_of, kinds_of, ends_of, pool_of, cell_count};
ghost use Rattle.termdag.specs.Store.{LoadableIn, LoadedIn};
ghost use Rattle.load.specs.Held.{cell_number};
ghost use Rattle.program.specs.Ready.{Held, number_of, table_for, count_for, cell_for, fill_for};

use cells::{Fill, wide, words};
use index::Store;

// The tables of a job, in their order.
#[derive(Clone, Copy)]
pub enum Table {
    Terms,
    Expressions,
    Facts,
    Actions,
    Functions,
    Primitives,
    Rows,
    Normalisers,
    Rules,
    Proofs,
}

// The number of global actions: the fifth size, which counts no cells of its own.
pub fn globals(job: &[u32]) -> usize
    requires { Held job.now }
    ensures { result ≡ (sizes_of job.now).globals }
{
    wide(job[4])
}

// The number of cells of table k.
fn count_at(job: &[u32], k: usize) -> usize
    requires held { Held job.now }
    requires k_bound { k < 10 }
    ensures { result ≡ count_for job.now k }
{
    if k < 4 {
        return wide(job[k]);
    }
    wide(job[k + 1])
}

// The number of cells of a table.
pub fn size(job: &[u32], table: Table) -> usize
    requires { Held job.now }
    ensures { result ≡ count_for job.now (number_of table) }
{
    count_at(job, table as usize)
}

// The number, over all tables, of the first cell of a table.
pub fn first(job: &[u32], table: Table) -> usize
    requires { Held job.now }
    ensures { result ≡ cell_number (sizes_of job.now) (number_of table) }
{
    let mut sum = 0;
    for k in 0..table as usize {
        sum += count_at(job, k);
    }
    sum
}

// How much the job's arrays hold: it is as long as its sizes say.
pub fn fill(job: &[u32]) -> Fill
    requires { Held job.now }
    ensures { result ≡ fill_for job.now }
{
    let words = wide(job[11]);
    Fill {
        cells: (job.len() - 12 - words) / 2,
        words,
    }
}

// The number of all cells.
pub fn cell_count(job: &[u32]) -> usize
    requires { Held job.now }
    ensures { result ≡ cell_count (sizes_of job.now) }
{
    let f = fill(job);
    f.cells
}

// The number of the first cell of a table, counted from the end of all cells.
fn first_behind(job: &[u32], table: Table) -> usize
    requires { Held job.now }
    ensures { result ≡ cell_number (sizes_of job.now) (number_of table) }
{
    let f = fill(job);
    let mut left = f.cells;
    for k in (table as usize..10).rev() {
        left -= count_at(job, k);
    }
    left
}

// The number of the first cell of a table, by the side with fewer sizes to read.
pub fn nearest_first(job: &[u32], table: Table) -> usize
    requires { Held job.now }
    ensures { result ≡ cell_number (sizes_of job.now) (number_of table) }
{
    if (table as usize) < 6 {
        return first(job, table);
    }
    first_behind(job, table)
}

// The kinds of all cells.
pub fn kinds(job: &[u32], count: usize) -> &[u32]
    requires held { Held job.now }
    requires count_value { count ≡ cell_count (sizes_of job.now) }
    ensures { result.now ≡ kinds_of job.now }
{
    let a = 12 + count;
    &job[12..a]
}

// The ends of all cells.
pub fn ends(job: &[u32], count: usize) -> &[u32]
    requires held { Held job.now }
    requires count_value { count ≡ cell_count (sizes_of job.now) }
    ensures { result.now ≡ ends_of job.now }
{
    let a = 12 + count;
    let b = a + count;
    &job[a..b]
}

// The pool.
pub fn pool(job: &[u32], count: usize) -> &[u32]
    requires held { Held job.now }
    requires count_value { count ≡ cell_count (sizes_of job.now) }
    ensures { result.now ≡ pool_of job.now }
{
    let b = 12 + count + count;
    let len = job.len();
    &job[b..len]
}

// The words of cell i of all cells.
pub fn cell_words(job: &[u32], i: usize) -> &[u32]
    requires held { Held job.now }
    requires i_bound { i < cell_count (sizes_of job.now) }
    ensures { result.now ≡ (cell_for job.now i).words }
{
    let f = fill(job);
    let n = f.cells;
    words(kinds(job, n), ends(job, n), pool(job, n), f, i)
}

// The kind of cell i of a table.
pub fn kind_at(job: &[u32], table: Table, i: usize) -> u32
    requires held { Held job.now }
    requires i_bound { i < count_for job.now (number_of table) }
    ensures { result ≡ (get_or (table_for job.now (number_of table)) i no_cell).kind }
{
    let k = nearest_first(job, table) + i;
    job[12 + k]
}

// The words of cell i of a table.
pub fn words_at(job: &[u32], table: Table, i: usize) -> &[u32]
    requires held { Held job.now }
    requires i_bound { i < count_for job.now (number_of table) }
    ensures { result.now ≡ (get_or (table_for job.now (number_of table)) i no_cell).words }
{
    let k = nearest_first(job, table) + i;
    cell_words(job, k)
}

// Copies the terms into the lent arrays; the fill has the multiplier.
pub fn load_terms(job: &[u32], multiplier: u32, store: &mut Store<'_>) -> index::Fill
    requires held { Held job.now }
    requires loadable { LoadableIn (kinds_of job.now) (ends_of job.now) (pool_of job.now) (fill_for job.now) (count_for job.now 0) store.old }
    ensures does { LoadedIn (kinds_of job.now) (ends_of job.now) (pool_of job.now) (count_for job.now 0) multiplier store.old store.new result }
    ensures index { store.new.index.now ≡ store.old.index.now }
    ensures loans { SameLoans store.old store.new }
{
    let f = fill(job);
    let n = f.cells;
    let terms = size(job, Table::Terms);
    termdag::load_terms(
        kinds(job, n),
        ends(job, n),
        pool(job, n),
        f,
        terms,
        multiplier,
        store,
    )
}
