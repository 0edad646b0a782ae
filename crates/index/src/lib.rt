// An index of a table's cells in a lent slice, by open addressing: the mix, look-up, adding a cell by it, and listing the cells there are.
#![tactic(auto)]

ghost use Rattle.std.specs.Prelude.{◌≡◌, ◌+◌, ◌*◌, ◌%◌, ◌^◌, ◌<◌, ◌≤◌, length, replicate, slice_index, slice_set};
ghost use Rattle.index.specs.Loans.{SameLoans, Views};
ghost use Rattle.model.specs.Cell.{cell_at, cells_of};
ghost use Rattle.cells.specs.Table.{Formed, Once, add_cell, table_of};
ghost use Rattle.index.specs.Mixing.{golden, multiplier_of, times, stirred, spread, mix_of, slot_of};
ghost use Rattle.index.specs.Listing.{Lists, Looked, table_fill, ReadyIn, KeptIn, Enlisted, Filled};

use cells::{same, wide, words};
use std::num::wrapping_add_u32;

// How much of an indexed table is in use, the number of cells and of pool words, and the multiplier of its index.
#[derive(Clone, Copy)]
pub struct Fill {
    pub cells: usize,
    pub words: usize,
    pub multiplier: u32,
}

// The lent arrays of a table of cells, and of its index.
#[derive(Drop)]
pub struct Store<'a> {
    pub kinds: &'a mut [u32],
    pub ends: &'a mut [u32],
    pub pool: &'a mut [u32],
    pub index: &'a mut [u32],
}

// The same arrays, to be read alone. What reads no index can be given an empty one.
#[derive(Clone, Copy)]
pub struct View<'a> {
    pub kinds: &'a [u32],
    pub ends: &'a [u32],
    pub pool: &'a [u32],
    pub index: &'a [u32],
}

impl Store<'_> {
    // The arrays, to be read.
    pub fn view(&self) -> View<'_>
        ensures { Views self.now result }
    {
        View {
            kinds: self.kinds,
            ends: self.ends,
            pool: self.pool,
            index: self.index,
        }
    }
}

// The number of a cell, or none where the table was full, and the fill after.
#[derive(Clone, Copy)]
pub struct Added {
    pub number: Option<u32>,
    pub fill: Fill,
}

// What a look-up finds: the number of an equal cell; where there is none, the slot at which the cell is to be listed; and how many cells it compared.
#[derive(Clone, Copy)]
pub struct Probe {
    pub found: Option<u32>,
    pub slot: usize,
    pub compared: usize,
}

// How many cells were listed, and how many comparisons that took.
#[derive(Clone, Copy)]
pub struct Tally {
    pub listed: usize,
    pub compared: usize,
}

fn long(x: u32) -> u64
    ensures { result ≡ x }
{
    x as u64
}

// x y, modulo 2^32.
pub fn wrapping_mul32(x: u32, y: u32) -> u32
    ensures { result ≡ x * y % 2 ^ 32 }
{
    let p = long(x) * long(y);
    (p % 4294967296) as u32
}

// The multiplier for the word that the index's first slot held when it was lent; 0 where there is no slot.
pub fn multiplier(index: &[u32]) -> u32
    ensures { result ≡ multiplier_of (slice_index index.now 0) }
{
    if index.len() == 0 {
        return 2654435761;
    }
    let w = index[0];
    wrapping_add_u32(2654435761, wrapping_add_u32(w, w))
}

// a b, modulo 2^32 - 5 but for the carries.
fn times(a: u32, b: u32) -> u32
    ensures { result ≡ times a b }
{
    let p = long(a) * long(b);
    ((p % 4294967296 + p / 4294967296 * 5) % 4294967296) as u32
}

// The mix with two more words, by x and its square y.
fn stir(x: u32, y: u32, h: u32, w: u32, v: u32) -> u32
    requires { y ≡ times x x }
    ensures { result ≡ stirred x h w v }
{
    wrapping_add_u32(times(wrapping_add_u32(h, w), y), times(v, x))
}

// The mix with one more word.
pub fn stir_last(x: u32, h: u32, w: u32) -> u32
    ensures { result ≡ stirred x h w golden }
{
    stir(x, times(x, x), h, w, 2654435761)
}

// The mix's last step.
fn spread(h: u32) -> u32
    ensures { result ≡ spread h }
{
    let odd = wrapping_add_u32(wrapping_add_u32(h, h), 1);
    wrapping_mul32(wrapping_mul32(h, odd), 2654435761)
}

// The mix of a kind and words, by the multiplier x.
pub fn mix(x: u32, kind: u32, ws: &[u32]) -> u32
    ensures { result ≡ mix_of x (record { kind = kind; words = ws.now }) }
{
    let y = times(x, x);
    let mut h = kind;
    let mut i = 0;
    // A turn takes two words, and what is left over one: a `for` over pairs would still have to count.
    while 1 < ws.len() - i {
        h = stir(x, y, h, ws[i], ws[i + 1]);
        i += 2;
    }
    if i < ws.len() {
        return spread(stir_last(x, h, ws[i]));
    }
    spread(h)
}

// The own slot of a kind and words among n, by the multiplier x.
pub fn home(n: usize, x: u32, kind: u32, ws: &[u32]) -> usize
    ensures { result ≡ slot_of x n (record { kind = kind; words = ws.now }) }
{
    let m = wide(mix(x, kind, ws));
    if 4294967296 < n {
        return m;
    }
    m * n / 4294967296
}

// The slot k steps on from slot s of n, round the end.
pub fn onward(n: usize, s: usize, k: usize) -> usize
    requires s_lt_n { s < n }
    requires k_le_n { k ≤ n }
    ensures { result ≡ (s + k) % n }
{
    if k < n - s {
        return s + k;
    }
    k - (n - s)
}

// Empties all slots.
pub fn clear(index: &mut [u32])
    ensures { index.new ≡ replicate (length index.old) 0 }
{
    index.fill(0);
}

// Looks a cell up among the first m, by the index that lists them. The arrays are parameters of their own, as the cells are a job's while it loads and a store's later.
pub fn find(
    index: &[u32],
    x: u32,
    kinds: &[u32],
    ends: &[u32],
    pool: &[u32],
    fill: cells::Fill,
    m: usize,
    kind: u32,
    ws: &[u32],
) -> Probe
    requires formed { Formed kinds.now ends.now pool.now fill }
    requires m_le_cells { m ≤ fill.cells }
    requires m_in_bounds { m < length index.now }
    requires once { Once (cells_of kinds.now ends.now pool.now m) }
    requires lists { Lists x index.now (cells_of kinds.now ends.now pool.now m) }
    ensures { Looked x index.now (cells_of kinds.now ends.now pool.now m) (record { kind = kind; words = ws.now }) result }
{
    let n = index.len();
    let first = home(n, x, kind, ws);
    for compared in 0..n {
        let slot = onward(n, first, compared);
        let entry = index[slot];
        if entry == 0 {
            return Probe {
                found: None,
                slot,
                compared,
            };
        }
        if same(kinds, ends, pool, fill, wide(entry) - 1, kind, ws) {
            return Probe {
                found: Some(entry - 1),
                slot,
                compared: compared + 1,
            };
        }
    }
    Probe {
        found: None,
        slot: 0,
        compared: n,
    }
}

// Lists a number at an empty slot.
pub fn insert(index: &mut [u32], slot: usize, number: usize)
    requires slot_in_bounds { slot < length index.old }
    requires number_bound { number + 1 < 2 ^ 32 }
    ensures { index.new ≡ slice_set index.old slot (number + 1) }
{
    index[slot] = (number + 1) as u32;
}

// What adding a cell to the table gave, with the multiplier.
fn with_multiplier(a: cells::Added, multiplier: u32) -> Added
    ensures { result ≡ record { number = a.number; fill = record { cells = a.fill.cells; words = a.fill.words; multiplier = multiplier } } }
{
    Added {
        number: a.number,
        fill: Fill {
            cells: a.fill.cells,
            words: a.fill.words,
            multiplier,
        },
    }
}

// The number of an equal cell, else of the cell appended, which the index then lists.
pub fn add(store: &mut Store<'_>, fill: Fill, kind: u32, ws: &[u32]) -> Added
    requires { ReadyIn store.old fill }
    ensures does { KeptIn store.old fill store.new result (add_cell (record { kind = kind; words = ws.now }) (table_of store.old.kinds.now store.old.ends.now store.old.pool.now (table_fill fill))) }
    ensures loans { SameLoans store.old store.new }
{
    let kinds = &mut *store.kinds;
    let ends = &mut *store.ends;
    let pool = &mut *store.pool;
    let index = &mut *store.index;
    let n = fill.cells;
    let x = fill.multiplier;
    let have = cells::Fill {
        cells: n,
        words: fill.words,
    };
    let p = find(index, x, kinds, ends, pool, have, n, kind, ws);
    let a = cells::add(kinds, ends, pool, have, p.found, kind, ws);
    if a.fill.cells == n {
        return with_multiplier(a, x);
    }
    insert(index, p.slot, n);
    with_multiplier(a, x)
}

// Lists cell i behind those before it, unless one of them is equal.
fn enlist(
    index: &mut [u32],
    x: u32,
    kinds: &[u32],
    ends: &[u32],
    pool: &[u32],
    fill: cells::Fill,
    i: usize,
) -> Probe
    requires formed { Formed kinds.now ends.now pool.now fill }
    requires i_lt_cells { i < fill.cells }
    requires i_in_bounds { i < length index.old }
    requires once { Once (cells_of kinds.now ends.now pool.now i) }
    requires lists { Lists x index.old (cells_of kinds.now ends.now pool.now i) }
    ensures { Enlisted x (cell_at kinds.now ends.now pool.now) i index.old index.new result }
{
    let ws = words(kinds, ends, pool, fill, i);
    let p = find(index, x, kinds, ends, pool, fill, i, kinds[i], ws);
    if let Some(_) = p.found {
        return p;
    }
    insert(index, p.slot, i);
    p
}

// Lists the first m cells, whatever the index held, up to one that equals an earlier one.
pub fn fill_once(
    index: &mut [u32],
    x: u32,
    kinds: &[u32],
    ends: &[u32],
    pool: &[u32],
    fill: cells::Fill,
    m: usize,
) -> Tally
    requires formed { Formed kinds.now ends.now pool.now fill }
    requires m_le_cells { m ≤ fill.cells }
    requires m_in_bounds { m < length index.old }
    ensures { Filled x (cell_at kinds.now ends.now pool.now) m index.new result }
{
    clear(index);
    let mut compared = 0;
    for listed in 0..m {
        let p = enlist(index, x, kinds, ends, pool, fill, listed);
        compared += p.compared;
        if let Some(_) = p.found {
            return Tally { listed, compared };
        }
    }
    Tally {
        listed: m,
        compared,
    }
}
