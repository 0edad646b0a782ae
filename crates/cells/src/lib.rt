// A table of cells in three arrays of words: reading a cell, comparing, and adding one. Above, only loading and the search for a name speak of ends.
#![tactic(auto)]

ghost use Rattle.std.specs.Prelude.{◌≡◌, true, false, ◌+◌, ◌-◌, ◌≤◌, ◌<◌, length, get_or};
ghost use Rattle.model.specs.Cell.{Cell, no_cell, same_words, same_cell, start_of, cells_of};
ghost use Rattle.cells.specs.Table.{Formed, find_cell, put, Ran, add_cell, append_cell, table_of};

// How much of a table is in use: the number of cells, and of pool words.
#[derive(Clone, Copy)]
pub struct Fill {
    pub cells: usize,
    pub words: usize,
}

// A table of cells to be read: its three arrays, and how much of them is in use.
#[derive(Clone, Copy)]
pub struct Table<'a> {
    pub kinds: &'a [u32],
    pub ends: &'a [u32],
    pub pool: &'a [u32],
    pub fill: Fill,
}

// The number of a cell, or none where the table was full, and the fill after.
#[derive(Clone, Copy)]
pub struct Added {
    pub number: Option<u32>,
    pub fill: Fill,
}

// A word as an index: `usize` has no `From<u32>`, and the name says that nothing is lost.
pub fn wide(x: u32) -> usize
    ensures { result ≡ x }
{
    x as usize
}

// Where the words of cell i start in the pool.
pub fn start(ends: &[u32], i: usize) -> usize
    requires { i ≤ length ends.now }
    ensures { result ≡ start_of ends.now i }
{
    if i == 0 {
        return 0;
    }
    wide(ends[i - 1])
}

// The words of cell i, as a part of the pool.
pub fn words<'a>(kinds: &[u32], ends: &[u32], pool: &'a [u32], fill: Fill, i: usize) -> &'a [u32]
    requires formed { Formed kinds.now ends.now pool.now fill }
    requires i_lt_cells { i < fill.cells }
    ensures { result.now ≡ (get_or (cells_of kinds.now ends.now pool.now fill.cells) i no_cell).words }
{
    let s = start(ends, i);
    let e = wide(ends[i]);
    &pool[s..e]
}

impl<'a> Table<'a> {
    // The words of cell i, as a part of the pool.
    pub fn words(&self, i: usize) -> &'a [u32]
        requires formed { Formed self.now.kinds.now self.now.ends.now self.now.pool.now self.now.fill }
        requires i_lt_cells { i < self.now.fill.cells }
        ensures { result.now ≡ (get_or (cells_of self.now.kinds.now self.now.ends.now self.now.pool.now self.now.fill.cells) i no_cell).words }
    {
        words(self.kinds, self.ends, self.pool, self.fill, i)
    }
}

// Two runs of words are equal.
pub fn same_words(a: &[u32], b: &[u32]) -> bool
    ensures { result ≡ same_words a.now b.now }
{
    if a.len() != b.len() {
        return false;
    }
    // No `a == b`: that compares all words even where the first ones differ, and takes 1.8 times as long over 512 rows of one slot.
    for k in 0..a.len() {
        if a[k] != b[k] {
            return false;
        }
    }
    true
}

// Cell i has this kind and these words.
pub fn same(
    kinds: &[u32],
    ends: &[u32],
    pool: &[u32],
    fill: Fill,
    i: usize,
    kind: u32,
    ws: &[u32],
) -> bool
    requires formed { Formed kinds.now ends.now pool.now fill }
    requires i_lt_cells { i < fill.cells }
    ensures { result ≡ same_cell (get_or (cells_of kinds.now ends.now pool.now fill.cells) i no_cell) (record { kind = kind; words = ws.now }) }
{
    kinds[i] == kind && same_words(words(kinds, ends, pool, fill, i), ws)
}

// Writes src over dst from the index at.
pub fn copy(dst: &mut [u32], at: usize, src: &[u32])
    requires { at + length src.now ≤ length dst.old }
    ensures { dst.new ≡ put dst.old at src.now }
{
    // No `copy_from_slice`: that calls memmove, which nothing else in the library for C needs.
    for j in 0..src.len() {
        dst[at + j] = src[j];
    }
}

// Appends a cell, if there is room. The arrays are lent one by one, here and below: `index::add` lends three of a store's four, and a struct of them would have to be made anew there.
pub fn append(
    kinds: &mut [u32],
    ends: &mut [u32],
    pool: &mut [u32],
    fill: Fill,
    kind: u32,
    ws: &[u32],
) -> Added
    requires { Formed kinds.old ends.old pool.old fill }
    ensures { Ran kinds.old ends.old pool.old fill kinds.new ends.new pool.new result (append_cell (record { kind = kind; words = ws.now }) (table_of kinds.old ends.old pool.old fill)) }
{
    let n = fill.cells;
    let m = fill.words;
    if kinds.len() <= n {
        return Added { number: None, fill };
    }
    if pool.len() - m < ws.len() {
        return Added { number: None, fill };
    }
    let e = m + ws.len();
    copy(pool, m, ws);
    kinds[n] = kind;
    ends[n] = e as u32;
    Added {
        number: Some(n as u32),
        fill: Fill {
            cells: n + 1,
            words: e,
        },
    }
}

// The number of an equal cell, as a look-up found it, else of the cell appended.
fn add_by_value(
    kinds: &mut [u32],
    ends: &mut [u32],
    pool: &mut [u32],
    fill: Fill,
    found: Option<u32>,
    kind: u32,
    ws: &[u32],
) -> Added
    requires formed { Formed kinds.old ends.old pool.old fill }
    requires found_value { found ≡ find_cell (cells_of kinds.old ends.old pool.old fill.cells) (record { kind = kind; words = ws.now }) }
    ensures { Ran kinds.old ends.old pool.old fill kinds.new ends.new pool.new result (add_cell (record { kind = kind; words = ws.now }) (table_of kinds.old ends.old pool.old fill)) }
{
    if let Some(i) = found {
        return Added {
            number: Some(i),
            fill,
        };
    }
    append(kinds, ends, pool, fill, kind, ws)
}

// The same with the fill lent: its two counters are raised as the cell enters.
pub fn enter(
    kinds: &mut [u32],
    ends: &mut [u32],
    pool: &mut [u32],
    fill: &mut Fill,
    found: Option<u32>,
    kind: u32,
    ws: &[u32],
) -> Option<u32>
    requires formed { Formed kinds.old ends.old pool.old fill.old }
    requires found_value { found ≡ find_cell (cells_of kinds.old ends.old pool.old fill.old.cells) (record { kind = kind; words = ws.now }) }
    ensures { Ran kinds.old ends.old pool.old fill.old kinds.new ends.new pool.new (record { number = result; fill = fill.new }) (add_cell (record { kind = kind; words = ws.now }) (table_of kinds.old ends.old pool.old fill.old)) }
{
    let a = add_by_value(kinds, ends, pool, *fill, found, kind, ws);
    fill.cells = a.fill.cells;
    fill.words = a.fill.words;
    a.number
}

// The same with the fill by value, for callers with plain parameters: a copy is lent.
pub fn add(
    kinds: &mut [u32],
    ends: &mut [u32],
    pool: &mut [u32],
    fill: Fill,
    found: Option<u32>,
    kind: u32,
    ws: &[u32],
) -> Added
    requires formed { Formed kinds.old ends.old pool.old fill }
    requires found_value { found ≡ find_cell (cells_of kinds.old ends.old pool.old fill.cells) (record { kind = kind; words = ws.now }) }
    ensures { Ran kinds.old ends.old pool.old fill kinds.new ends.new pool.new result (add_cell (record { kind = kind; words = ws.now }) (table_of kinds.old ends.old pool.old fill)) }
{
    let mut fill = fill;
    let number = enter(kinds, ends, pool, &mut fill, found, kind, ws);
    Added { number, fill }
}
