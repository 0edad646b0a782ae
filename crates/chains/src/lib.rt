// Chains of a table's cells by their keys, in words of an array: of each slot the first cell, of each cell the next one of its slot. So the first cell of a key is found
// without a look at those of other slots, whether a key stands once or again.
#![tactic(auto)]

ghost use Rattle.std.specs.Prelude.{◌≡◌, true, false, ℕ, ◌+◌, ◌≤◌, ◌<◌, ◌^◌, length};
ghost use Rattle.chains.specs.Chains.{key_arguments, has_key, key_slot, words_of, same_key, FormedCells, ChainedBy, Within, Emptied, Linked, FirstHit, found_before, Differ};

use cell_tests::words::{at, rest};
use cells::{Table, same_words, wide};
use index::{home, stir_last};

// What is chained: `count` cells of a table from number `first` on, by their keys, which are those of rows or of other cells, with a multiplier.
#[derive(Clone, Copy)]
pub struct Keys<'a> {
    pub cells: Table<'a>,
    pub first: usize,
    pub count: usize,
    pub rows: bool,
    pub multiplier: u32,
}

// The words of a key behind its first: a row's arguments, else none.
fn key_arguments(rows: bool, ws: &[u32]) -> &[u32]
    ensures { result.now ≡ key_arguments rows ws.now }
{
    if rows {
        return rest(ws, 2);
    }
    rest(ws, ws.len())
}

// The words of a cell have the key.
fn has_key(rows: bool, ws: &[u32], head: u32, args: &[u32]) -> bool
    ensures { result ≡ has_key rows ws.now head args.now }
{
    if at(ws, 0) != head {
        return false;
    }
    same_words(key_arguments(rows, ws), args)
}

// The slot of a key among n, by the multiplier x.
fn slot_of(x: u32, n: usize, head: u32, args: &[u32]) -> usize
    requires { 0 < n }
    ensures is { result ≡ key_slot x n head args.now }
    ensures within { result < n }
{
    home(n, x, stir_last(x, 0, head), args)
}

// Empties n slots: each has the number past the last.
fn empty(table: &mut [u32], b: usize, n: usize)
    requires n_in_bounds { b + n ≤ length table.old }
    requires n_bound { n < 2 ^ 32 }
    ensures { Emptied b n table.old table.new }
{
    table[b..b + n].fill(n as u32);
}

// Puts number i before those of its slot s.
fn link(table: &mut [u32], b: usize, n: usize, s: usize, i: usize)
    requires n_in_bounds { b + (n + n) ≤ length table.old }
    requires s_lt_n { s < n }
    requires i_lt_n { i < n }
    requires n_bound { n < 2 ^ 32 }
    ensures { Linked b n s i table.old table.new }
{
    let next = table[b + s];
    table[b + n + i] = next;
    table[b + s] = i as u32;
}

// Chains the n cells from `first` on by their keys, in the 2 n words of the table from b on.
pub fn chain(table: &mut [u32], b: usize, keys: &Keys<'_>)
    requires formed { FormedCells keys.now }
    requires n_bound { keys.now.first + keys.now.count ≤ keys.now.cells.fill.cells }
    requires n_in_bounds { b + (keys.now.count + keys.now.count) ≤ length table.old }
    ensures chained { ChainedBy keys.now b table.new }
    ensures within { Within b (keys.now.count + keys.now.count) table.old table.new }
{
    let n = keys.count;
    empty(table, b, n);
    for i in (0..n).rev() {
        let ws = keys.cells.words(keys.first + i);
        let s = slot_of(keys.multiplier, n, at(ws, 0), key_arguments(keys.rows, ws));
        link(table, b, n, s, i);
    }
}

// The first of the cells that has the key, by its place.
pub fn find(table: &[u32], b: usize, keys: &Keys<'_>, head: u32, args: &[u32]) -> Option<usize>
    requires formed { FormedCells keys.now }
    requires n_bound { keys.now.first + keys.now.count ≤ keys.now.cells.fill.cells }
    requires chained { ChainedBy keys.now b table.now }
    ensures { FirstHit (λ i. has_key keys.now.rows (words_of keys.now i) head args.now) keys.now.count result }
{
    let n = keys.count;
    if n == 0 {
        return None;
    }
    let s = slot_of(keys.multiplier, n, head, args);
    let mut i = wide(table[b + s]);
    // A while, as the next number comes from the chain.
    while i < n {
        let ws = keys.cells.words(keys.first + i);
        if has_key(keys.rows, ws, head, args) {
            return Some(i);
        }
        i = wide(table[b + n + i]);
    }
    None
}

// What was found stands before place i.
fn found_before(f: Option<usize>, i: usize) -> bool
    ensures { result ≡ found_before f i }
{
    match f {
        Some(j) => j < i,
        None => false,
    }
}

// A cell behind cell i has its key, by the way along the chain from i on.
fn again_later(table: &[u32], b: usize, keys: &Keys<'_>, i: usize) -> bool
    requires formed { FormedCells keys.now }
    requires n_bound { keys.now.first + keys.now.count ≤ keys.now.cells.fill.cells }
    requires chained { ChainedBy keys.now b table.now }
    requires i_lt_n { i < keys.now.count }
    ensures { result ≡ false → (j : ℕ) → i < j → j < keys.now.count → same_key keys.now.rows (words_of keys.now) j i ≡ false }
{
    let n = keys.count;
    let own = keys.cells.words(keys.first + i);
    let head = at(own, 0);
    let args = key_arguments(keys.rows, own);
    let mut k = wide(table[b + n + i]);
    // A while, as the next number comes from the chain.
    while k < n {
        let ws = keys.cells.words(keys.first + k);
        if has_key(keys.rows, ws, head, args) {
            return true;
        }
        k = wide(table[b + n + k]);
    }
    false
}

// All of the cells differ in their keys.
fn all_differ(table: &[u32], b: usize, keys: &Keys<'_>) -> bool
    requires formed { FormedCells keys.now }
    requires n_bound { keys.now.first + keys.now.count ≤ keys.now.cells.fill.cells }
    requires chained { ChainedBy keys.now b table.now }
    ensures { result ≡ true → Differ (same_key keys.now.rows (words_of keys.now)) keys.now.count keys.now.count }
{
    for i in 0..keys.count {
        if again_later(table, b, keys, i) {
            return false;
        }
    }
    true
}

// How many of the cells differ in their keys from those before them, up to one that does not.
pub fn differing(table: &[u32], b: usize, keys: &Keys<'_>) -> usize
    requires formed { FormedCells keys.now }
    requires n_bound { keys.now.first + keys.now.count ≤ keys.now.cells.fill.cells }
    requires chained { ChainedBy keys.now b table.now }
    ensures { Differ (same_key keys.now.rows (words_of keys.now)) keys.now.count result }
{
    if all_differ(table, b, keys) {
        return keys.count;
    }
    for i in 0..keys.count {
        let ws = keys.cells.words(keys.first + i);
        let f = find(table, b, keys, at(ws, 0), key_arguments(keys.rows, ws));
        if found_before(f, i) {
            return i;
        }
    }
    keys.count
}
