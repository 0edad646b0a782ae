// Marks on the terms of a store, a bit for each, for the reflexive pairs of an evaluation: a mark stands for a term and all its subterms.
#![tactic(auto)]

ghost use Rattle.std.specs.Prelude.{◌≡◌, true, false, ℕ, ◌-◌, ◌<◌, ◌≤◌, ◌^◌, length};
ghost use Rattle.termdag.specs.Store.{terms_at, StoredAt};
ghost use Rattle.marks.specs.Marks.{zeros, words_for, is_marked, with_mark, mark_all, close_at, close};

use cells::wide;
use index::{Fill, View};

// The words that hold a mark for each of so many terms.
pub fn words_for(terms: usize) -> usize
    requires { terms < 2 ^ 32 }
    ensures { result ≡ words_for terms }
{
    (terms + 31) / 32
}

// Takes every mark away.
pub fn clear(marks: &mut [u32])
    ensures { marks.new ≡ zeros (length marks.old) }
{
    marks.fill(0)
}

// A term is marked; past the end none is.
pub fn is_marked(marks: &[u32], t: u32) -> bool
    ensures { result ≡ is_marked marks.now t }
{
    let i = wide(t) / 32;
    if marks.len() <= i {
        return false;
    }
    0 < (marks[i] >> (t % 32)) % 2
}

// Marks a term; past the end there is nothing to mark.
pub fn mark(marks: &mut [u32], t: u32)
    ensures { marks.new ≡ with_mark marks.old t }
{
    let i = wide(t) / 32;
    if marks.len() <= i {
        return;
    }
    marks[i] = marks[i] | (1 << (t % 32));
}

// Marks each of these terms.
pub fn mark_all(marks: &mut [u32], xs: &[u32])
    ensures { marks.new ≡ mark_all xs.now marks.old }
{
    for &x in xs {
        mark(marks, x);
    }
}

// If term i is marked, marks its children.
fn close_at(store: &View<'_>, fill: Fill, i: usize, marks: &mut [u32])
    requires stored { StoredAt store.now fill }
    requires i_lt_cells { i < fill.cells }
    ensures { marks.new ≡ close_at (terms_at store.now fill) i marks.old (is_marked marks.old i) }
{
    if !is_marked(marks, i as u32) {
        return;
    }
    let xs = termdag::children(store.kinds, store.ends, store.pool, fill, i);
    mark_all(marks, xs);
}

// The 32 terms below i fill a word that has no mark; past the end none has.
fn is_bare(marks: &[u32], i: usize) -> bool
    requires { 0 < i }
    ensures { result ≡ true → (32 ≤ i) × ((t : ℕ) → i - 32 ≤ t → t < i → is_marked marks.now t ≡ false) }
{
    if i % 32 != 0 {
        return false;
    }
    let w = i / 32 - 1;
    if marks.len() <= w {
        return true;
    }
    marks[w] == 0
}

// From the top number down, each marked term marks its children; a word without a mark is stepped over.
pub fn close(store: &View<'_>, fill: Fill, marks: &mut [u32])
    requires { StoredAt store.now fill }
    ensures { marks.new ≡ close (terms_at store.now fill) fill.cells marks.old }
{
    let mut i = fill.cells;
    // a `for` would be no plainer: it goes by 1 or by 32
    while 0 < i {
        if is_bare(marks, i) {
            i -= 32;
            continue;
        }
        i -= 1;
        close_at(store, fill, i, marks);
    }
}
