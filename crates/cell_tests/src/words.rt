// Runs of words: reads that give 0 past the end, parts, and comparisons with a bound.
ghost use Rattle.std.specs.Prelude.{◌≡◌, get_or, take, drop, ◌<◌};
ghost use Rattle.model.specs.Load.{below};

use cells::wide;

// Word i, and 0 past the end.
pub fn at(ws: &[u32], i: usize) -> u32
    ensures { result ≡ get_or ws.now i 0 }
{
    ws.get(i).copied().unwrap_or(0)
}

// The words behind the first n.
pub fn rest(ws: &[u32], n: usize) -> &[u32]
    ensures { result.now ≡ drop n ws.now }
{
    &ws[n.min(ws.len())..]
}

// The first n words.
pub fn front(ws: &[u32], n: usize) -> &[u32]
    ensures { result.now ≡ take n ws.now }
{
    &ws[..n.min(ws.len())]
}

// Each word is below n.
pub fn all_below(n: usize, ws: &[u32]) -> bool
    ensures { result ≡ below n ws.now }
{
    for &w in ws {
        if n <= wide(w) {
            return false;
        }
    }
    true
}
