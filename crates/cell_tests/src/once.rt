// 9: what may stand once only.
ghost use Rattle.std.specs.Prelude.{◌≡◌, eqb};
ghost use Rattle.model.specs.Decode.{read_bindings};
ghost use Rattle.model.specs.Load.{any, binds_once, same_row, same_head};

use crate::words::{at, rest};
use cells::same_words;

// Rows by primitive and arguments.
pub fn same_row(a: &[u32], b: &[u32]) -> bool
    ensures { (j k : _) → result ≡ same_row (record { kind = j; words = a.now }) (record { kind = k; words = b.now }) }
{
    at(a, 0) == at(b, 0) && same_words(rest(a, 2), rest(b, 2))
}

// Normalisers by head.
pub fn same_head(a: &[u32], b: &[u32]) -> bool
    ensures { (j k : _) → result ≡ same_head (record { kind = j; words = a.now }) (record { kind = k; words = b.now }) }
{
    at(a, 0) == at(b, 0)
}

// A name is among those of pairs of name and term.
pub fn is_bound(name: u32, ws: &[u32]) -> bool
    ensures { result ≡ any (λ b. eqb name b.name) (read_bindings ws.now) }
{
    for pair in ws.chunks_exact(2) {
        if name == pair[0] {
            return true;
        }
    }
    false
}

// No name is bound twice in pairs of name and term.
pub fn binds_once(ws: &[u32]) -> bool
    ensures { result ≡ binds_once (read_bindings ws.now) }
{
    let mut left = ws;
    while let [name, _, behind @ ..] = left {
        if is_bound(*name, behind) {
            return false;
        }
        left = behind;
    }
    true
}
