// 6: a cell has a known kind with its operand count, and a literal its words. Kinds are words here, as the tests are for words that may be no kind.
ghost use Rattle.std.specs.Prelude.{◌≡◌};
ghost use Rattle.model.specs.Load.{counts, literal_cell, term_fits, expr_fits, row_fits, rule_fits, rule_proof_fits, proof_fits};

use crate::words::{at, rest};
use cells::wide;

// A known kind, with the operand count that the list gives for it.
pub fn counted(ns: &[u32], kind: u32, ws: &[u32]) -> bool
    ensures { result ≡ counts ns.now (record { kind = kind; words = ws.now }) }
{
    wide(kind) < ns.len() && ws.len() == wide(at(ns, wide(kind)))
}

// Three words that make a literal.
pub fn literal_fits(ws: &[u32]) -> bool
    ensures { (kind : _) → result ≡ literal_cell (record { kind = kind; words = ws.now }) }
{
    let &[kind, low, high] = ws else {
        return false;
    };
    match kind {
        0 => low == 0 && high == 0,
        1 => low < 2 && high == 0,
        2 => true,
        3 => high == 0,
        _ => false,
    }
}

pub fn term_fits(kind: u32, ws: &[u32]) -> bool
    ensures { result ≡ term_fits (record { kind = kind; words = ws.now }) }
{
    match kind {
        0 => literal_fits(ws),
        1 => ws.len() == 1,
        2 => (1..=17).contains(&ws.len()),
        _ => false,
    }
}

pub fn expr_fits(kind: u32, ws: &[u32]) -> bool
    ensures { result ≡ expr_fits (record { kind = kind; words = ws.now }) }
{
    match kind {
        0 => literal_fits(ws),
        1 => ws.len() == 1,
        2..=4 => (1..=17).contains(&ws.len()),
        _ => false,
    }
}

pub fn row_fits(kind: u32, ws: &[u32]) -> bool
    ensures { result ≡ row_fits (record { kind = kind; words = ws.now }) }
{
    kind == 0 && (2..=18).contains(&ws.len())
}

pub fn rule_fits(kind: u32, ws: &[u32]) -> bool
    ensures { result ≡ rule_fits (record { kind = kind; words = ws.now }) }
{
    let n = wide(at(ws, 1));
    let operands = rest(ws, 2);
    let actions = rest(operands, n);
    kind == 0 && 2 <= ws.len() && n <= operands.len() && n <= 16 && actions.len() <= 64
}

// The words of a rule's proof behind its premises are pairs, at most 32.
pub fn rule_proof_fits(ws: &[u32]) -> bool
    ensures { (kind : _) → result ≡ rule_proof_fits (record { kind = kind; words = ws.now }) }
{
    let n = wide(at(ws, 3));
    let operands = rest(ws, 4);
    let pairs = rest(operands, n);
    4 <= ws.len() && n <= operands.len() && n <= 4096 && pairs.len() <= 64 && pairs.len() % 2 == 0
}

pub fn proof_fits(kind: u32, ws: &[u32]) -> bool
    ensures { result ≡ proof_fits (record { kind = kind; words = ws.now }) }
{
    if kind == 1 {
        return rule_proof_fits(ws);
    }
    counted(&[2, 0, 5, 4, 3, 5, 3, 2], kind, ws)
}
