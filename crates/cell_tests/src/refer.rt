// 7: the references of a cell are in range, and lower than its own number where document 01 says so.
ghost use Rattle.std.specs.Prelude.{◌≡◌, map};
ghost use Rattle.model.specs.Term.{read_term};
ghost use Rattle.model.specs.Program.{references, substitution};
ghost use Rattle.model.specs.Decode.{read_bindings, read_justification, read_row, read_proof};
ghost use Rattle.model.specs.Load.{below, term_refers, expr_refers, action_refers, row_refers, rule_refers, proof_refers};

use crate::words::{all_below, at, front, rest};
use cells::wide;

#[tactic(auto, unfolding(model::specs::Term::read_term))]
pub fn term_refers(i: usize, kind: u32, ws: &[u32]) -> bool
    ensures { result ≡ term_refers i (read_term (record { kind = kind; words = ws.now })) }
{
    match kind {
        0 | 1 => true,
        _ => all_below(i, rest(ws, 1)),
    }
}

pub fn expr_refers(primitives: usize, i: usize, kind: u32, ws: &[u32]) -> bool
    ensures { result ≡ expr_refers primitives i (record { kind = kind; words = ws.now }) }
{
    match kind {
        0 | 1 => true,
        2 | 3 => all_below(i, rest(ws, 1)),
        _ => wide(at(ws, 0)) < primitives && all_below(i, rest(ws, 1)),
    }
}

pub fn action_refers(expressions: usize, kind: u32, ws: &[u32]) -> bool
    ensures { result ≡ action_refers expressions (record { kind = kind; words = ws.now }) }
{
    if kind == 0 {
        return all_below(expressions, rest(ws, 1));
    }
    all_below(expressions, ws)
}

pub fn row_refers(primitives: usize, terms: usize, ws: &[u32]) -> bool
    ensures { (kind : _) → result ≡ row_refers primitives terms (read_row (record { kind = kind; words = ws.now })) }
{
    wide(at(ws, 0)) < primitives && wide(at(ws, 1)) < terms && all_below(terms, rest(ws, 2))
}

pub fn rule_refers(facts: usize, actions: usize, ws: &[u32]) -> bool
    ensures { (kind : _) → result ≡ rule_refers facts actions (record { kind = kind; words = ws.now }) }
{
    let n = wide(at(ws, 1));
    let operands = rest(ws, 2);
    all_below(facts, front(operands, n)) && all_below(actions, rest(operands, n))
}

// The proofs that a proof refers to are lower than it.
pub fn references_below(i: usize, kind: u32, ws: &[u32]) -> bool
    ensures { result ≡ below i (references (read_justification (record { kind = kind; words = ws.now }))) }
{
    let x = wide(at(ws, 2));
    let y = wide(at(ws, 3));
    let z = wide(at(ws, 4));
    match kind {
        1 => all_below(i, front(rest(ws, 4), y)),
        2 => y < i && z < i,
        3 => x < i && y < i,
        4 | 6 => x < i,
        5 => x < i && z < i,
        _ => true,
    }
}

// The terms of pairs of name and term are below n.
pub fn pairs_below(n: usize, ws: &[u32]) -> bool
    ensures { result ≡ below n (map (λ b. b.term) (read_bindings ws.now)) }
{
    for pair in ws.chunks_exact(2) {
        if n <= wide(pair[1]) {
            return false;
        }
    }
    true
}

// The terms that a proof's substitution names are below n.
pub fn substitution_below(n: usize, kind: u32, ws: &[u32]) -> bool
    ensures { result ≡ below n (map (λ b. b.term) (substitution (read_justification (record { kind = kind; words = ws.now })))) }
{
    if kind == 1 {
        let m = wide(at(ws, 3));
        return pairs_below(n, rest(rest(ws, 4), m));
    }
    true
}

pub fn proof_refers(terms: usize, i: usize, kind: u32, ws: &[u32]) -> bool
    ensures { result ≡ proof_refers terms i (read_proof (record { kind = kind; words = ws.now })) }
{
    wide(at(ws, 0)) < terms
        && wide(at(ws, 1)) < terms
        && references_below(i, kind, ws)
        && substitution_below(terms, kind, ws)
}
