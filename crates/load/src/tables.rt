// The tests of a cell in its table, for each number from 6 to 9, and the first cell that fails.
ghost use Rattle.std.specs.Prelude.{◌≡◌, true, ◌||◌, ℕ, ◌+◌, ◌<◌, eqb, get_or, []};
ghost use Rattle.model.specs.Load.{counts as operand_counts, fails_from, marks, set_fits, action_fits, passed, term_fits, term_refers, fit_tests, refer_tests, valid_tests, once_tests, primitive_looks_up, binds_once};
ghost use Rattle.model.specs.Cell.{cells_of};
ghost use Rattle.model.specs.Layout.{cell_count, table_list};
ghost use Rattle.model.specs.Program.{substitution};
ghost use Rattle.model.specs.Decode.{read_proof};
ghost use Rattle.model.specs.Term.{read_term};
ghost use Rattle.load.specs.Held.{sizes_in, fill_of, Limits, fixed_counts, alike_by, first_among, Place, tests_for, first_found, counts_of, cell_number, table_held, HeldCells, tables_of, cell_of, DistinctCells, PassingCells, SoundCells, round_of};

use crate::sizes::{Sizes, cell_count, counts};
use cell_tests::words::{all_below, at, rest};
use cell_tests::{fit, once, refer};
use cells::{Fill, Table, same_words, wide};
use chains::{Keys, chain, differing};

// The cells of a job's tables: their three arrays, and the sizes that cut them.
#[derive(Clone, Copy)]
pub struct Cells<'a> {
    pub kinds: &'a [u32],
    pub ends: &'a [u32],
    pub pool: &'a [u32],
    pub sizes: Sizes,
}

// A table by its number, as the definitions' tests stand in lists by table, the number of its first cell, and how many it has.
#[derive(Clone, Copy)]
pub struct Span {
    pub table: usize,
    pub first: usize,
    pub count: usize,
}

// What is known before the tests by table: how many terms, from the first on, differ, and how many pass 6 and 7. With it goes the multiplier for chains.
#[derive(Clone, Copy)]
pub struct Known {
    pub distinct: usize,
    pub sound: usize,
    pub multiplier: u32,
}

// The tests, with the numbers 6 to 9: the kind and its words, what is referred to, the validators of rows and normalisers, and what may stand once.
#[derive(Clone, Copy)]
pub enum Test {
    Shape,
    References,
    Validators,
    Once,
}

impl Test {
    // The number of the refusal.
    pub fn number(self) -> u32
        ensures { result ≡ 6 + round_of self }
    {
        match self {
            Test::Shape => 6,
            Test::References => 7,
            Test::Validators => 8,
            Test::Once => 9,
        }
    }
}

impl<'a> Cells<'a> {
    // All the cells as one table.
    fn table(&self) -> Table<'a>
        requires { Limits (sizes_in self.now.sizes) }
        ensures { result ≡ table_held self.now }
    {
        Table {
            kinds: self.kinds,
            ends: self.ends,
            pool: self.pool,
            fill: fill(self.sizes),
        }
    }
}

// How much the job's arrays hold.
pub fn fill(z: Sizes) -> Fill
    requires { Limits (sizes_in z) }
    ensures { result ≡ fill_of z }
{
    Fill {
        cells: cell_count(z),
        words: z.pool,
    }
}

// A set's expression is a call with an argument, where it is in range.
pub fn set_fits(cells: &Cells<'_>, kind: u32, ws: &[u32]) -> bool
    requires { HeldCells cells.now }
    ensures { result ≡ set_fits (tables_of cells.now).expressions (record { kind = kind; words = ws.now }) }
{
    if kind != 2 {
        return true;
    }
    let e = wide(at(ws, 0));
    if cells.sizes.expressions <= e {
        return true;
    }
    let i = cells.sizes.terms + e;
    let arguments = rest(cells.table().words(i), 1);
    (1 < cells.kinds[i]) & (0 < arguments.len())
}

pub fn action_fits(cells: &Cells<'_>, kind: u32, ws: &[u32]) -> bool
    requires { HeldCells cells.now }
    ensures { result ≡ action_fits (tables_of cells.now).expressions (record { kind = kind; words = ws.now }) }
{
    let counted = fit::counted(&[2, 2, 1, 1, 0, 0], kind, ws);
    let call = set_fits(cells, kind, ws);
    counted & call
}

// 6, by table.
pub fn fits(cells: &Cells<'_>, table: usize, kind: u32, ws: &[u32]) -> bool
    requires held { HeldCells cells.now }
    requires table_bound { table < 10 }
    ensures { (i : ℕ) → result ≡ get_or (fit_tests (tables_of cells.now)) table passed i (record { kind = kind; words = ws.now }) }
{
    match table {
        0 => fit::term_fits(kind, ws),
        1 => fit::expr_fits(kind, ws),
        3 => action_fits(cells, kind, ws),
        6 => fit::row_fits(kind, ws),
        8 => fit::rule_fits(kind, ws),
        9 => fit::proof_fits(kind, ws),
        _ => fixed_fits(table, kind, ws),
    }
}

// 6, for the tables whose kinds have each one operand count.
pub fn fixed_fits(table: usize, kind: u32, ws: &[u32]) -> bool
    ensures { result ≡ operand_counts (fixed_counts table) (record { kind = kind; words = ws.now }) }
{
    match table {
        2 => fit::counted(&[2, 1], kind, ws),
        4 => fit::counted(&[1, 2], kind, ws),
        5 => fit::counted(&[1, 1, 1, 1, 1, 1, 1, 1, 1], kind, ws),
        _ => fit::counted(&[2], kind, ws),
    }
}

// 7, by table.
pub fn refers(z: &Sizes, table: usize, i: usize, kind: u32, ws: &[u32]) -> bool
    requires { table < 10 }
    ensures { result ≡ get_or (refer_tests (sizes_in z.now)) table passed i (record { kind = kind; words = ws.now }) }
{
    match table {
        0 => refer::term_refers(i, kind, ws),
        1 => refer::expr_refers(z.primitives, i, kind, ws),
        2 => all_below(z.expressions, ws),
        3 => refer::action_refers(z.expressions, kind, ws),
        4 => all_below(z.expressions, rest(ws, 1)),
        5 => true,
        6 => refer::row_refers(z.primitives, z.terms, ws),
        7 => wide(at(ws, 1)) < z.primitives,
        8 => refer::rule_refers(z.facts, z.actions, ws),
        _ => refer::proof_refers(z.terms, i, kind, ws),
    }
}

// The primitive has a validator that looks rows up.
pub fn looks_up(cells: &Cells<'_>, p: usize) -> bool
    requires { HeldCells cells.now }
    ensures { result ≡ primitive_looks_up (tables_of cells.now).primitives p }
{
    let z = &cells.sizes;
    if z.primitives <= p {
        return false;
    }
    let i = z.terms + z.expressions + z.facts + z.actions + z.functions + p;
    let kind = cells.kinds[i];
    (kind == 1) | (kind == 3)
}

// 8, by table.
pub fn valid(cells: &Cells<'_>, table: usize, ws: &[u32]) -> bool
    requires { HeldCells cells.now }
    ensures { (i kind : ℕ) → result ≡ get_or (valid_tests (tables_of cells.now)) table passed i (record { kind = kind; words = ws.now }) }
{
    match table {
        6 => looks_up(cells, wide(at(ws, 0))),
        7 => looks_up(cells, wide(at(ws, 1))),
        _ => true,
    }
}

// Two cells of a table are the same: terms by kind and words, rows by primitive and arguments, normalisers by head.
pub fn alike(table: usize, j: u32, a: &[u32], k: u32, b: &[u32]) -> bool
    ensures { result ≡ alike_by table (record { kind = j; words = a.now }) (record { kind = k; words = b.now }) }
{
    match table {
        0 => j == k && same_words(a, b),
        6 => once::same_row(a, b),
        _ => once::same_head(a, b),
    }
}

// No cell of a table, from its first on, is the same as this one.
pub fn is_first(cells: &Cells<'_>, span: Span, i: usize) -> bool
    requires held { HeldCells cells.now }
    requires i_bound { span.first + i < cell_count (sizes_in cells.now.sizes) }
    ensures { result ≡ first_among (alike_by span.table) (cells_of cells.now.kinds.now cells.now.ends.now cells.now.pool.now (cell_count (sizes_in cells.now.sizes))) span.first i }
{
    let t = cells.table();
    let at = span.first + i;
    let kind = t.kinds[at];
    let own = t.words(at);
    for j in 0..i {
        let k = span.first + j;
        if alike(span.table, t.kinds[k], t.words(k), kind, own) {
            return false;
        }
    }
    true
}

// A proof's substitution binds no name twice.
pub fn proof_once(kind: u32, ws: &[u32]) -> bool
    ensures { result ≡ binds_once (substitution (read_proof (record { kind = kind; words = ws.now })).justification) }
{
    if kind == 1 {
        let m = wide(at(ws, 3));
        return once::binds_once(rest(rest(ws, 4), m));
    }
    true
}

// 9, by table.
pub fn once(cells: &Cells<'_>, span: Span, i: usize, kind: u32, ws: &[u32]) -> bool
    requires held { HeldCells cells.now }
    requires place { Place cells.now.sizes span.table span.first i }
    requires ws_value { record { kind = kind; words = ws.now } ≡ cell_of cells.now (span.first + i) }
    ensures { result ≡ get_or (once_tests (tables_of cells.now)) span.table passed i (cell_of cells.now (span.first + i)) }
{
    match span.table {
        0 | 6 | 7 => is_first(cells, span, i),
        9 => proof_once(kind, ws),
        _ => true,
    }
}

// The cell at place i of a table passes a test.
pub fn passes(cells: &Cells<'_>, test: Test, span: Span, i: usize) -> bool
    requires held { HeldCells cells.now }
    requires place { Place cells.now.sizes span.table span.first i }
    ensures { result ≡ get_or (tests_for (round_of test) (sizes_in cells.now.sizes) (tables_of cells.now)) span.table passed i (cell_of cells.now (span.first + i)) }
{
    let at = span.first + i;
    let kind = cells.kinds[at];
    let ws = cells.table().words(at);
    match test {
        Test::Shape => fits(cells, span.table, kind, ws),
        Test::References => refers(&cells.sizes, span.table, i, kind, ws),
        Test::Validators => valid(cells, span.table, ws),
        Test::Once => once(cells, span, i, kind, ws),
    }
}

// A term passes 6 and 7.
fn term_passes(i: usize, kind: u32, ws: &[u32]) -> bool
    ensures { result ≡ true → (true ≡ term_fits (record { kind = kind; words = ws.now })) × (true ≡ term_refers i (read_term (record { kind = kind; words = ws.now }))) }
{
    if !fit::term_fits(kind, ws) {
        return false;
    }
    refer::term_refers(i, kind, ws)
}

// How many terms, from the first on, pass 6 and 7. There are the most of them, so that they have one loop for both, without a choice of the table.
pub fn passing_terms(cells: &Cells<'_>) -> usize
    requires { HeldCells cells.now }
    ensures { SoundCells cells.now result }
{
    let t = cells.table();
    let terms = cells.sizes.terms;
    for i in 0..terms {
        if !term_passes(i, cells.kinds[i], t.words(i)) {
            return i;
        }
    }
    terms
}

// How many rows or normalisers, from the first on, are known to pass 9, by chains of their keys: none where there are few, as is_first is quicker then.
fn known_keys(cells: &Cells<'_>, multiplier: u32, span: Span) -> usize
    requires held { HeldCells cells.now }
    requires table_value { (eqb span.table 6 || eqb span.table 7) ≡ true }
    requires first_value { span.first ≡ cell_number (sizes_in cells.now.sizes) span.table }
    requires count_value { span.count ≡ get_or (counts_of (sizes_in cells.now.sizes)) span.table 0 }
    ensures { PassingCells cells.now 3 span.table result }
{
    if span.count < 64 {
        return 0;
    }
    let keys = Keys {
        cells: cells.table(),
        first: span.first,
        count: span.count,
        rows: span.table == 6,
        multiplier,
    };
    let mut slots = [0u32; 8192];
    chain(&mut slots, 0, &keys);
    differing(&slots, 0, &keys)
}

// How many cells of a table, from its first on, are known to pass: terms, rows, normalisers, and all where the test asks nothing of the table.
fn passed_first(cells: &Cells<'_>, known: Known, test: Test, span: Span) -> usize
    requires held { HeldCells cells.now }
    requires first_value { span.first ≡ cell_number (sizes_in cells.now.sizes) span.table }
    requires count_value { span.count ≡ get_or (counts_of (sizes_in cells.now.sizes)) span.table 0 }
    requires distinct { DistinctCells cells.now known.distinct }
    requires sound { SoundCells cells.now known.sound }
    ensures { PassingCells cells.now (round_of test) span.table result }
{
    match test {
        Test::Shape | Test::References => match span.table {
            0 => known.sound,
            _ => 0,
        },
        Test::Validators => match span.table {
            6 | 7 => 0,
            _ => span.count,
        },
        Test::Once => match span.table {
            0 => known.distinct,
            6 | 7 => known_keys(cells, known.multiplier, span),
            9 => 0,
            _ => span.count,
        },
    }
}

// The first cell of a table that fails its test.
pub fn first_failing(cells: &Cells<'_>, known: Known, test: Test, span: Span) -> Option<usize>
    requires held { HeldCells cells.now }
    requires table_bound { span.table < 10 }
    requires first_value { span.first ≡ cell_number (sizes_in cells.now.sizes) span.table }
    requires count_value { span.count ≡ get_or (counts_of (sizes_in cells.now.sizes)) span.table 0 }
    requires distinct { DistinctCells cells.now known.distinct }
    requires sound { SoundCells cells.now known.sound }
    ensures { result ≡ first_found span.first (fails_from 0 (get_or (tests_for (round_of test) (sizes_in cells.now.sizes) (tables_of cells.now)) span.table passed) (get_or (table_list (tables_of cells.now)) span.table [])) }
{
    let passed = passed_first(cells, known, test, span);
    for i in passed..span.count {
        if !passes(cells, test, span, i) {
            return Some(span.first + i);
        }
    }
    None
}

// The first cell of all tables that fails its table's test.
pub fn first_marked(cells: &Cells<'_>, known: Known, test: Test) -> Option<usize>
    requires held { HeldCells cells.now }
    requires distinct { DistinctCells cells.now known.distinct }
    requires sound { SoundCells cells.now known.sound }
    ensures { result ≡ first_found 0 (marks (tests_for (round_of test) (sizes_in cells.now.sizes) (tables_of cells.now)) (table_list (tables_of cells.now))) }
{
    let ns = counts(cells.sizes);
    let mut first = 0;
    for (table, &count) in ns.iter().enumerate() {
        let span = Span {
            table,
            first,
            count,
        };
        let f = first_failing(cells, known, test, span);
        if let Some(_) = f {
            return f;
        }
        first += count;
    }
    None
}
