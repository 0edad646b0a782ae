// Look-ups in the tables of an admitted job's program, and the normal form of a container. Where a table has many cells, they are chained by their keys.
#![tactic(auto)]

ghost use Rattle.std.specs.Prelude.{◌≡◌, Bool, true, false, List, [], ℕ, ◌+◌, ◌≤◌, ◌<◌, length, take};
ghost use Rattle.std.proofs.Math.Option.{some};
ghost use Rattle.model.specs.Term as terms;
ghost use Rattle.model.specs.Layout.{sizes_of};
ghost use Rattle.model.specs.Decode.{expr_of};
ghost use Rattle.model.specs.Check.{ok, Room};
ghost use Rattle.model.specs.Evaluate.{row_value};
ghost use Rattle.model.specs.Action.{merge_of};
ghost use Rattle.model.specs.Normalize.{normaliser_of, normalize_app, normalize_container};
ghost use Rattle.model.specs.Walk.{duplicate_rule_name};
ghost use Rattle.termdag.specs.Store.{terms_at, StoredAt};
ghost use Rattle.chains.specs.Chains.{has_key, same_key, Within, FirstHit, Differ};
ghost use Rattle.program.specs.Ready.{Held, Ready, number_of, tables_for, table_for, count_for, program_for, option_of, FindsCell, FindsRule, Merges};
ghost use Rattle.lookups.specs.Keyed.{words_in, KeysOf, ChainedTable, Keyed};

use cell_tests::words::at;
use cells::{same_words, wide};
use chains::Keys;
use decode::{Term, read_function, read_normaliser, read_row, row_arguments, rule_name};
use index::{Fill, View};
use program::job::{
    Table, cell_count, cell_words, ends, fill, first, kind_at, kinds, nearest_first, pool, size,
    words_at,
};

// A table of fewer cells is looked through, which is quicker than its chains.
const FEW: usize = 64;

// Where the multiplier stands.
const MULTIPLIER: usize = 4096;

// How a table is chained: where its chains start, and whether its keys have arguments, as a row's do. Functions that take it are inlined, so that its table is a constant in them.
#[derive(Clone, Copy)]
struct Chaining {
    table: Table,
    start: usize,
    rows: bool,
}

const ROWS: Chaining = Chaining {
    table: Table::Rows,
    start: 4097,
    rows: true,
};

const NORMALISERS: Chaining = Chaining {
    table: Table::Normalisers,
    start: 12289,
    rows: false,
};

const RULES: Chaining = Chaining {
    table: Table::Rules,
    start: 20481,
    rows: false,
};

const FUNCTIONS: Chaining = Chaining {
    table: Table::Functions,
    start: 28673,
    rows: false,
};

// Of the first `count` cells of a table, the place of the first of that name. The end of one cell is the start of the next.
fn first_named(job: &[u32], table: Table, count: usize, name: u32) -> Option<usize>
    requires held { Held job.now }
    requires count_bound { count ≤ count_for job.now (number_of table) }
    ensures { FindsCell (take count (table_for job.now (number_of table))) count name result }
{
    let start = first(job, table);
    let n = cell_count(job);
    let all_ends = ends(job, n);
    let all_words = pool(job, n);
    let mut from = cells::start(all_ends, start);
    for i in 0..count {
        let to = wide(all_ends[start + i]);
        if at(&all_words[from..to], 0) == name {
            return Some(i);
        }
        from = to;
    }
    None
}

// The cells of a table, to be chained by their keys.
#[inline(always)]
fn keys_of(job: &[u32], by: Chaining, multiplier: u32) -> Keys<'_>
    requires held { Held job.now }
    ensures { KeysOf job.now (number_of by.table) by.rows multiplier result }
{
    let fill = fill(job);
    let n = fill.cells;
    let cells = cells::Table {
        kinds: kinds(job, n),
        ends: ends(job, n),
        pool: pool(job, n),
        fill,
    };
    Keys {
        cells,
        first: nearest_first(job, by.table),
        count: size(job, by.table),
        rows: by.rows,
        multiplier,
    }
}

// Chains the cells of a table by their keys, unless they are few.
#[inline(always)]
fn chain_table(job: &[u32], found: &mut [u32], by: Chaining)
    requires held { Held job.now }
    requires count_bound { count_for job.now (number_of by.table) ≤ 4096 }
    requires start_bound { 4096 < by.start }
    requires in_bounds { by.start + 8192 ≤ length found.old }
    ensures chained { ChainedTable job.now found.new (number_of by.table) by.rows by.start }
    ensures within { Within by.start 8192 found.old found.new }
{
    if size(job, by.table) < FEW {
        return;
    }
    let keys = keys_of(job, by, found[MULTIPLIER]);
    chains::chain(found, by.start, &keys)
}

// Chains the rows, normalisers, rules and functions, each unless they are few, in the words behind the offences.
pub fn chain_tables(job: &[u32], x: u32, found: &mut [u32])
    requires held { Held job.now }
    requires in_bounds { 36865 ≤ length found.old }
    ensures keyed { Keyed job.now found.new }
    ensures within { Within 4096 32769 found.old found.new }
{
    found[MULTIPLIER] = x;
    chain_table(job, found, ROWS);
    chain_table(job, found, NORMALISERS);
    chain_table(job, found, RULES);
    chain_table(job, found, FUNCTIONS)
}

// No table is chained, as all are small.
pub fn needs_no_chains(job: &[u32]) -> bool
    requires { Held job.now }
    ensures { result ≡ true → (N : List ℕ) → Keyed job.now N }
{
    (size(job, Table::Rows) < FEW)
        & (size(job, Table::Normalisers) < FEW)
        & (size(job, Table::Rules) < FEW)
        & (size(job, Table::Functions) < FEW)
}

// The place of the first cell of a table that has the key, by its chains.
#[inline(always)]
fn find_key(job: &[u32], found: &[u32], by: Chaining, head: u32, args: &[u32]) -> Option<usize>
    requires held { Held job.now }
    requires start_bound { 4096 < by.start }
    requires chained_table { ChainedTable job.now found.now (number_of by.table) by.rows by.start }
    requires bound { 64 ≤ count_for job.now (number_of by.table) }
    ensures { FirstHit (λ i. has_key by.rows (words_in job.now (number_of by.table) i) head args.now) (count_for job.now (number_of by.table)) result }
{
    let keys = keys_of(job, by, found[MULTIPLIER]);
    chains::find(found, by.start, &keys, head, args)
}

// The place of the first cell of a table that has the name.
#[inline(always)]
fn find_named(job: &[u32], found: &[u32], by: Chaining, name: u32) -> Option<usize>
    requires held { Held job.now }
    requires start_bound { 4096 < by.start }
    requires by_name { by.rows ≡ false }
    requires chained_table { ChainedTable job.now found.now (number_of by.table) by.rows by.start }
    ensures { FindsCell (table_for job.now (number_of by.table)) (count_for job.now (number_of by.table)) name result }
{
    let count = size(job, by.table);
    if count < FEW {
        return first_named(job, by.table, count, name);
    }
    let none = [0u32; 0];
    find_key(job, found, by, name, &none)
}

// The result of the row of a primitive and its arguments, among all rows.
fn scan_rows(job: &[u32], p: u32, args: &[u32]) -> Option<u32>
    requires { Ready job.now }
    ensures { option_of result ≡ row_value (program_for job.now).rows p args.now }
{
    let count = size(job, Table::Rows);
    let start = first(job, Table::Rows);
    for i in 0..count {
        let ws = cell_words(job, start + i);
        let row = read_row(ws);
        let same = same_words(row_arguments(ws), args);
        if (row.primitive == p) & same {
            return Some(row.result);
        }
    }
    None
}

// The result of the row of a primitive and its arguments.
pub fn row_value(job: &[u32], found: &[u32], p: u32, args: &[u32]) -> Option<u32>
    requires ready { Ready job.now }
    requires keyed { Keyed job.now found.now }
    ensures { option_of result ≡ row_value (program_for job.now).rows p args.now }
{
    if size(job, Table::Rows) < FEW {
        return scan_rows(job, p, args);
    }
    let place = find_key(job, found, ROWS, p, args);
    let Some(i) = place else {
        return None;
    };
    let row = read_row(words_at(job, Table::Rows, i));
    Some(row.result)
}

// The primitive that normalises a head.
pub fn normaliser_of(job: &[u32], found: &[u32], head: u32) -> Option<u32>
    requires ready { Ready job.now }
    requires keyed { Keyed job.now found.now }
    ensures { option_of result ≡ normaliser_of (program_for job.now).normalisers head }
{
    let place = find_named(job, found, NORMALISERS, head);
    let Some(i) = place else {
        return None;
    };
    let n = read_normaliser(words_at(job, Table::Normalisers, i));
    Some(n.primitive)
}

// The number of the first rule of a name.
pub fn rule_of(job: &[u32], found: &[u32], name: u32) -> Option<usize>
    requires ready { Ready job.now }
    requires keyed { Keyed job.now found.now }
    ensures { FindsRule (program_for job.now).rules (sizes_of job.now).rules name result }
{
    find_named(job, found, RULES, name)
}

// The merge of the first function of a name.
pub fn merge_of(job: &[u32], found: &[u32], function: u32) -> Option<u32>
    requires ready { Ready job.now }
    requires keyed { Keyed job.now found.now }
    ensures { Merges (expr_of (tables_for job.now).expressions) (sizes_of job.now).expressions result (merge_of (program_for job.now).functions function) }
{
    let place = find_named(job, found, FUNCTIONS, function);
    let Some(i) = place else {
        return None;
    };
    let f = read_function(
        kind_at(job, Table::Functions, i),
        words_at(job, Table::Functions, i),
    );
    f.merge
}

// The first rule name that has been seen before, each looked for among those before it.
fn scan_rule_names(job: &[u32]) -> Option<u32>
    requires { Ready job.now }
    ensures { option_of result ≡ duplicate_rule_name [] (program_for job.now).rules }
{
    let count = size(job, Table::Rules);
    for i in 0..count {
        let name = rule_name(words_at(job, Table::Rules, i));
        let seen = first_named(job, Table::Rules, i, name);
        if let Some(_) = seen {
            return Some(name);
        }
    }
    None
}

// How many rules, from the first on, have another name than those before them.
fn differing_rules(job: &[u32], found: &[u32]) -> usize
    requires held { Held job.now }
    requires chained_table { ChainedTable job.now found.now (number_of RULES.table) RULES.rows RULES.start }
    requires bound { 64 ≤ count_for job.now (number_of RULES.table) }
    ensures { Differ (same_key RULES.rows (words_in job.now (number_of RULES.table))) (count_for job.now (number_of RULES.table)) result }
{
    let keys = keys_of(job, RULES, found[MULTIPLIER]);
    chains::differing(found, RULES.start, &keys)
}

// The first rule name that has been seen before.
pub fn duplicate_rule_name(job: &[u32], found: &[u32]) -> Option<u32>
    requires ready { Ready job.now }
    requires keyed { Keyed job.now found.now }
    ensures { option_of result ≡ duplicate_rule_name [] (program_for job.now).rules }
{
    let count = size(job, Table::Rules);
    if count < FEW {
        return scan_rule_names(job);
    }
    let i = differing_rules(job, found);
    if i < count {
        return Some(rule_name(words_at(job, Table::Rules, i)));
    }
    None
}

// The normal form of an application t; no normaliser, or no value, gives t itself.
fn normalize_app(job: &[u32], found: &[u32], t: u32, head: u32, args: &[u32]) -> u32
    requires ready { Ready job.now }
    requires keyed { Keyed job.now found.now }
    ensures { (room : Room) (s : List terms.Term) → normalize_app room (program_for job.now) t (some (record { head = head; args = args.now })) s ≡ ok result s }
{
    let normaliser = normaliser_of(job, found, head);
    let Some(p) = normaliser else {
        return t;
    };
    let value = row_value(job, found, p, args);
    let Some(r) = value else {
        return t;
    };
    r
}

// A container's normal form, in the store of terms; what is no application stays as it is.
pub fn normalize_container(job: &[u32], found: &[u32], store: &View<'_>, sfill: Fill, t: u32) -> u32
    requires ready { Ready job.now }
    requires keyed { Keyed job.now found.now }
    requires stored { StoredAt store.now sfill }
    requires t_lt_cells { t < sfill.cells }
    ensures { (room : Room) → normalize_container room (program_for job.now) t (terms_at store.now sfill) ≡ ok result (terms_at store.now sfill) }
{
    let n = wide(t);
    let term = termdag::get(store, sfill, n);
    let args = termdag::children(store.kinds, store.ends, store.pool, sfill, n);
    match term {
        Term::Lit(_) => t,
        Term::Var(_) => t,
        Term::App(head) => normalize_app(job, found, t, head, args),
    }
}
