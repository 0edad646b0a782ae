// The term table of termdag.rs over three lent arrays: reading a term, adding a literal or an application, and loading the job's terms.
#![tactic(auto)]

ghost use Rattle.std.specs.Prelude.{◌≡◌, None, ◌≤◌, ◌<◌, length, get_or, drop};
ghost use Rattle.index.specs.Loans.{SameLoans};
ghost use Rattle.std.proofs.Math.Option.{none, some};
ghost use Rattle.model.specs.Cell.{cells_of};
ghost use Rattle.model.specs.Term.{lit, app, find_term, get_term};
ghost use Rattle.model.specs.Check.{add_node};
ghost use Rattle.model.specs.Evaluate.{children};
ghost use Rattle.cells.specs.Table.{find_cell};
ghost use Rattle.decode.specs.View.{literal_of, term_of};
ghost use Rattle.termdag.specs.Store.{terms_in, terms_at, terms_of, Stored, StoredAt, Indexed, IndexedIn, room_of, room_in, AddsIn, Known, LoadableIn, LoadedIn};

use decode::{Literal, Term};
use index::{Added, Fill, Store, View};

// The term of a number; `children` has its children.
pub fn get(store: &View<'_>, fill: Fill, t: usize) -> Term
    requires stored { StoredAt store.now fill }
    requires t_lt_cells { t < fill.cells }
    ensures { get_term (terms_at store.now fill) t ≡ some (term_of result (children (get_term (terms_at store.now fill) t))) }
{
    let have = cells::Fill {
        cells: fill.cells,
        words: fill.words,
    };
    let ws = cells::words(store.kinds, store.ends, store.pool, have, t);
    decode::read_term(store.kinds[t], ws)
}

// The children of a term: a literal and a variable have none. The arrays are parameters of their own, so that what is read keeps the pool alone.
pub fn children<'a>(kinds: &[u32], ends: &[u32], pool: &'a [u32], fill: Fill, t: usize) -> &'a [u32]
    requires stored { Stored kinds.now ends.now pool.now fill }
    requires t_lt_cells { t < fill.cells }
    ensures { result.now ≡ children (get_term (terms_in kinds.now ends.now pool.now fill) t) }
{
    let have = cells::Fill {
        cells: fill.cells,
        words: fill.words,
    };
    let ws = cells::words(kinds, ends, pool, have, t);
    decode::read_arguments(kinds[t], ws)
}

// The number of a literal, added if there is none equal.
pub fn lit(store: &mut Store<'_>, fill: Fill, l: Literal) -> Added
    requires { IndexedIn store.old fill }
    ensures does { AddsIn store.old fill store.new result (add_node (room_in store.old) (lit (literal_of l)) (terms_of store.old fill)) }
    ensures loans { SameLoans store.old store.new }
{
    let ws = [l.kind, l.low, l.high];
    index::add(store, fill, 0, &ws)
}

// The number of an application, added if there is none equal.
pub fn app(store: &mut Store<'_>, fill: Fill, f: u32, args: &[u32]) -> Added
    requires indexed { IndexedIn store.old fill }
    requires args_len_bound { length args.now ≤ 17 }
    ensures does { AddsIn store.old fill store.new result (add_node (room_in store.old) (app f args.now) (terms_of store.old fill)) }
    ensures loans { SameLoans store.old store.new }
{
    let mut ws = [0u32; 18];
    ws[0] = f;
    cells::copy(&mut ws, 1, args);
    let e = args.len() + 1;
    index::add(store, fill, 2, &ws[..e])
}

// The number of an equal term, if there is one; the store stays as it is.
fn find(
    kinds: &[u32],
    ends: &[u32],
    pool: &[u32],
    index: &[u32],
    fill: Fill,
    kind: u32,
    ws: &[u32],
) -> Option<u32>
    requires { Indexed kinds.now ends.now pool.now index.now fill }
    ensures { result ≡ find_cell (cells_of kinds.now ends.now pool.now fill.cells) (record { kind = kind; words = ws.now }) }
{
    let have = cells::Fill {
        cells: fill.cells,
        words: fill.words,
    };
    let p = index::find(
        index,
        fill.multiplier,
        kinds,
        ends,
        pool,
        have,
        fill.cells,
        kind,
        ws,
    );
    p.found
}

// The number of a literal, if there is one equal. The arrays are parameters of their own, here and below: a view would be made anew at each turn of an evaluation.
pub fn find_lit(
    kinds: &[u32],
    ends: &[u32],
    pool: &[u32],
    index: &[u32],
    fill: Fill,
    l: Literal,
) -> Option<u32>
    requires { Indexed kinds.now ends.now pool.now index.now fill }
    ensures known { Known result (add_node (room_of kinds.now pool.now) (lit (literal_of l)) (terms_in kinds.now ends.now pool.now fill)) (terms_in kinds.now ends.now pool.now fill) }
    ensures none { result ≡ None → find_term (terms_in kinds.now ends.now pool.now fill) (lit (literal_of l)) 0 ≡ none }
{
    let ws = [l.kind, l.low, l.high];
    find(kinds, ends, pool, index, fill, 0, &ws)
}

// The number of an application, if there is one equal; ws is the name and the arguments.
pub fn find_app(
    kinds: &[u32],
    ends: &[u32],
    pool: &[u32],
    index: &[u32],
    fill: Fill,
    ws: &[u32],
) -> Option<u32>
    requires indexed { Indexed kinds.now ends.now pool.now index.now fill }
    requires ws_nonzero { 0 < length ws.now }
    ensures none { result ≡ None → find_term (terms_in kinds.now ends.now pool.now fill) (app (get_or ws.now 0 0) (drop 1 ws.now)) 0 ≡ none }
    ensures known { Known result (add_node (room_of kinds.now pool.now) (app (get_or ws.now 0 0) (drop 1 ws.now)) (terms_in kinds.now ends.now pool.now fill)) (terms_in kinds.now ends.now pool.now fill) }
{
    find(kinds, ends, pool, index, fill, 2, ws)
}

// Copies the first terms cells of the job into the lent arrays; the fill has the multiplier.
pub fn load_terms(
    jkinds: &[u32],
    jends: &[u32],
    jpool: &[u32],
    jfill: cells::Fill,
    terms: usize,
    multiplier: u32,
    store: &mut Store<'_>,
) -> Fill
    requires { LoadableIn jkinds.now jends.now jpool.now jfill terms store.old }
    ensures does { LoadedIn jkinds.now jends.now jpool.now terms multiplier store.old store.new result }
    ensures index { store.new.index.now ≡ store.old.index.now }
    ensures loans { SameLoans store.old store.new }
{
    let words = cells::start(jends, terms);
    cells::copy(store.kinds, 0, &jkinds[..terms]);
    cells::copy(store.ends, 0, &jends[..terms]);
    cells::copy(store.pool, 0, &jpool[..words]);
    Fill {
        cells: terms,
        words,
        multiplier,
    }
}
