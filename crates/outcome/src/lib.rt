// What a check gives: a value or a refusal, and the fill of the store after it.
#![tactic(auto)]

ghost use Rattle.std.specs.Prelude.{◌≡◌, [], ◌∷◌, ◌≤◌, ◌<◌, ◌^◌, length};
ghost use Rattle.index.specs.Loans.{SameLoans};
ghost use Rattle.model.specs.Term.{lit, app};
ghost use Rattle.model.specs.Check.{add_node};
ghost use Rattle.decode.specs.View.{literal_of};
ghost use Rattle.termdag.specs.Store.{terms_of, IndexedIn, room_in};
ghost use Rattle.outcome.specs.Does.{passed, refusal, checked_of, DoesIn};

use decode::Literal;
use index::{Added, Fill, Store};

// A refusal: its number, and its fields, of which the first `count` are used. The number 0 is none.
#[derive(Clone, Copy)]
pub struct Refusal {
    pub number: u32,
    pub count: usize,
    pub fields: [u32; 6],
}

impl Refusal {
    // No refusal.
    pub const NONE: Refusal = Refusal {
        number: 0,
        count: 0,
        fields: [0; 6],
    };
}

// What a check gives: a value, unless there is a refusal, and the fill of the store.
#[derive(Clone, Copy)]
pub struct Checked {
    pub refusal: Refusal,
    pub value: u32,
    pub fill: Fill,
}

// A value.
pub fn pass(value: u32, fill: Fill) -> Checked
    ensures { result ≡ record { refusal = passed; value = value; fill = fill } }
{
    Checked {
        refusal: Refusal::NONE,
        value,
        fill,
    }
}

// A refusal with one field.
pub fn refuse1(number: u32, a: u32, fill: Fill) -> Checked
    ensures { result ≡ record { refusal = refusal number 1 (a ∷ 0 ∷ 0 ∷ 0 ∷ 0 ∷ 0 ∷ []); value = 0; fill = fill } }
{
    Checked {
        refusal: Refusal {
            number,
            count: 1,
            fields: [a, 0, 0, 0, 0, 0],
        },
        value: 0,
        fill,
    }
}

// A refusal with two fields.
pub fn refuse2(number: u32, a: u32, b: u32, fill: Fill) -> Checked
    ensures { result ≡ record { refusal = refusal number 2 (a ∷ b ∷ 0 ∷ 0 ∷ 0 ∷ 0 ∷ []); value = 0; fill = fill } }
{
    Checked {
        refusal: Refusal {
            number,
            count: 2,
            fields: [a, b, 0, 0, 0, 0],
        },
        value: 0,
        fill,
    }
}

// What adding a term gives: 53 where the store is full.
fn added(a: Added) -> Checked
    requires { a.fill.words < 2 ^ 32 }
    ensures { result ≡ checked_of a }
{
    match a.number {
        Some(number) => pass(number, a.fill),
        None => refuse1(53, a.fill.words as u32, a.fill),
    }
}

// `lit`: the number of a literal, added if there is none equal.
pub fn add_lit(store: &mut Store<'_>, fill: Fill, l: Literal) -> Checked
    requires { IndexedIn store.old fill }
    ensures does { DoesIn store.old fill store.new result.fill result.refusal result.value (add_node (room_in store.old) (lit (literal_of l)) (terms_of store.old fill)) }
    ensures loans { SameLoans store.old store.new }
{
    let a = termdag::lit(store, fill, l);
    added(a)
}

// `app`: the number of an application, added if there is none equal.
pub fn add_app(store: &mut Store<'_>, fill: Fill, f: u32, args: &[u32]) -> Checked
    requires indexed { IndexedIn store.old fill }
    requires args_len_bound { length args.now ≤ 17 }
    ensures does { DoesIn store.old fill store.new result.fill result.refusal result.value (add_node (room_in store.old) (app f args.now) (terms_of store.old fill)) }
    ensures loans { SameLoans store.old store.new }
{
    let a = termdag::app(store, fill, f, args);
    added(a)
}
