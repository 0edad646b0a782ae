// Signed counts: the values of the primitives of kinds 4 to 8. A sum, a difference or a product beyond 64 bits has no value.
#![tactic(auto)]

ghost use Rattle.std.specs.Prelude.{◌≡◌, List, [], ◌∷◌, ℤ};
ghost use Rattle.std.proofs.Math.Option.{Option};
ghost use Rattle.model.specs.Counts.{int_of, literal_of_int, count_of, of_one, of_two, fitting, count_value};
ghost use Rattle.model.specs.Check.{◌>>?◌};
ghost use Rattle.decode.specs.View.{kind_of, literal_of};
ghost use Rattle.counts.specs.Counted.{counted, integer_in, valued, Given};

use decode::{Literal, Operation, operation_of};

const WORD: u64 = 4_294_967_296;

// The integer of two words, in two's complement.
pub fn int_of(low: u32, high: u32) -> i64
    ensures { result ≡ int_of low high }
{
    (u64::from(high) * WORD + u64::from(low)).cast_signed()
}

// The literal of an integer.
fn literal_of_int(a: i64) -> Literal
    ensures { literal_of result ≡ literal_of_int a }
{
    let bits = a.cast_unsigned();
    Literal {
        kind: 2,
        low: (bits % WORD) as u32,
        high: (bits / WORD) as u32,
    }
}

// The literal of an integer, where it fits 64 bits. The operations below are std's checked ones, so this stands beside them, for callers whose integers may be larger.
pub fn settled(a: i128) -> Option<Literal>
    ensures { counted result ≡ fitting a }
{
    match i64::try_from(a) {
        Ok(value) => Some(literal_of_int(value)),
        Err(_) => None,
    }
}

// The integer that a literal stands for: one of another kind stands for none.
pub fn integer_of(l: Literal) -> Option<i64>
    ensures { integer_in result ≡ count_of (literal_of l) }
{
    if l.kind != 2 {
        return None;
    }
    Some(int_of(l.low, l.high))
}

// What an operation makes of one integer.
fn of_one(operation: Operation, a: i64) -> Option<i64>
    ensures { valued result ≡ of_one (kind_of operation) a >>? fitting }
{
    match operation {
        Operation::Negation => a.checked_neg(),
        _ => None,
    }
}

// What an operation makes of two.
fn of_two(operation: Operation, a: i64, b: i64) -> Option<i64>
    ensures { valued result ≡ of_two (kind_of operation) a b >>? fitting }
{
    match operation {
        Operation::Sum => a.checked_add(b),
        Operation::Difference => a.checked_sub(b),
        Operation::Product => a.checked_mul(b),
        Operation::Quotient => a.checked_div(b),
        Operation::Negation => None,
    }
}

// The value for one argument.
fn one(operation: Operation, a: Option<i64>) -> Option<Literal>
    ensures { counted result ≡ count_value (kind_of operation) (integer_in a ∷ []) }
{
    let value = of_one(operation, a?)?;
    Some(literal_of_int(value))
}

// The value for two arguments.
fn two(operation: Operation, a: Option<i64>, b: Option<i64>) -> Option<Literal>
    ensures { counted result ≡ count_value (kind_of operation) (integer_in a ∷ integer_in b ∷ []) }
{
    let value = of_two(operation, a?, b?)?;
    Some(literal_of_int(value))
}

// The value of an operation for `count` arguments, of which a and b are the first two.
pub fn value_of(
    operation: Operation,
    count: usize,
    a: Option<i64>,
    b: Option<i64>,
) -> Option<Literal>
    ensures { (xs : List (Option ℤ)) → Given count (integer_in a) (integer_in b) xs → counted result ≡ count_value (kind_of operation) xs }
{
    match count {
        1 => one(operation, a),
        2 => two(operation, a, b),
        _ => None,
    }
}

// The value of a primitive of any kind for `count` arguments, of which a and b are the first two: kinds 4 to 8 compute.
pub fn count_value(kind: u32, count: usize, a: Literal, b: Literal) -> Option<Literal>
    ensures { (xs : List (Option ℤ)) → Given count (count_of (literal_of a)) (count_of (literal_of b)) xs → counted result ≡ count_value kind xs }
{
    let operation = operation_of(kind)?;
    value_of(operation, count, integer_of(a), integer_of(b))
}
