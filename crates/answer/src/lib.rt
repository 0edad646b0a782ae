// The answer: eight words, of which the first is the number.
#![tactic(auto)]

ghost use Rattle.std.specs.Prelude.{◌≡◌, ◌<◌, ◌^◌, length, get_or};
ghost use Rattle.model.specs.Answer.{refusal_words};
ghost use Rattle.outcome.specs.Does.{refusal_of};
ghost use Rattle.answer.specs.Answers.{passed_words};

use cells::copy;
use outcome::Refusal;

// Field i of a refusal, and 0 past those that are used.
fn field(r: Refusal, i: usize) -> u32
    requires { i < 6 }
    ensures { result ≡ get_or (refusal_of r).fields i 0 }
{
    if i < r.count {
        let fields = r.fields;
        return fields[i];
    }
    0
}

// Writes a refusal with the number of terms in the store, and gives its number.
pub fn write_refusal(answer: &mut [u32], r: Refusal, terms: usize) -> u32
    requires answer_len { length answer.old ≡ 8 }
    requires terms_bound { terms < 2 ^ 32 }
    ensures is { answer.new ≡ refusal_words (refusal_of r) terms }
    ensures first { result ≡ get_or answer.new 0 0 }
{
    let number = r.number;
    let a = field(r, 0);
    let b = field(r, 1);
    let c = field(r, 2);
    let d = field(r, 3);
    let e = field(r, 4);
    let f = field(r, 5);
    let words = [number, terms as u32, a, b, c, d, e, f];
    copy(answer, 0, &words);
    number
}

// Writes what a proof that passes shows, and gives 0.
pub fn write_passed(answer: &mut [u32], terms: usize, lhs: u32, rhs: u32, height: u32) -> u32
    requires answer_len { length answer.old ≡ 8 }
    requires terms_bound { terms < 2 ^ 32 }
    ensures is { answer.new ≡ passed_words terms lhs rhs height }
    ensures first { result ≡ get_or answer.new 0 0 }
{
    let words = [0, terms as u32, lhs, rhs, height, 0, 0, 0];
    copy(answer, 0, &words);
    0
}
