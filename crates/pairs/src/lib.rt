// The pairs of an evaluation as marks: the value of each expression that was evaluated is marked.
#![tactic(auto)]

ghost use Rattle.std.specs.Prelude.{◌≡◌, ◌+◌, ◌<◌, length};
ghost use Rattle.pairs.specs.Marking.{mark_value, mark_values};

// Marks the value of expression k, if it is noted.
fn mark_value(memo: &[u32], k: usize, marks: &mut [u32])
    requires { k + k + 2 < length memo.now }
    ensures { marks.new ≡ mark_value memo.now k marks.old }
{
    if !memo::is_noted(memo, k) {
        return;
    }
    let t = memo::value_of(memo, k);
    marks::mark(marks, t);
}

// Marks the value of each of the first n expressions that is noted.
pub fn mark_values(memo: &[u32], n: usize, marks: &mut [u32])
    requires { n + n < length memo.now }
    ensures { marks.new ≡ mark_values memo.now n marks.old }
{
    for k in 0..n {
        mark_value(memo, k, marks);
    }
}
