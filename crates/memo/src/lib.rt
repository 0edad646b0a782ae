// The memo of an evaluation: the value of each expression that was evaluated in this round. Word 0 is the round; two words for each expression are the round
// in which it was evaluated last, and its value; while it is evaluated, the value is the expression that waits for it.
#![tactic(auto)]

ghost use Rattle.std.specs.Prelude.{◌≡◌, ◌+◌, ◌<◌, length, set, replicate};
ghost use Rattle.memo.specs.Memo.{value_at, is_noted, put_value, note_at, Past, Started};

// Expression e was evaluated in this round.
pub fn is_noted(memo: &[u32], e: usize) -> bool
    requires { e + e + 2 < length memo.now }
    ensures { result ≡ is_noted memo.now e }
{
    memo[e + e + 1] == memo[0]
}

// The value of expression e in the round when it was evaluated last.
pub fn value_of(memo: &[u32], e: usize) -> u32
    requires { e + e + 2 < length memo.now }
    ensures { result ≡ value_at memo.now e }
{
    memo[e + e + 2]
}

// Notes the value t of expression e.
pub fn note(memo: &mut [u32], e: usize, t: u32)
    requires { e + e + 2 < length memo.old }
    ensures { memo.new ≡ note_at memo.old e t }
{
    memo[e + e + 1] = memo[0];
    memo[e + e + 2] = t;
}

// Sets the value of expression e, whether it is noted or not.
pub fn put_value(memo: &mut [u32], e: usize, t: u32)
    requires { e + e + 2 < length memo.old }
    ensures { memo.new ≡ put_value memo.old e t }
{
    memo[e + e + 2] = t;
}

// Every word is 0.
fn clear(memo: &mut [u32])
    ensures { memo.new ≡ replicate (length memo.old) 0 }
{
    memo.fill(0)
}

// Sets the round.
fn set_round(memo: &mut [u32], round: u32)
    requires { 0 < length memo.old }
    ensures { memo.new ≡ set memo.old 0 round }
{
    memo[0] = round;
}

// The first round, of a memo that is cleared.
fn restart(memo: &mut [u32])
    requires { 0 < length memo.old }
    ensures { memo.new ≡ set (replicate (length memo.old) 0) 0 1 }
{
    clear(memo);
    set_round(memo, 1)
}

// A new round: nothing is noted. After the highest round the memo is cleared.
pub fn new_round(memo: &mut [u32])
    requires memo_nonzero { 0 < length memo.old }
    requires past { Past memo.old }
    ensures { Started memo.new }
{
    let round = memo[0];
    if round < 4294967295 {
        set_round(memo, round + 1)
    } else {
        restart(memo)
    }
}
