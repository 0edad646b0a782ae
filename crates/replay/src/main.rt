// Replays the fixed list of the Rust's answers and stores, on standard input, in mode 0. Its format stands in compare/data/fixed_list.txt.
#![tactic(auto)]

ghost use Rattle.std.specs.Prelude.{◌≡◌, ◌+◌, ◌≤◌, ◌<◌, length};

use cells::wide;
use console::read_words;
use entry::check;
use std::io;
use std::io::{Read, Write};

// How a job of the list went.
#[derive(Clone, Copy)]
enum Replayed {
    Accepted,
    Refused,
    Different,
}

// A word of the list as a number of words.
fn size(x: u32) -> usize
    ensures { result < 4294967296 }
{
    x as usize
}

// Where an entry ends: past its start, and not past the list, even where the list is cut short.
fn entry_end(list: &[u32], at: usize) -> usize
    requires { at < length list.now }
    ensures later { at < result }
    ensures inside { result ≤ length list.now }
{
    let len = list.len();
    if len - at < 16 {
        return len;
    }
    let answer = 8 + size(list[at]);
    if len - at < answer + 8 {
        return len;
    }
    let terms = size(list[at + answer + 1]);
    let end = answer + 8 + 2 * terms + size(list[at + 7]);
    if len - at < end {
        return len;
    }
    at + end
}

// The array has the wanted words, and past them the word that was everywhere.
fn leaves(array: &[u32], wanted: &[u32], x: u32) -> bool {
    array.starts_with(wanted) && array[wanted.len()..].iter().all(|word| *word == x)
}

// The answer and every word of the store are the wanted ones.
fn agrees(
    answer: &[u32],
    kinds: &[u32],
    ends: &[u32],
    pool: &[u32],
    x: u32,
    told: &[u32],
    told_kinds: &[u32],
    told_ends: &[u32],
    told_pool: &[u32],
) -> bool {
    leaves(answer, told, 0)
        & leaves(kinds, told_kinds, x)
        & leaves(ends, told_ends, x)
        & leaves(pool, told_pool, x)
}

// Checks a job with the store lent full of a word: the answer and every word of the store are the wanted ones.
fn checks_as(
    words: &[u32],
    asked: u32,
    x: u32,
    kinds: &mut [u32],
    ends: &mut [u32],
    pool: &mut [u32],
    index: &mut [u32],
    scratch: &mut [u32],
    told: &[u32],
    told_kinds: &[u32],
    told_ends: &[u32],
    told_pool: &[u32],
) -> bool {
    let mut answer = [0u32; 8];
    let number = check(
        words,
        asked,
        0,
        kinds,
        ends,
        pool,
        index,
        scratch,
        &mut answer,
    );
    if answer[0] != number {
        return false;
    }
    agrees(
        &answer, kinds, ends, pool, x, told, told_kinds, told_ends, told_pool,
    )
}

// Checks a job with as much of the store and of scratch as its entry's head says, and all of the index.
fn checks_with(
    head: &[u32],
    words: &[u32],
    kinds: &mut [u32],
    ends: &mut [u32],
    pool: &mut [u32],
    index: &mut [u32],
    scratch: &mut [u32],
    told: &[u32],
    told_kinds: &[u32],
    told_ends: &[u32],
    told_pool: &[u32],
) -> bool {
    if head.len() < 8 {
        return false;
    }
    let k = wide(head[2]);
    let e = wide(head[3]);
    let p = wide(head[4]);
    let s = wide(head[5]);
    if kinds.len() < k {
        return false;
    }
    if ends.len() < e {
        return false;
    }
    if pool.len() < p {
        return false;
    }
    if scratch.len() < s {
        return false;
    }
    checks_as(
        words,
        head[1],
        head[6],
        &mut kinds[..k],
        &mut ends[..e],
        &mut pool[..p],
        index,
        &mut scratch[..s],
        told,
        told_kinds,
        told_ends,
        told_pool,
    )
}

// Checks the job of one entry and compares with what the entry tells.
fn replay_entry(entry: &[u32]) -> Replayed {
    let len = entry.len();
    if len < 16 {
        return Replayed::Different;
    }
    let answer = 8 + size(entry[0]);
    let kinds = answer + 8;
    if len < kinds {
        return Replayed::Different;
    }
    let number = entry[answer];
    let terms = size(entry[answer + 1]);
    let ends = kinds + terms;
    let pool = ends + terms;
    if len < pool {
        return Replayed::Different;
    }
    let mut lent_kinds = [entry[6]; 1024];
    let mut lent_ends = [entry[6]; 1024];
    let mut lent_pool = [entry[6]; 8192];
    let mut index = [entry[6]; 2048];
    let mut scratch = [entry[6]; 4096];
    if !checks_with(
        &entry[..8],
        &entry[8..answer],
        &mut lent_kinds,
        &mut lent_ends,
        &mut lent_pool,
        &mut index,
        &mut scratch,
        &entry[answer..kinds],
        &entry[kinds..ends],
        &entry[ends..pool],
        &entry[pool..],
    ) {
        return Replayed::Different;
    }
    if 0 < number {
        return Replayed::Refused;
    }
    Replayed::Accepted
}

// Writes how many jobs went one way.
fn report(output: &mut impl Write, way: &str, n: u64) -> io::Result<()> {
    writeln!(output, "{n} {way}")
}

// Replays the list's jobs, behind its seven words of head, and writes how they went.
fn replay(output: &mut impl Write, list: &[u32]) -> io::Result<()> {
    let mut accepted = 0;
    let mut refused = 0;
    let mut different = 0;
    let mut at = 7;
    // a `for` is no plainer: each entry says where the next one begins
    while at < list.len() {
        let end = entry_end(list, at);
        let r = replay_entry(&list[at..end]);
        at = end;
        match r {
            Replayed::Accepted => accepted += 1,
            Replayed::Refused => refused += 1,
            Replayed::Different => different += 1,
        }
    }
    report(output, "accepted", accepted)?;
    report(output, "refused", refused)?;
    report(output, "different", different)
}

// Room for the list's words.
fn list_words() -> [u32; 250000]
    ensures { 250000 ≡ length result }
{
    [0; 250000]
}

// Reads the list and replays it.
fn replay_list(
    input: &mut impl Read,
    output: &mut impl Write,
    words: &mut [u32],
) -> io::Result<()> {
    let count = read_words(input, words)?;
    replay(output, &words[..count])
}

fn main(rt: HostRuntime) -> io::Result<()> {
    let mut words = list_words();
    replay_list(&mut rt.stdin(), &mut rt.stdout(), &mut words)
}
