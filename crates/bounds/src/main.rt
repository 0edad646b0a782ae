// Loads jobs at the limits of document 01 and writes each answer: too few words; every size at its limit and one past it; and
// the largest terms and pool, all cells as they should be, with the terms as alike as distinct terms can be.
#![tactic(auto)]

ghost use Rattle.std.specs.Prelude.{◌≡◌, ◌+◌, ◌*◌, ◌≤◌, ◌<◌, length};

use cells::{copy, wide};
use load::{Rejection, load};
use std::io;

// The most cells and words that a job can have: 53,248 and 131,072, behind twelve sizes.
fn job_words() -> [u32; 240000]
    ensures { 240000 ≡ length result }
{
    [0; 240000]
}

// Writes a text, a number and the answer of loading, to the end of a line.
fn report(rt: &impl Print, name: &str, n: u64, r: Result<(), Rejection>) -> io::Result<()> {
    print!(rt; "{name}{n}: ")?;
    match r {
        Ok(()) => println!(rt; "admitted"),
        Err(Rejection::Host(number)) => println!(rt; "{number}"),
        Err(Rejection::Writer(number, cell)) => println!(rt; "{number} at cell {cell}"),
    }
}

// Loads the first words of a job for proof 0 in mode 0, with 65,536 cells, 1,048,576 words, two slots a cell and enough scratch.
fn answer(job: &[u32], count: usize) -> Result<(), Rejection> {
    if job.len() < count {
        return Err(Rejection::Host(0));
    }
    let mut index = [0u32; 131072];
    load(
        &job[0..count],
        0,
        0,
        65536,
        65536,
        1048576,
        &mut index,
        2654435761,
        139264,
    )
}

// Writes a word, where there is one.
fn set(job: &mut [u32], i: usize, word: u32) {
    if i < job.len() {
        job[i] = word;
    }
}

// Twelve sizes: all 0 but one proof, and the size at a place; every global action has its cell.
fn sizes_with(place: usize, size: u32) -> [u32; 12] {
    let mut sizes = [0u32; 12];
    sizes[10] = 1;
    if place == 4 {
        sizes[3] = 4096;
    }
    if place < 12 {
        sizes[place] = size;
    }
    sizes
}

// Writes them over a job.
fn set_sizes(job: &mut [u32], place: usize, size: u32) {
    if job.len() < 12 {
        return;
    }
    let sizes = sizes_with(place, size);
    copy(job, 0, &sizes);
}

// How many words the sizes ask for.
fn words_asked(job: &[u32]) -> usize {
    if job.len() < 12 {
        return 0;
    }
    let z = load::sizes::read_sizes(job);
    12 + 2 * load::sizes::cell_count(z) + z.pool
}

// A size at a place.
fn load_sized(rt: &impl Print, job: &mut [u32], place: usize, size: u32) -> io::Result<()> {
    set_sizes(job, place, size);
    let count = words_asked(job);
    print!(rt; "size {place}")?;
    report(rt, " = ", size as u64, answer(job, count))
}

// Each size at its limit and one past it.
fn load_limits(rt: &impl Print, job: &mut [u32]) -> io::Result<()> {
    let limits: [u32; 12] = [
        16384, 4096, 4096, 4096, 256, 4096, 4096, 4096, 4096, 4096, 4096, 131072,
    ];
    for (place, limit) in limits.iter().enumerate() {
        load_sized(rt, job, place, *limit)?;
        load_sized(rt, job, place, more(*limit))?;
    }
    Ok(())
}

// The words of a term of the largest job: the first has its name alone, the second thirteen words, any other eight.
fn term_end(i: u32) -> u32
    requires { i < 16384 }
    ensures { result ≤ 131070 }
{
    if i == 0 {
        return 1;
    }
    14 + 8 * (i - 1)
}

// The number behind i.
fn more(i: u32) -> u32 {
    if i == 4294967295 {
        return i;
    }
    i + 1
}

// The number before i.
fn before(i: u32) -> u32 {
    if i == 0 {
        return 0;
    }
    i - 1
}

// The largest job: 16,384 terms, one proof by fiat, 131,072 words of pool. A term applies one name to 0 and, at its end, to the
// term before it.
fn set_largest(job: &mut [u32]) {
    set_sizes(job, 0, 16384);
    set(job, 11, 131072);
    set(job, 32781, 131072);
    for i in 0..16384 {
        let end = term_end(i);
        set(job, 12 + wide(i), 2);
        set(job, 16397 + wide(i), end);
        set(job, 32781 + wide(end), before(i));
    }
}

fn run(rt: &impl Print, job: &mut [u32]) -> io::Result<()> {
    report(rt, "words ", 0, answer(job, 0))?;
    report(rt, "words ", 11, answer(job, 11))?;
    report(rt, "words, all zero, ", 12, answer(job, 12))?;
    load_limits(rt, job)?;
    set_sizes(job, 0, 2147483648);
    set(job, 1, 2147483648);
    report(
        rt,
        "sizes whose sum is past 32 bits, words ",
        14,
        answer(job, 14),
    )?;
    set_largest(job);
    report(rt, "largest, words ", 163854, answer(job, 163854))
}

fn main(rt: HostRuntime) -> io::Result<()> {
    let mut words = job_words();
    run(&rt, &mut words)
}
