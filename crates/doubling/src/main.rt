// Checks the jobs on standard input, each behind its length and its asked proof, and writes the eight words of each answer on a line. The jobs
// are compare/tools/src/doubling.rs's: by paths they are 2^60 large, and each is answered at once.
#![tactic(auto)]

ghost use Rattle.std.specs.Prelude.{◌≤◌, ◌<◌, length};

use cells::wide;
use console::{read_words, write_words};
use entry::check;
use std::io;
use std::io::{Read, Write};

// Checks a job with a store, index and scratch of its own, and writes the answer.
fn check_job(output: &mut impl Write, words: &[u32], asked: u32) -> io::Result<()> {
    let mut kinds = [0u32; 256];
    let mut ends = [0u32; 256];
    let mut pool = [0u32; 2048];
    let mut index = [0u32; 512];
    let mut scratch = [0u32; 1024];
    let mut answer = [0u32; 8];
    check(
        words,
        asked,
        0,
        &mut kinds,
        &mut ends,
        &mut pool,
        &mut index,
        &mut scratch,
        &mut answer,
    );
    write_words(output, &answer)
}

// Where the job at a place ends: past the place, and not past the list, even where the list is cut short.
fn job_end(list: &[u32], at: usize) -> usize
    requires { at < length list.now }
    ensures later { at < result }
    ensures inside { result ≤ length list.now }
{
    let len = list.len();
    let size = wide(list[at]);
    if len - at < 2 {
        return len;
    }
    if len - at - 2 < size {
        return len;
    }
    at + 2 + size
}

// Checks the job of one entry: its length, its asked proof, its words.
fn check_entry(output: &mut impl Write, entry: &[u32]) -> io::Result<()> {
    if entry.len() < 2 {
        return Ok(());
    }
    check_job(output, &entry[2..], entry[1])
}

// Checks the list's jobs in turn.
fn check_list(output: &mut impl Write, list: &[u32]) -> io::Result<()> {
    let mut at = 0;
    // a `for` is no plainer: each job says where the next one begins
    while at < list.len() {
        let end = job_end(list, at);
        check_entry(output, &list[at..end])?;
        at = end;
    }
    Ok(())
}

// Reads the list and checks its jobs.
fn check_input(
    input: &mut impl Read,
    output: &mut impl Write,
    words: &mut [u32],
) -> io::Result<()> {
    let count = read_words(input, words)?;
    check_list(output, &words[..count])
}

fn main(rt: HostRuntime) -> io::Result<()> {
    let mut words = [0u32; 32768];
    check_input(&mut rt.stdin(), &mut rt.stdout(), &mut words)
}
