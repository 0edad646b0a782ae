// The program: reads a job on standard input and writes the eight words of the answer for its last proof.
#![tactic(auto)]

ghost use Rattle.std.specs.Prelude.{◌≡◌, ◌≤◌, ◌-◌, length};
ghost use Rattle.model.specs.Layout.{sizes_of};
ghost use Rattle.model.specs.Host.{words_of, program_answer};

use console::{read_full, write_words};
use host::sizercobalt_check_bytes;
use load::bytes::words_of_bytes;
use std::io;
use std::io::Write;
use std::random::RandomSource;

// The number of a job's last proof, and 0 where there is none.
fn last_proof(job: &[u8]) -> u32
    requires { length job.now ≤ 65536 }
    ensures { result ≡ (sizes_of (words_of job.now)).proofs - 1 }
{
    let mut words = [0u32; 16384];
    words_of_bytes(job, &mut words);
    let proofs = words[10];
    if proofs == 0 {
        return 0;
    }
    proofs - 1
}

// Checks the last proof of a job's bytes; where they are too many, none is looked for.
fn check_last(job: &[u8], answer: &mut [u32])
    requires { length answer.old ≡ 8 }
    ensures { answer.new ≡ program_answer job.now }
{
    if 65536 < job.len() {
        sizercobalt_check_bytes(job, 0, answer);
        return;
    }
    let asked = last_proof(job);
    sizercobalt_check_bytes(job, asked, answer);
}

// A random word, by which the host entry's index mixes; 0 where the system has none.
fn random_word(rt: &impl RandomSource) -> u32 {
    let mut bytes = [0u8; 4];
    let _ = rt.fill_bytes(&mut bytes);
    let mut words = [0u32; 1];
    words_of_bytes(&bytes, &mut words);
    words[0]
}

// Checks a job's bytes and writes the answer.
fn print_answer(rt: &impl RandomSource, output: &mut impl Write, job: &[u8]) -> io::Result<()> {
    let mut answer = [0u32; 8];
    answer[0] = random_word(rt);
    check_last(job, &mut answer);
    write_words(output, &answer)
}

// One byte more than a job may have tells that there are too many.
fn main(rt: HostRuntime) -> io::Result<()> {
    let mut bytes = [0u8; 65537];
    let count = read_full(&mut rt.stdin(), &mut bytes)?;
    print_answer(&rt, &mut rt.stdout(), &bytes[..count])
}
