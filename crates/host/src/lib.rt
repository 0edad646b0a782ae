// The entries for C and Rust: a job as bytes with a store of the host's own, and a job as words with a lent store.
#![tactic(auto)]

ghost use Rattle.std.specs.Prelude.{◌≡◌, [], ◌≤◌, length, get_or};
ghost use Rattle.model.specs.Answer.{entry, refusal_words};
ghost use Rattle.model.specs.Answer as Answer;
ghost use Rattle.model.specs.Host.{words_of, own_arrays, own_slots, own_scratch, host_entry, host_entry_mode};

use answer::write_refusal;
use entry::check;
use load::bytes::words_of_bytes;
use outcome::Refusal;

// Writes the refusal of bytes that are too many or no whole words, and gives its number.
fn refuse_bytes(answer: &mut [u32]) -> u32
    requires { length answer.old ≡ 8 }
    ensures is { answer.new ≡ refusal_words (record { number = 1; fields = [] }) 0 }
    ensures number { result ≡ get_or answer.new 0 0 }
{
    let refusal = Refusal {
        number: 1,
        count: 0,
        fields: [0; 6],
    };
    write_refusal(answer, refusal, 0)
}

// Checks a job's words with the host's own store, index and scratch. The index's multiplier comes from the answer's first word as it was lent.
fn check_words(words: &[u32], asked: u32, mode: u32, answer: &mut [u32]) -> u32
    requires { length answer.old ≡ 8 }
    ensures is { answer.new ≡ (Answer.check words.now asked mode own_arrays own_slots own_scratch).answer }
    ensures number { result ≡ get_or answer.new 0 0 }
{
    let mut kinds = [0u32; 4096];
    let mut ends = [0u32; 4096];
    let mut pool = [0u32; 16384];
    let mut index = [0u32; 8192];
    index[0] = answer[0];
    let mut scratch = [0u32; 16384];
    check(
        words,
        asked,
        mode,
        &mut kinds,
        &mut ends,
        &mut pool,
        &mut index,
        &mut scratch,
        answer,
    )
}

// Checks the words of a job's bytes.
fn check_whole(job: &[u8], asked: u32, mode: u32, answer: &mut [u32]) -> u32
    requires job_len_bound { length job.now ≤ 65536 }
    requires answer_len { length answer.old ≡ 8 }
    ensures is { answer.new ≡ (Answer.check (words_of job.now) asked mode own_arrays own_slots own_scratch).answer }
    ensures number { result ≡ get_or answer.new 0 0 }
{
    let mut words = [0u32; 16384];
    let count = words_of_bytes(job, &mut words);
    check_words(&words[..count], asked, mode, answer)
}

// THE HOST ENTRY WITH A MODE: the check of a job's bytes for an asked proof, with a store of its own. What a returned 0 means is in proofs/Sound.
pub fn sizercobalt_check_bytes_mode(job: &[u8], asked: u32, mode: u32, answer: &mut [u32]) -> u32
    ensures { record { number = result; answer = answer.new } ≡ host_entry_mode job.now asked mode answer.old }
{
    if answer.len() != 8 {
        return 10;
    }
    if 65536 < job.len() {
        return refuse_bytes(answer);
    }
    if job.len() % 4 != 0 {
        return refuse_bytes(answer);
    }
    check_whole(job, asked, mode, answer)
}

// THE HOST ENTRY, at mode 0.
pub fn sizercobalt_check_bytes(job: &[u8], asked: u32, answer: &mut [u32]) -> u32
    ensures { record { number = result; answer = answer.new } ≡ host_entry job.now asked answer.old }
{
    sizercobalt_check_bytes_mode(job, asked, 0, answer)
}

// `entry::check`, for hosts that lend their own store. What a returned 0 means is in entry/proofs/Sound. The arrays are parameters of their own: the C interface.
pub fn sizercobalt_check(
    job: &[u32],
    asked: u32,
    mode: u32,
    kinds: &mut [u32],
    ends: &mut [u32],
    pool: &mut [u32],
    index: &mut [u32],
    scratch: &mut [u32],
    answer: &mut [u32],
) -> u32
    ensures { record { number = result; answer = answer.new; arrays = record { kinds = kinds.new; ends = ends.new; pool = pool.new } } ≡ entry job.now asked mode (record { kinds = kinds.old; ends = ends.old; pool = pool.old }) (length index.old) (length scratch.old) answer.old }
{
    check(job, asked, mode, kinds, ends, pool, index, scratch, answer)
}
