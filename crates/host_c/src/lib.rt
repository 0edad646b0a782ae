// The static library: the entries of host, exported for C and Rust.
#![tactic(auto)]

ghost use Rattle.std.specs.Prelude.{◌≡◌, length};
ghost use Rattle.model.specs.Answer.{entry};
ghost use Rattle.model.specs.Host.{host_entry, host_entry_mode};

// THE HOST ENTRY WITH A MODE: the check of a job's bytes for an asked proof, with a store of its own. What a returned 0 means is in host/proofs/Sound.
#[unsafe(no_mangle)]
pub extern "C" fn sizercobalt_check_bytes_mode(
    job: &[u8],
    asked: u32,
    mode: u32,
    answer: &mut [u32],
) -> u32
    ensures { record { number = result; answer = answer.new } ≡ host_entry_mode job.now asked mode answer.old }
{
    host::sizercobalt_check_bytes_mode(job, asked, mode, answer)
}

// THE HOST ENTRY, at mode 0.
#[unsafe(no_mangle)]
pub extern "C" fn sizercobalt_check_bytes(job: &[u8], asked: u32, answer: &mut [u32]) -> u32
    ensures { record { number = result; answer = answer.new } ≡ host_entry job.now asked answer.old }
{
    host::sizercobalt_check_bytes(job, asked, answer)
}

// `entry::check`, for hosts that lend their own store. What a returned 0 means is in entry/proofs/Sound. The arrays are parameters of their own: the C interface.
#[unsafe(no_mangle)]
pub extern "C" fn sizercobalt_check(
    job: &[u32],
    asked: u32,
    mode: u32,
    kinds: &mut [u32],
    ends: &mut [u32],
    pool: &mut [u32],
    index: &mut [u32],
    scratch: &mut [u32],
    answer: &mut [u32],
) -> u32
    ensures { record { number = result; answer = answer.new; arrays = record { kinds = kinds.new; ends = ends.new; pool = pool.new } } ≡ entry job.now asked mode (record { kinds = kinds.old; ends = ends.old; pool = pool.old }) (length index.old) (length scratch.old) answer.old }
{
    host::sizercobalt_check(job, asked, mode, kinds, ends, pool, index, scratch, answer)
}
