// Look-ups of a name in pairs, and of a primitive by its number.
#![tactic(auto)]

pub mod job;
pub mod read;

ghost use Rattle.std.specs.Prelude.{◌≡◌, ◌<◌};
ghost use Rattle.model.specs.Layout.{sizes_of};
ghost use Rattle.model.specs.Decode.{read_bindings};
ghost use Rattle.model.specs.Evaluate.{lookup, primitive_at};
ghost use Rattle.decode.specs.View.{primitive_of};
ghost use Rattle.program.specs.Ready.{Ready, program_for, option_of};

use crate::job::{Table, kind_at, words_at};
use decode::{Primitive, read_primitive};

// The term bound to a name in pairs of name and term: the first pair counts.
pub fn lookup_pairs(ws: &[u32], name: u32) -> Option<u32>
    ensures { option_of result ≡ lookup (read_bindings ws.now) name }
{
    for pair in ws.chunks_exact(2) {
        if pair[0] == name {
            return Some(pair[1]);
        }
    }
    None
}

// The primitive of a number.
pub fn primitive_at(job: &[u32], p: usize) -> Primitive
    requires ready { Ready job.now }
    requires p_bound { p < (sizes_of job.now).primitives }
    ensures { primitive_of result ≡ primitive_at (program_for job.now).primitives p }
{
    read_primitive(
        kind_at(job, Table::Primitives, p),
        words_at(job, Table::Primitives, p),
    )
}
