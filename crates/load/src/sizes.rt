// The twelve sizes of a job, and what they alone refuse: 1 and 2.
ghost use Rattle.std.specs.Prelude.{◌≡◌, true, ◌+◌, ◌≤◌, length};
ghost use Rattle.model.specs.Layout.{cell_count, sizes_of};
ghost use Rattle.model.specs.Load.{wrong_length, too_large};
ghost use Rattle.load.specs.Held.{sizes_in, Words, counts_of};

use cells::wide;

#[derive(Clone, Copy)]
pub struct Sizes {
    pub terms: usize,
    pub expressions: usize,
    pub facts: usize,
    pub actions: usize,
    pub globals: usize,
    pub functions: usize,
    pub primitives: usize,
    pub rows: usize,
    pub normalisers: usize,
    pub rules: usize,
    pub proofs: usize,
    pub pool: usize,
}

// The sizes at the head of a job.
pub fn read_sizes(job: &[u32]) -> Sizes
    requires { 12 ≤ length job.now }
    ensures is { sizes_in result ≡ sizes_of job.now }
    ensures small { Words result }
{
    Sizes {
        terms: wide(job[0]),
        expressions: wide(job[1]),
        facts: wide(job[2]),
        actions: wide(job[3]),
        globals: wide(job[4]),
        functions: wide(job[5]),
        primitives: wide(job[6]),
        rows: wide(job[7]),
        normalisers: wide(job[8]),
        rules: wide(job[9]),
        proofs: wide(job[10]),
        pool: wide(job[11]),
    }
}

// The number of cells.
pub fn cell_count(z: Sizes) -> usize
    requires { Words z }
    ensures { result ≡ cell_count (sizes_in z) }
{
    z.terms
        + z.expressions
        + z.facts
        + z.actions
        + z.functions
        + z.primitives
        + z.rows
        + z.normalisers
        + z.rules
        + z.proofs
}

// 1: under twelve words, or a length that differs from the sizes.
pub fn wrong_length(job: &[u32]) -> bool
    ensures { result ≡ wrong_length job.now }
{
    let len = job.len();
    if len < 12 {
        return true;
    }
    let z = read_sizes(job);
    let cells = cell_count(z);
    len != 12 + 2 * cells + z.pool
}

// 2: a size too large.
pub fn too_large(z: Sizes) -> bool
    ensures { result ≡ too_large (sizes_in z) }
{
    (16384 < z.terms)
        | (4096 < z.expressions)
        | (4096 < z.facts)
        | (4096 < z.actions)
        | (256 < z.globals)
        | (z.actions < z.globals)
        | (4096 < z.functions)
        | (4096 < z.primitives)
        | (4096 < z.rows)
        | (4096 < z.normalisers)
        | (4096 < z.rules)
        | (4096 < z.proofs)
        | (131072 < z.pool)
}

// The number of cells of each table.
pub fn counts(z: Sizes) -> [usize; 10]
    ensures { result ≡ counts_of (sizes_in z) }
{
    [
        z.terms,
        z.expressions,
        z.facts,
        z.actions,
        z.functions,
        z.primitives,
        z.rows,
        z.normalisers,
        z.rules,
        z.proofs,
    ]
}
