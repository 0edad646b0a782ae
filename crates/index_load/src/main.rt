// Lists the integers 0 to 4,999 and the application of name 4 to each in an index of 32,768 slots, and writes how many cells were listed and how many
// comparisons that took.
#![tactic(auto)]

ghost use Rattle.std.specs.Prelude.{◌≡◌, length};
ghost use Rattle.cells.specs.Table.{Formed};

use cells::{Fill, append};
use index::{Tally, fill_once, multiplier};
use std::io;

fn kinds_and_ends() -> [u32; 10000]
    ensures { 10000 ≡ length result }
{
    [0; 10000]
}

fn slots() -> [u32; 32768]
    ensures { 32768 ≡ length result }
{
    [0; 32768]
}

fn pool_words() -> [u32; 25000]
    ensures { 25000 ≡ length result }
{
    [0; 25000]
}

// Appends the integers 0 to 4,999.
fn put_integers(kinds: &mut [u32], ends: &mut [u32], pool: &mut [u32], fill: Fill) -> Fill
    requires { Formed kinds.old ends.old pool.old fill }
    ensures { Formed kinds.new ends.new pool.new result }
{
    let mut f = fill;
    for i in 0..5000 {
        let ws = [2, i, 0];
        let a = append(kinds, ends, pool, f, 0, &ws);
        f = a.fill;
    }
    f
}

// Appends the application of name 4 to each of the terms 0 to 4,999.
fn put_applications(kinds: &mut [u32], ends: &mut [u32], pool: &mut [u32], fill: Fill) -> Fill
    requires { Formed kinds.old ends.old pool.old fill }
    ensures { Formed kinds.new ends.new pool.new result }
{
    let mut f = fill;
    for i in 0..5000 {
        let ws = [4, i];
        let a = append(kinds, ends, pool, f, 2, &ws);
        f = a.fill;
    }
    f
}

fn report(rt: &impl Print, t: Tally) -> io::Result<()> {
    let listed = t.listed;
    let compared = t.compared;
    println!(rt; "{listed} cells listed, {compared} comparisons")
}

fn main(rt: HostRuntime) -> io::Result<()> {
    let mut kinds = kinds_and_ends();
    let mut ends = kinds_and_ends();
    let mut pool = pool_words();
    let mut index = slots();
    let f = put_integers(
        &mut kinds,
        &mut ends,
        &mut pool,
        Fill { cells: 0, words: 0 },
    );
    let g = put_applications(&mut kinds, &mut ends, &mut pool, f);
    let x = multiplier(&index);
    let t = fill_once(&mut index, x, &kinds, &ends, &pool, g, g.cells);
    report(&rt, t)
}
