// Words from a reader and to a writer, for the programs: standard input and standard output.
#![tactic(auto)]

ghost use Rattle.std.specs.Prelude.{◌≡◌, ◌∷◌, ◌+◌, ◌≤◌, ◌<◌, length, take, drop, IfOk, OnOk, OnErr};
ghost use Rattle.std.specs.Fmt.{decimal};
ghost use Rattle.std.specs.Io.KnownBytes.{Consumes, IsAtEnd, Appends};
ghost use Rattle.console.specs.Words.{LosesFront, GivesWords, HoldsSome, line_of};

use load::bytes::words_of_bytes;
use std::io;
use std::io::{Read, Write};

// Reads until the bytes lent are full or the input ends; how many they are. Only a read that fails is an error, and leaves what was
// read before at the front.
pub fn read_full<R: Read>(input: &mut R, bytes: &mut [u8]) -> io::Result<usize>
    ensures count { IfOk result (λ n. n ≤ length bytes.new) }
    ensures bytes { IfOk result (λ n. Consumes (R.remaining input.old) (R.remaining input.new) (take n bytes.new)) }
    ensures end { IfOk result (λ n. n < length bytes.new → IsAtEnd (R.remaining input.new)) }
    ensures err { OnErr result (LosesFront (R.remaining input.old) (R.remaining input.new) bytes.new) }
{
    let mut done = 0;
    // a `for` is no plainer: each turn goes on by as much as was read
    while done < bytes.len() {
        let n = input.read(&mut bytes[done..])?;
        if n == 0 {
            return Ok(done);
        }
        done += n;
    }
    Ok(done)
}

// Reads the next words, over the front of those lent; how many they are.
fn read_some<R: Read>(input: &mut R, words: &mut [u32]) -> io::Result<usize>
    requires { 16384 ≤ length words.old }
    ensures count { IfOk result (λ n. n ≤ length words.new) }
    ensures words { IfOk result (λ n. GivesWords (R.remaining input.old) (R.remaining input.new) (take n words.new)) }
    ensures end { IfOk result (λ n. n ≡ 0 → IsAtEnd (R.remaining input.new)) }
    ensures rest { IfOk result (λ n. drop n words.new ≡ drop n words.old) }
    ensures err { OnErr result (words.new ≡ words.old) }
{
    let mut bytes = [0u8; 65536];
    let n = read_full(input, &mut bytes)?;
    Ok(words_of_bytes(&bytes[..n], words))
}

// Reads the words of the input, as far as there is room for them; how many they are. Only a read that fails is an error, and leaves
// the words that were read before at the front.
pub fn read_words<R: Read>(input: &mut R, words: &mut [u32]) -> io::Result<usize>
    ensures count { IfOk result (λ n. n ≤ length words.new) }
    ensures words { IfOk result (λ n. GivesWords (R.remaining input.old) (R.remaining input.new) (take n words.new)) }
    ensures end { IfOk result (λ n. n + 16384 ≤ length words.new → IsAtEnd (R.remaining input.new)) }
    ensures rest { IfOk result (λ n. drop n words.new ≡ drop n words.old) }
    ensures err { OnErr result (HoldsSome (R.remaining input.old) words.old words.new) }
{
    let mut at = 0;
    // a `for` is no plainer: each turn goes on by as much as was read
    while 16384 <= words.len() - at {
        let got = read_some(input, &mut words[at..])?;
        if got == 0 {
            return Ok(at);
        }
        at += got;
    }
    Ok(at)
}

// Writes a word, in decimal, behind a space where it is not the first.
fn write_word<W: Write>(output: &mut W, i: usize, x: u32) -> io::Result<()>
    ensures first { i ≡ 0 → OnOk result (Appends (W.contents output.old) (W.contents output.new) (decimal x)) }
    ensures later { 0 < i → OnOk result (Appends (W.contents output.old) (W.contents output.new) (32 ∷ decimal x)) }
{
    if 0 < i {
        return write!(output, " {x}");
    }
    write!(output, "{x}")
}

// Writes the words on a line, in decimal, a space between two. Only a write that fails is an error.
pub fn write_words<W: Write>(output: &mut W, words: &[u32]) -> io::Result<()>
    ensures { OnOk result (Appends (W.contents output.old) (W.contents output.new) (line_of words.now)) }
{
    for (i, word) in words.iter().enumerate() {
        write_word(output, i, *word)?;
    }
    output.write_all(b"\n")
}
