#![tactic(auto)]

ghost use Rattle.std.specs.Prelude.{◌≡◌};
ghost use Rattle.model.specs.Layout.{size_words};

// The definitions of document 01 stand in specs/, the theorems about them in proofs/. This crate has no other code.

// The number of sizes at the head of a job.
pub fn size_words() -> usize
    ensures { result ≡ size_words }
{
    12
}
