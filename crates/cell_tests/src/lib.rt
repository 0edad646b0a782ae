// The tests of one cell by its kind and words: its shape, its references, and what may stand once only. Each is that of the definitions' Load.
#![tactic(auto)]

pub mod fit;
pub mod once;
pub mod refer;
pub mod words;
