// The line protocol of the kept answers (harness/README.md): words of a request are read, and an answer is written.
#![tactic(auto)]

pub mod input;
pub mod pattern;
pub mod print;
pub mod replay;
pub mod words;
