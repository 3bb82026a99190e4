// The byte feed of markdown 1.0.0's tokenizer: kinds of bytes, points, events, units, whitespace runs and lines by value, a feed that is lent, texts by a table of kinds, slots of events, and refusals.
#![tactic(auto)]

pub mod event;
pub mod feed;
pub mod kinds;
pub mod lines;
pub mod moves;
pub mod partial_space_or_tab;
pub mod refusal;
pub mod slots;
pub mod text;
