// The edit map, the resolver and the alignments.
#![tactic(auto)]

pub mod cell_rows;
pub mod cell_spans;
pub mod cell_steps;
pub mod edit_map;
pub mod edit_walk;
pub mod infer;
pub mod infer_step;
pub mod resolve;
pub mod resolve_accept;
pub mod resolve_base;
pub mod resolve_look;
pub mod resolve_step;
pub mod resolve_turn;
