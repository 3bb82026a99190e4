// The edits in their slots, their order, and questions 11 and 12.
#![tactic(auto)]

pub mod edit_count;
pub mod edit_fits;
pub mod edit_marks;
pub mod edit_passes;
pub mod edit_slots;
pub mod edit_sort;
