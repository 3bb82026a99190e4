// Question 12: the number of result records, over edits that fit, in any order.
ghost use Rattle.std.specs.Prelude.{◌≡◌, ◌≤◌, ◌-◌};
ghost use Rattle.edit_order.specs.EditSlots.{edits_of};
ghost use Rattle.edit_order.specs.Edits.{removed};
ghost use Rattle.edit_order.specs.EditCount.{capped, result_count};

use crate::edit_slots::Edit;
use crate::{edit_passes, edit_slots};

// The records of the list that stay.
fn staying(edits: &[usize], len: usize) -> usize
    requires { removed (edits_of edits.now) ≤ len }
    ensures { result ≡ len - removed (edits_of edits.now) }
{
    let removed: usize = edit_slots::groups(edits)
        .iter()
        .map(|group| Edit::from(*group).removes)
        .sum();
    len - removed
}

// The number of result records, or none where it is over the limit.
#[tactic(auto, using(crate::proofs::EditPassing::adding_sum))]
pub fn count(edits: &[usize], len: usize, limit: usize) -> Option<usize>
    requires { removed (edits_of edits.now) ≤ len }
    ensures { result ≡ capped limit (result_count len (edits_of edits.now)) }
{
    edit_passes::sum_within(edits, staying(edits, len), limit, |e| e.adds)
}
