// Passes over all edits: what is asked of each is a function that is passed in.
ghost use Rattle.std.specs.Prelude.{◌≡◌, ◌+◌, ℕ, Bool, sum_by};
ghost use Rattle.edit_order.specs.EditSlots.{edits_of};
ghost use Rattle.edit_order.specs.Edits.{every};
ghost use Rattle.edit_order.specs.EditCount.{capped};

use crate::edit_slots;
use crate::edit_slots::Edit;

// Does a test pass of every edit?
pub fn all<F: Fn(Edit) -> bool>(edits: &[usize], test: F) -> bool
    ghost says: { Edit → Bool }
    requires calls { F.IsAlwaysCallable test }
    requires tells { (e : Edit) (r : Bool) → F.post test e r → r ≡ says e }
    ensures { result ≡ every says (edits_of edits.now) }
{
    edit_slots::groups(edits)
        .iter()
        .all(|group| test(Edit::from(*group)))
}

// One number more to a sum, or none where that is more than `limit`.
fn add_within(sum: usize, more: usize, limit: usize) -> Option<usize>
    ensures { result ≡ capped limit (sum + more) }
{
    sum.checked_add(more).filter(|n| *n <= limit)
}

// What a measure gives of each edit, summed up from `start` on: none where that is more than `limit`.
pub fn sum_within<F: Fn(Edit) -> usize>(
    edits: &[usize],
    start: usize,
    limit: usize,
    measure: F,
) -> Option<usize>
    ghost gives: { Edit → ℕ }
    requires calls { F.IsAlwaysCallable measure }
    requires tells { (e : Edit) (r : ℕ) → F.post measure e r → r ≡ gives e }
    ensures { result ≡ capped limit (start + sum_by gives (edits_of edits.now)) }
{
    if limit < start {
        return None;
    }
    edit_slots::groups(edits)
        .iter()
        .try_fold(start, |sum, group| {
            add_within(sum, measure(Edit::from(*group)), limit)
        })
}
