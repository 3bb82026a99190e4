// The alignments of a table's columns.
ghost use Rattle.std.specs.Prelude.{◌≡◌, Bool, length};
ghost use Rattle.edit_map.specs.declared.infer_step.Aligning.{Aligning};
ghost use Rattle.edit_map.specs.AlignSteps.{scan_of, aligns_from};
ghost use Rattle.edit_map.specs.Answers.{align_answer, align_slots};
ghost use Rattle.edit_map.specs.Verdicts.{told_of};

use crate::infer_step::{Aligning, Stage};
use crate::resolve_base::rest_from;
use tokenizer::event::Event;
use tokenizer::refusal::Refusal;

// Questions 13 and 14.
#[tactic(auto, unfolding(crate::specs::Verdicts::told_of))]
fn told(s: Aligning, n: usize) -> Result<usize, Refusal>
    ensures { result ≡ told_of s n }
{
    if s.stage != Stage::Found {
        return Err(Refusal::NoTableToAlign);
    }
    if s.count <= n {
        Ok(s.count)
    } else {
        Err(Refusal::TooFewAlignmentSlots)
    }
}

// A list read from a state on, up to where reading stops.
fn scan<F: Fn(Aligning) -> bool>(list: &[Event], s: Aligning, stops: F) -> Aligning
    ghost off: { Aligning → Bool }
    requires calls { F.IsAlwaysCallable stops }
    requires tells { (x : Aligning) (b : Bool) → F.post stops x b → b ≡ off x }
    ensures { result ≡ scan_of list.now off s }
{
    let mut cur = Aligning { given: None, ..s };
    for e in rest_from(list, s.at) {
        if stops(cur) {
            return cur;
        }
        cur = cur.step(*e);
    }
    cur
}

// Each slot takes the next alignment, or 0.
fn fill_alignments(list: &[Event], s: Aligning, alignments: &mut [u8])
    ensures { alignments.new ≡ aligns_from list.now (length alignments.old) s }
{
    let mut cur = s;
    for slot in alignments.iter_mut() {
        cur = scan(list, cur, Aligning::pauses);
        *slot = cur.slot();
    }
}

// The alignments of the table that the event at a place enters.
pub fn align(list: &[Event], index: usize, alignments: &mut [u8]) -> Result<usize, Refusal>
    ensures { (result ≡ align_answer list.now index (length alignments.old))
        × (alignments.new ≡ align_slots list.now index (length alignments.old)) }
{
    let first = Aligning::before(index);
    let s = scan(list, first, Aligning::is_settled);
    let answer = told(s, alignments.len());
    match answer {
        Ok(_) => fill_alignments(list, first, alignments),
        Err(_) => alignments.fill(0),
    }
    answer
}
