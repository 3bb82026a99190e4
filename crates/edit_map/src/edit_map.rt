// The edit map: edits of a list of events, with additions from a pool.
ghost use Rattle.std.specs.Prelude.{◌≡◌, length};
ghost use Rattle.tokenizer.specs.Events.{blank_event};
ghost use Rattle.tokenizer.specs.Slots.{slots_of, cleared};
ghost use Rattle.edit_order.specs.EditSlots.{edits_of};
ghost use Rattle.edit_map.specs.EditAnswer.{slots_after, edit_answer, edit_slots, edit_results};
ghost use Rattle.edit_map.specs.EditSettles.{settled};
ghost use Rattle.edit_map.specs.Records.{left_of, CanGive};

use crate::edit_walk::{Cursor, Records, Walk};
use edit_order::{edit_count, edit_fits, edit_sort};
use tokenizer::event::Event;
use tokenizer::refusal::Refusal;
use tokenizer::slots::clear_from;

// Questions 11 and 12, and then the order of the edit slots. A refused edit leaves them as they came.
fn settle(edits: &mut [usize], len: usize, pool: usize, slots: usize) -> Result<usize, Refusal>
    ensures { (result ≡ settled len pool slots (edits_of edits.old))
        × (edits.new ≡ slots_after (settled len pool slots (edits_of edits.old)) edits.old) }
{
    if !edit_fits::fits(edits, len, pool) {
        return Err(Refusal::EditsDoNotFit);
    }
    let n = edit_count::count(edits, len, slots).ok_or(Refusal::TooFewResultSlots)?;
    edit_sort::sort(edits);
    Ok(n)
}

// Records into the first result slots, as far as there are records and slots; how many. The slots behind them stay.
fn fill(records: Records, results: &mut [Event]) -> usize
    requires { CanGive records }
    ensures { cleared blank_event result results.new ≡ slots_of (length results.old) (left_of records.entry) }
{
    let mut records = records;
    for (i, slot) in results.iter_mut().enumerate() {
        match records.next() {
            Some(e) => {
                *slot = e;
            }
            None => return i,
        }
    }
    results.len()
}

// The list, edited, into the result slots. Refused, these are blank, and the edit slots as they came.
pub fn edit(
    list: &[Event],
    edits: &mut [usize],
    pool: &[Event],
    results: &mut [Event],
) -> Result<usize, Refusal>
    ensures { (result ≡ edit_answer list.now edits.old pool.now (length results.old))
        × ((edits.new ≡ edit_slots list.now edits.old pool.now (length results.old))
        × (results.new ≡ edit_results list.now edits.old pool.now (length results.old))) }
{
    let answer = settle(edits, list.len(), pool.len(), results.len());
    match answer {
        Ok(_) => {
            let walk = Walk { list, edits, pool };
            let cursor = Cursor::Between { at: 0, edit: 0 };
            let filled = fill(Records { walk, cursor }, results);
            clear_from(results, filled, Event::BLANK);
        }
        Err(_) => clear_from(results, 0, Event::BLANK),
    }
    answer
}
