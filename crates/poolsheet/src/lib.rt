// The six calls as numbers, by the names that `poolsheet_c` exports to C.
#![tactic(auto)]

ghost use Rattle.std.specs.Prelude.{◌≡◌, ◌||◌, [], ◌∷◌, length, replicate};
ghost use Rattle.std.specs.Result.{result_unwrap_or};
ghost use Rattle.tokenizer.specs.Bytes.{kind_of};
ghost use Rattle.gfm_table.specs.Calls.{head_of, head_slots, row_of, row_slots};
ghost use Rattle.edit_map.specs.Answers.{resolve_answer, resolve_slots, align_answer, align_slots};
ghost use Rattle.edit_map.specs.EditAnswer.{edit_answer, edit_slots, edit_results};
ghost use Rattle.sheet.specs.Calls.{sheet_of, sheet_raw, sheet_results, sheet_aligned};
ghost use Rattle.tokenizer.specs.Refusals.{answer_number};
ghost use Rattle.poolsheet.specs.Answers.{counts_of_head, counts_of_row, count_of, counts_of_sheet};

use edit_map::edit_map::edit;
use edit_map::infer::align;
use edit_map::resolve::resolve;
use gfm_table::{head, row};
use tokenizer::event::Event;
use tokenizer::refusal::{Refusal, answer_number};

// An answer's counts are stored, zeros where it is refused; its number.
fn tell<const N: usize>(answer: &Result<[usize; N], Refusal>, counts: &mut [usize; N]) -> u8
    ensures { (result ≡ answer_number answer.now) × (counts.new ≡ result_unwrap_or answer.now (replicate N 0)) }
{
    *counts = match answer {
        Ok(c) => *c,
        Err(_) => [0; N],
    };
    answer_number(answer)
}

// The counts of an answer that counts one thing.
fn one(n: usize) -> [usize; 1]
    ensures { result ≡ n ∷ [] }
{
    [n]
}

// A head at an offset. Counts: events, end, cells.
pub fn poolsheet_head(
    sheet: &[u8],
    offset: usize,
    code_indented: bool,
    lazy: bool,
    pierced: bool,
    raw: &mut [Event],
    counts: &mut [usize; 3],
) -> u8
    ensures { (result ≡ answer_number (head_of kind_of sheet.now offset code_indented (lazy || pierced) (length raw.old)))
        × ((raw.new ≡ head_slots kind_of sheet.now offset code_indented (lazy || pierced) (length raw.old))
        × (counts.new ≡ counts_of_head (head_of kind_of sheet.now offset code_indented (lazy || pierced) (length raw.old)))) }
{
    tell(
        &head(sheet, offset, code_indented, lazy, pierced, raw).map(<[usize; 3]>::from),
        counts,
    )
}

// A body row at an offset. Counts: events, end.
pub fn poolsheet_row(
    sheet: &[u8],
    offset: usize,
    lazy: bool,
    raw: &mut [Event],
    counts: &mut [usize; 2],
) -> u8
    ensures { (result ≡ answer_number (row_of kind_of sheet.now offset lazy (length raw.old)))
        × ((raw.new ≡ row_slots kind_of sheet.now offset lazy (length raw.old))
        × (counts.new ≡ counts_of_row (row_of kind_of sheet.now offset lazy (length raw.old)))) }
{
    tell(
        &row(sheet, offset, lazy, raw).map(<[usize; 2]>::from),
        counts,
    )
}

// The result events of a list of raw tables. Counts: events.
pub fn poolsheet_resolve(list: &[Event], results: &mut [Event], counts: &mut [usize; 1]) -> u8
    ensures { (result ≡ answer_number (resolve_answer list.now (length results.old)))
        × ((results.new ≡ resolve_slots list.now (length results.old))
        × (counts.new ≡ count_of (resolve_answer list.now (length results.old)))) }
{
    tell(&resolve(list, results).map(one), counts)
}

// A list, edited, with additions from a pool. Counts: events.
pub fn poolsheet_edit(
    list: &[Event],
    edits: &mut [usize],
    pool: &[Event],
    results: &mut [Event],
    counts: &mut [usize; 1],
) -> u8
    ensures { (result ≡ answer_number (edit_answer list.now edits.old pool.now (length results.old)))
        × ((edits.new ≡ edit_slots list.now edits.old pool.now (length results.old))
        × ((results.new ≡ edit_results list.now edits.old pool.now (length results.old))
        × (counts.new ≡ count_of (edit_answer list.now edits.old pool.now (length results.old))))) }
{
    tell(&edit(list, edits, pool, results).map(one), counts)
}

// The alignments of the table that the event at a place enters. Counts: alignments.
pub fn poolsheet_align(
    list: &[Event],
    index: usize,
    alignments: &mut [u8],
    counts: &mut [usize; 1],
) -> u8
    ensures { (result ≡ answer_number (align_answer list.now index (length alignments.old)))
        × ((alignments.new ≡ align_slots list.now index (length alignments.old))
        × (counts.new ≡ count_of (align_answer list.now index (length alignments.old)))) }
{
    tell(&align(list, index, alignments).map(one), counts)
}

// A whole sheet, read by a table of kinds. Counts: tables, raw events, result events, alignments.
pub fn poolsheet_sheet(
    sheet: &[u8],
    kinds: &[u8],
    code_indented: bool,
    raw: &mut [Event],
    results: &mut [Event],
    alignments: &mut [u8],
    counts: &mut [usize; 4],
) -> u8
    ensures { (result ≡ answer_number (sheet_of sheet.now kinds.now code_indented (length raw.old) (length results.old) (length alignments.old)))
        × ((raw.new ≡ sheet_raw sheet.now kinds.now code_indented (length raw.old) (length results.old) (length alignments.old))
        × ((results.new ≡ sheet_results sheet.now kinds.now code_indented (length raw.old) (length results.old) (length alignments.old))
        × ((alignments.new ≡ sheet_aligned sheet.now kinds.now code_indented (length raw.old) (length results.old) (length alignments.old))
        × (counts.new ≡ counts_of_sheet (sheet_of sheet.now kinds.now code_indented (length raw.old) (length results.old) (length alignments.old)))))) }
{
    let answer = sheet::sheet(sheet, kinds, code_indented, raw, results, alignments);
    tell(&answer.map(<[usize; 4]>::from), counts)
}
