// The static library for other languages: the six calls by their C names, each as the library's function of its name. Each is written out: an
// exported name is a plain function.
#![tactic(auto)]

ghost use Rattle.std.specs.Prelude.{◌≡◌, ◌||◌, length};
ghost use Rattle.tokenizer.specs.Bytes.{kind_of};
ghost use Rattle.gfm_table.specs.Calls.{head_of, head_slots, row_of, row_slots};
ghost use Rattle.edit_map.specs.Answers.{resolve_answer, resolve_slots, align_answer, align_slots};
ghost use Rattle.edit_map.specs.EditAnswer.{edit_answer, edit_slots, edit_results};
ghost use Rattle.sheet.specs.Calls.{sheet_of, sheet_raw, sheet_results, sheet_aligned};
ghost use Rattle.tokenizer.specs.Refusals.{answer_number};
ghost use Rattle.poolsheet.specs.Answers.{counts_of_head, counts_of_row, count_of, counts_of_sheet};

use tokenizer::event::Event;

// A head at an offset. Counts: events, end, cells.
#[unsafe(no_mangle)]
pub extern "C" fn poolsheet_head(
    sheet: &[u8],
    offset: usize,
    code_indented: bool,
    lazy: bool,
    pierced: bool,
    raw: &mut [Event],
    counts: &mut [usize; 3],
) -> u8
    ensures { (result ≡ answer_number (head_of kind_of sheet.now offset code_indented (lazy || pierced) (length raw.old)))
        × ((raw.new ≡ head_slots kind_of sheet.now offset code_indented (lazy || pierced) (length raw.old))
        × (counts.new ≡ counts_of_head (head_of kind_of sheet.now offset code_indented (lazy || pierced) (length raw.old)))) }
{
    poolsheet::poolsheet_head(sheet, offset, code_indented, lazy, pierced, raw, counts)
}

// A body row at an offset. Counts: events, end.
#[unsafe(no_mangle)]
pub extern "C" fn poolsheet_row(
    sheet: &[u8],
    offset: usize,
    lazy: bool,
    raw: &mut [Event],
    counts: &mut [usize; 2],
) -> u8
    ensures { (result ≡ answer_number (row_of kind_of sheet.now offset lazy (length raw.old)))
        × ((raw.new ≡ row_slots kind_of sheet.now offset lazy (length raw.old))
        × (counts.new ≡ counts_of_row (row_of kind_of sheet.now offset lazy (length raw.old)))) }
{
    poolsheet::poolsheet_row(sheet, offset, lazy, raw, counts)
}

// The result events of a list of raw tables. Counts: events.
#[unsafe(no_mangle)]
pub extern "C" fn poolsheet_resolve(
    list: &[Event],
    results: &mut [Event],
    counts: &mut [usize; 1],
) -> u8
    ensures { (result ≡ answer_number (resolve_answer list.now (length results.old)))
        × ((results.new ≡ resolve_slots list.now (length results.old))
        × (counts.new ≡ count_of (resolve_answer list.now (length results.old)))) }
{
    poolsheet::poolsheet_resolve(list, results, counts)
}

// A list, edited, with additions from a pool. Counts: events.
#[unsafe(no_mangle)]
pub extern "C" fn poolsheet_edit(
    list: &[Event],
    edits: &mut [usize],
    pool: &[Event],
    results: &mut [Event],
    counts: &mut [usize; 1],
) -> u8
    ensures { (result ≡ answer_number (edit_answer list.now edits.old pool.now (length results.old)))
        × ((edits.new ≡ edit_slots list.now edits.old pool.now (length results.old))
        × ((results.new ≡ edit_results list.now edits.old pool.now (length results.old))
        × (counts.new ≡ count_of (edit_answer list.now edits.old pool.now (length results.old))))) }
{
    poolsheet::poolsheet_edit(list, edits, pool, results, counts)
}

// The alignments of the table that the event at a place enters. Counts: alignments.
#[unsafe(no_mangle)]
pub extern "C" fn poolsheet_align(
    list: &[Event],
    index: usize,
    alignments: &mut [u8],
    counts: &mut [usize; 1],
) -> u8
    ensures { (result ≡ answer_number (align_answer list.now index (length alignments.old)))
        × ((alignments.new ≡ align_slots list.now index (length alignments.old))
        × (counts.new ≡ count_of (align_answer list.now index (length alignments.old)))) }
{
    poolsheet::poolsheet_align(list, index, alignments, counts)
}

// A whole sheet, read by a table of kinds. Counts: tables, raw events, result events, alignments.
#[unsafe(no_mangle)]
pub extern "C" fn poolsheet_sheet(
    sheet: &[u8],
    kinds: &[u8],
    code_indented: bool,
    raw: &mut [Event],
    results: &mut [Event],
    alignments: &mut [u8],
    counts: &mut [usize; 4],
) -> u8
    ensures { (result ≡ answer_number (sheet_of sheet.now kinds.now code_indented (length raw.old) (length results.old) (length alignments.old)))
        × ((raw.new ≡ sheet_raw sheet.now kinds.now code_indented (length raw.old) (length results.old) (length alignments.old))
        × ((results.new ≡ sheet_results sheet.now kinds.now code_indented (length raw.old) (length results.old) (length alignments.old))
        × ((alignments.new ≡ sheet_aligned sheet.now kinds.now code_indented (length raw.old) (length results.old) (length alignments.old))
        × (counts.new ≡ counts_of_sheet (sheet_of sheet.now kinds.now code_indented (length raw.old) (length results.old) (length alignments.old)))))) }
{
    poolsheet::poolsheet_sheet(
        sheet,
        kinds,
        code_indented,
        raw,
        results,
        alignments,
        counts,
    )
}
