// A sheet's tables, written to the slots.
ghost use Rattle.std.specs.Prelude.{◌≡◌, ◌≤◌, length};
ghost use Rattle.tokenizer.specs.Bytes.{kind_in};
ghost use Rattle.tokenizer.specs.Slots.{wrote};
ghost use Rattle.sheet.specs.Walk.{tables, raw_of, resolved_of};
ghost use Rattle.sheet.specs.Calls.{sheet_of};
ghost use Rattle.sheet.specs.Writing.{tables_read, counts_of, aligned_from};

use crate::align::align_from;
use crate::calls::SheetCounts;
use crate::results::result_table;
use crate::spans::table_from;
use crate::tables::raw_table;
use tokenizer::event::{Event, LineStart};
use tokenizer::kinds::asked;
use tokenizer::refusal::Refusal;
use tokenizer::text::{Sheet, length_asked};

// All tables: their raw events, their result events and their alignments, each as far as there are slots, and how many there are.
fn write_tables(
    text: &Sheet,
    on: bool,
    raw: &mut [Event],
    results: &mut [Event],
    alignments: &mut [u8],
) -> SheetCounts
    ensures { (result ≡ counts_of (tables (kind_in text.now.kinds.now) on text.now.bytes.now))
        × ((raw.new ≡ wrote 0 (raw_of (tables (kind_in text.now.kinds.now) on text.now.bytes.now)) raw.old)
        × ((results.new ≡ wrote 0 (resolved_of (tables (kind_in text.now.kinds.now) on text.now.bytes.now)) results.old)
        × (alignments.new ≡ aligned_from 0 (tables (kind_in text.now.kinds.now) on text.now.bytes.now) alignments.old))) }
{
    let mut counts = SheetCounts::NONE;
    let mut next = table_from(text, on, LineStart::first(text.bytes));
    while let Some(table) = next {
        let a = raw_table(text, table.head, table.stop, raw, counts.events);
        let b = result_table(text, table.head, table.stop, results, counts.results);
        let cells = table.cells as usize;
        align_from(
            text,
            table.delimiter as usize,
            cells,
            alignments,
            counts.alignments,
        );
        counts = SheetCounts {
            tables: counts.tables + 1,
            events: a.slot,
            results: b.slot,
            alignments: counts.alignments + cells,
        };
        next = table_from(text, on, table.next);
    }
    counts
}

// The questions of a sheet in their order. Its tables are written to the slots where those of the table of kinds and question 1 are answered yes,
// else nothing is; the questions of slots follow.
pub fn read_tables(
    sheet: &[u8],
    kinds: &[u8],
    code_indented: bool,
    raw: &mut [Event],
    results: &mut [Event],
    alignments: &mut [u8],
) -> Result<SheetCounts, Refusal>
    ensures told { result ≡ sheet_of sheet.now kinds.now code_indented (length raw.old) (length results.old) (length alignments.old) }
    ensures raw { raw.new ≡ wrote 0 (raw_of (tables_read sheet.now kinds.now code_indented)) raw.old }
    ensures results { results.new ≡ wrote 0 (resolved_of (tables_read sheet.now kinds.now code_indented)) results.old }
    ensures alignments { alignments.new ≡ aligned_from 0 (tables_read sheet.now kinds.now code_indented) alignments.old }
{
    asked(kinds)?;
    length_asked(sheet)?;
    let text = Sheet {
        bytes: sheet,
        kinds,
    };
    let counts = write_tables(&text, code_indented, raw, results, alignments);
    if raw.len() < counts.events {
        return Err(Refusal::TooFewRawSlots);
    }
    if results.len() < counts.results {
        return Err(Refusal::TooFewResultSlots);
    }
    if alignments.len() < counts.alignments {
        return Err(Refusal::TooFewAlignmentSlots);
    }
    Ok(counts)
}
