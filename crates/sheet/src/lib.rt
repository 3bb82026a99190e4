// The walk over a whole sheet.
#![tactic(auto)]

ghost use Rattle.std.specs.Prelude.{◌≡◌, length};
ghost use Rattle.sheet.specs.Calls.{sheet_of, sheet_raw, sheet_results, sheet_aligned};

use calls::SheetCounts;
use tokenizer::event::Event;
use tokenizer::refusal::Refusal;
use tokenizer::slots::clear_from;
use write::read_tables;

pub mod align;
pub mod calls;
pub mod results;
pub mod seek;
pub mod spans;
pub mod tables;
pub mod write;

// A whole sheet, read by a table of kinds: its tables' raw events, their result events, and their alignments. C lends the three as slices of their own.
pub fn sheet(
    sheet: &[u8],
    kinds: &[u8],
    code_indented: bool,
    raw: &mut [Event],
    results: &mut [Event],
    alignments: &mut [u8],
) -> Result<SheetCounts, Refusal>
    ensures { (result ≡ sheet_of sheet.now kinds.now code_indented (length raw.old) (length results.old) (length alignments.old))
        × ((raw.new ≡ sheet_raw sheet.now kinds.now code_indented (length raw.old) (length results.old) (length alignments.old))
        × ((results.new ≡ sheet_results sheet.now kinds.now code_indented (length raw.old) (length results.old) (length alignments.old))
        × (alignments.new ≡ sheet_aligned sheet.now kinds.now code_indented (length raw.old) (length results.old) (length alignments.old)))) }
{
    let answer = read_tables(sheet, kinds, code_indented, raw, results, alignments);
    let kept = answer.unwrap_or(SheetCounts::NONE);
    clear_from(raw, kept.events, Event::BLANK);
    clear_from(results, kept.results, Event::BLANK);
    clear_from(alignments, kept.alignments, 0);
    answer
}
