// The row machine of GFM tables: head lines, delimiter rows and body rows.
#![tactic(auto)]

ghost use Rattle.std.specs.Prelude.{◌≡◌, ◌||◌, length};
ghost use Rattle.tokenizer.specs.Bytes.{kind_of};
ghost use Rattle.gfm_table.specs.Calls.{head_of, head_slots, row_of, row_slots};

use calls::{HeadCounts, RowCounts, head_plan, row_plan};
use stream::fill;
use tokenizer::event::Event;
use tokenizer::kinds::builtin;
use tokenizer::refusal::Refusal;
use tokenizer::slots::clear_from;
use tokenizer::text::{AnyText, Text};

pub mod calls;
pub mod delimiter;
pub mod head_count;
pub mod heads;
pub mod pieces;
pub mod rows;
pub mod states;
pub mod stream;
pub mod values;

// A head at an offset: two lines of the sheet.
pub fn head(
    sheet: &[u8],
    offset: usize,
    code_indented: bool,
    lazy: bool,
    pierced: bool,
    raw: &mut [Event],
) -> Result<HeadCounts, Refusal>
    ensures { (result ≡ head_of kind_of sheet.now offset code_indented (lazy || pierced) (length raw.old)) × (raw.new ≡ head_slots kind_of sheet.now offset code_indented (lazy || pierced) (length raw.old)) }
{
    let kinds = builtin();
    let text: AnyText = Text {
        bytes: sheet,
        kinds: &kinds,
    };
    let stray = lazy || pierced;
    match head_plan(&text, offset, code_indented, stray, raw.len()) {
        Ok(plan) => {
            fill(&text, plan.cursor, raw);
            Ok(plan.answer)
        }
        Err(refusal) => {
            clear_from(raw, 0, Event::BLANK);
            Err(refusal)
        }
    }
}

// A body row at an offset: one line of the sheet. Its answer is given as `head` gives its own: what a function for both would promise is the
// match written again.
pub fn row(sheet: &[u8], offset: usize, lazy: bool, raw: &mut [Event]) -> Result<RowCounts, Refusal>
    ensures { (result ≡ row_of kind_of sheet.now offset lazy (length raw.old)) × (raw.new ≡ row_slots kind_of sheet.now offset lazy (length raw.old)) }
{
    let kinds = builtin();
    let text: AnyText = Text {
        bytes: sheet,
        kinds: &kinds,
    };
    match row_plan(&text, offset, lazy, raw.len()) {
        Ok(plan) => {
            fill(&text, plan.cursor, raw);
            Ok(plan.answer)
        }
        Err(refusal) => {
            clear_from(raw, 0, Event::BLANK);
            Err(refusal)
        }
    }
}
