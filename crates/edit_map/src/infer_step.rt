// The alignments of a table, record by record.
ghost use Rattle.std.specs.Prelude.{◌≡◌, false, cond};
ghost use Rattle.tokenizer.specs.Events;
ghost use Rattle.edit_map.specs.Align;
ghost use Rattle.edit_map.specs.AlignSteps.{number_of, slot_of, alignment_of, still, gives, value_step, outside_step, align_step, start_at, settled, pauses};

use crate::resolve_base::{is_entry, is_exit};
use tokenizer::event::{Event, Name};

// The alignment of a column, by the numbers of 01.
#[derive(Clone, Copy, Debug, PartialEq, Eq, Hash)]
pub enum Alignment {
    None = 1,
    Left = 2,
    Right = 3,
    Center = 4,
}

// How far a table is read for its alignments. `Failed` is one of these: with an `Option` around them seven results of steps would stand in
// `Some`, and `fill_alignments`, which reads on only in a table that was read to its end before, would carry a `None` that never comes.
#[derive(Clone, Copy, PartialEq, Eq)]
pub enum Stage {
    Opening,
    Seeking,
    Outside,
    Entered,
    Inside,
    Found,
    Failed,
}

// The stage; whether a marker stands in front of the value; whether the record before is named as a marker; the alignment that the last record gave, if it gave one; how many were given; the place of the next record.
#[derive(Clone, Copy)]
pub struct Aligning {
    pub stage: Stage,
    pub front: bool,
    pub last: bool,
    pub given: Option<Alignment>,
    pub count: usize,
    pub at: usize,
}

impl Alignment {
    // Its number.
    pub fn number(self) -> u8
        ensures { result ≡ number_of self }
    {
        self as u8
    }

    // A value's alignment, by the markers in front and behind.
    pub fn of(front: bool, last: bool) -> Self
        ensures { result ≡ alignment_of front last }
    {
        match (front, last) {
            (true, true) => Alignment::Center,
            (true, false) => Alignment::Left,
            (false, true) => Alignment::Right,
            (false, false) => Alignment::None,
        }
    }
}

impl Aligning {
    // Before the table at a place, or a state that has nothing to give.
    pub fn start(good: bool, at: usize) -> Self
        ensures { result ≡ start_at (cond good Stage.Opening Stage.Failed) at }
    {
        Aligning {
            stage: if good { Stage::Opening } else { Stage::Failed },
            front: false,
            last: false,
            given: None,
            count: 0,
            at,
        }
    }

    // Before the table at a place.
    pub fn before(at: usize) -> Self
        ensures { result ≡ start_at Stage.Opening at }
    {
        Self::start(true, at)
    }

    // The stage after a record that gives no alignment.
    fn still(self, stage: Stage, front: bool, e: Event) -> Self
        ensures { result ≡ still stage front self e }
    {
        Aligning {
            stage,
            front,
            last: e.name == Name::GfmTableDelimiterMarker as u8,
            given: None,
            at: self.at.saturating_add(1),
            ..self
        }
    }

    // A value is left: it gives its alignment.
    fn gives(self, front: bool, e: Event) -> Self
        ensures { result ≡ gives front self e }
    {
        Aligning {
            stage: Stage::Outside,
            front: false,
            last: e.name == Name::GfmTableDelimiterMarker as u8,
            given: Some(Alignment::of(front, self.last)),
            count: self.count.saturating_add(1),
            at: self.at.saturating_add(1),
        }
    }

    // One record inside a value that has a marker in front, or not.
    fn value_step(self, front: bool, e: Event) -> Self
        ensures { result ≡ value_step front self e }
    {
        if is_exit(Name::GfmTableDelimiterRow as u8, e)
            || is_entry(Name::GfmTableDelimiterCellValue as u8, e)
        {
            return self.still(Stage::Failed, false, e);
        }
        if is_exit(Name::GfmTableDelimiterCellValue as u8, e) {
            return self.gives(front, e);
        }
        self.still(Stage::Inside, front, e)
    }

    // One record of a delimiter row outside its values.
    fn outside_step(self, e: Event) -> Self
        ensures { result ≡ outside_step self e }
    {
        if is_exit(Name::GfmTableDelimiterRow as u8, e) {
            return self.still(Stage::Found, false, e);
        }
        if is_entry(Name::GfmTableDelimiterCellValue as u8, e) {
            return self.still(Stage::Entered, false, e);
        }
        if is_exit(Name::GfmTableDelimiterCellValue as u8, e) {
            return self.still(Stage::Failed, false, e);
        }
        self.still(Stage::Outside, false, e)
    }

    // One stage follows where the name n is entered, and another where not.
    fn sought(self, n: u8, yes: Stage, no: Stage, e: Event) -> Self
        ensures { result ≡ cond (Align.is_entry n e) (still yes false self e) (still no false self e) }
    {
        self.still(if is_entry(n, e) { yes } else { no }, false, e)
    }

    // One record more: the stages are those over which the definition matches.
    pub fn step(self, e: Event) -> Self
        ensures { result ≡ align_step self e }
    {
        match self.stage {
            Stage::Opening => self.sought(Name::GfmTable as u8, Stage::Seeking, Stage::Failed, e),
            Stage::Seeking => {
                self.sought(
                    Name::GfmTableDelimiterRow as u8,
                    Stage::Outside,
                    Stage::Seeking,
                    e,
                )
            }
            Stage::Outside => self.outside_step(e),
            Stage::Entered => self.value_step(e.name == Name::GfmTableDelimiterMarker as u8, e),
            Stage::Inside => self.value_step(self.front, e),
            Stage::Found => self.still(Stage::Found, false, e),
            Stage::Failed => self.still(Stage::Failed, false, e),
        }
    }

    // Whether no further record counts.
    pub fn is_settled(self) -> bool
        ensures { result ≡ settled self.stage }
    {
        self.stage == Stage::Found || self.stage == Stage::Failed
    }

    // Whether no further record counts, or the last one gave an alignment.
    pub fn pauses(self) -> bool
        ensures { result ≡ pauses self }
    {
        self.is_settled() || self.given.is_some()
    }

    // What a slot holds of the alignment that the last record gave: its number, or 0.
    pub fn slot(self) -> u8
        ensures { result ≡ slot_of self.given }
    {
        self.given.map_or(0, Alignment::number)
    }
}
