// One turn of the resolver: a record of the result, by the mode and the records at hand.
ghost use Rattle.std.specs.Prelude.{◌≡◌};
ghost use Rattle.tokenizer.specs.Events.{linked};
ghost use Rattle.edit_map.specs.declared.resolve_turn.Phase.TheVariants.{Copy};
ghost use Rattle.edit_map.specs.Turns.{to, value_phase, plain, given, piece_turn, row_exit_turn, head_exit_turn, out_turn, copy_turn, leave_cell, enter_cell, enter_value, copy_piece, end_exit_turn, turn_of};

use crate::cell_steps::{cell_name, value_name};
use crate::resolve_base::{is_row_name, is_text_name};
use crate::resolve_look::Look;
use gfm_table::stream::Part;
use tokenizer::event::{Event, EventKind, Link, Name, Point};

// Where the stream of result records stands.
#[derive(Clone, Copy, PartialEq, Eq)]
pub enum Phase {
    Out,
    Head,
    Row,
    Cell,
    Piece,
    Exit,
    Text,
    Copy,
    Leave,
    RowExit,
    HeadExit,
    End,
    EndExit,
    Open,
    BodyLeave,
    TableLeave,
}

// A row's memory: a piece other than whitespace was seen; the cell still waits for its value; records of the value that are left to copy.
#[derive(Clone, Copy)]
pub struct Mode {
    pub phase: Phase,
    pub part: Part,
    pub seen: bool,
    pub waits: bool,
    pub left: usize,
}

// One record, the mode after it, and how many records of the list are passed.
#[derive(Clone, Copy)]
pub struct Turn {
    pub event: Event,
    pub mode: Mode,
    pub by: usize,
}

impl Mode {
    // A phase outside a row's cells.
    pub fn plain(phase: Phase, part: Part) -> Self
        ensures { result ≡ plain phase part }
    {
        Mode {
            phase,
            part,
            seen: false,
            waits: false,
            left: 0,
        }
    }
}

// The phase behind a value's entry: a delimiter value is copied, a text is linked.
fn value_phase(p: Part) -> Phase
    ensures { result ≡ value_phase p }
{
    match p {
        Part::Head | Part::Body => Phase::Text,
        Part::Delimiter => Phase::Copy,
    }
}

// A turn that gives a record and passes some.
fn given(event: Event, mode: Mode, by: usize) -> Turn
    ensures { result ≡ given event mode by }
{
    Turn { event, mode, by }
}

// A turn to a phase outside a row's cells.
fn outside(event: Event, phase: Phase, part: Part, by: usize) -> Turn
    ensures { result ≡ given event (plain phase part) by }
{
    given(event, Mode::plain(phase, part), by)
}

// A row's exit is copied; at the end of a body it stays at hand.
fn row_exit_turn(p: Part, this: Event, next: Event) -> Turn
    ensures { result ≡ row_exit_turn p this next }
{
    match p {
        Part::Head => outside(this, Phase::End, Part::Head, 1),
        Part::Delimiter => outside(this, Phase::HeadExit, Part::Delimiter, 1),
        Part::Body => {
            if next.name == Name::LineEnding as u8 {
                outside(this, Phase::End, Part::Body, 1)
            } else {
                outside(this, Phase::BodyLeave, Part::Body, 0)
            }
        }
    }
}

// A line end's exit is copied, and a row follows.
fn end_exit_turn(p: Part, this: Event) -> Turn
    ensures { result ≡ end_exit_turn p this }
{
    match p {
        Part::Head => outside(this, Phase::Row, Part::Delimiter, 1),
        Part::Delimiter => outside(this, Phase::Open, Part::Body, 1),
        Part::Body => outside(this, Phase::Row, Part::Body, 1),
    }
}

// A head's exit is copied; at the end of a table it stays at hand.
fn head_exit_turn(this: Event, next: Event) -> Turn
    ensures { result ≡ head_exit_turn this next }
{
    if next.name == Name::LineEnding as u8 {
        outside(this, Phase::End, Part::Delimiter, 1)
    } else {
        outside(this, Phase::TableLeave, Part::Delimiter, 0)
    }
}

// Before a table, or at the end of the list, where the blank record that is read there is given and nothing is passed. A stream stops there
// and asks for no turn; who takes turns without one stays at the end.
fn out_turn(m: Mode, this: Event) -> Turn
    ensures { result ≡ out_turn m this }
{
    if this.kind == EventKind::Blank as u8 {
        given(this, m, 0)
    } else {
        outside(
            Name::GfmTable.enter(this.into()),
            Phase::Head,
            Part::Head,
            0,
        )
    }
}

// A cell is left.
fn leave_cell(p: Part, this: Event, then: Phase) -> Turn
    ensures { result ≡ leave_cell p this then }
{
    outside(cell_name(p).exit(this.into()), then, p, 0)
}

// A cell is entered.
fn enter_cell(p: Part, this: Event) -> Turn
    ensures { result ≡ enter_cell p this }
{
    let m = Mode {
        waits: true,
        ..Mode::plain(Phase::Piece, p)
    };
    given(cell_name(p).enter(this.into()), m, 0)
}

// A value is entered.
fn enter_value(p: Part, this: Event, ahead: usize) -> Turn
    ensures { result ≡ enter_value p this ahead }
{
    let m = Mode {
        seen: true,
        left: ahead,
        ..Mode::plain(value_phase(p), p)
    };
    given(value_name(p).enter(this.into()), m, 0)
}

// A piece's entry is copied.
fn copy_piece(m: Mode, this: Event) -> Turn
    ensures { result ≡ copy_piece m this }
{
    let then = Mode {
        phase: Phase::Exit,
        seen: m.seen || this.name != Name::SpaceOrTab as u8,
        left: 0,
        ..m
    };
    given(this, then, 1)
}

// At a piece's entry, or at the row's exit.
#[tactic(auto, unfolding(crate::specs::Turns::piece_turn))]
fn piece_turn(m: Mode, this: Event, look: Look) -> Turn
    ensures { result ≡ piece_turn m this look.ahead look.solid }
{
    if is_row_name(this.name) {
        return leave_cell(m.part, this, Phase::RowExit);
    }
    if m.seen && this.name == Name::GfmTableCellDivider as u8 && look.solid {
        return leave_cell(m.part, this, Phase::Cell);
    }
    if m.waits && is_text_name(this.name) {
        return enter_value(m.part, this, look.ahead);
    }
    copy_piece(m, this)
}

// A text's entry is linked, and what lies up to its last exit is passed.
fn text_turn(m: Mode, this: Event) -> Turn
    ensures { result ≡ given (linked this) (to m Copy 0) m.left }
{
    let linked = Event {
        link: Link::Text as u8,
        ..this
    };
    let then = Mode {
        phase: Phase::Copy,
        left: 0,
        ..m
    };
    given(linked, then, m.left)
}

// A value is copied up to its last exit.
fn copy_turn(m: Mode, this: Event) -> Turn
    ensures { result ≡ copy_turn m this }
{
    if m.left == 0 {
        let then = Mode {
            phase: Phase::Leave,
            ..m
        };
        given(this, then, 0)
    } else {
        let then = Mode {
            phase: Phase::Copy,
            left: m.left - 1,
            ..m
        };
        given(this, then, 1)
    }
}

impl Mode {
    // One record, and the mode after it: the states are 01's, and the definition matches over the same ones.
    pub fn turn(self, this: Event, next: Event, look: Look) -> Turn
        ensures { result ≡ turn_of self this next look.ahead look.solid }
    {
        let p = self.part;
        let here = Point::from(this);
        let piece = Mode {
            phase: Phase::Piece,
            left: 0,
            ..self
        };
        match self.phase {
            Phase::Out => out_turn(self, this),
            Phase::Head => outside(this, Phase::Row, Part::Head, 1),
            Phase::Row => outside(this, Phase::Cell, p, 1),
            Phase::Cell => enter_cell(p, this),
            Phase::Piece => piece_turn(self, this, look),
            Phase::Exit => given(this, piece, 1),
            Phase::Text => text_turn(self, this),
            Phase::Copy => copy_turn(self, this),
            Phase::Leave => given(value_name(p).exit(here), piece, 1),
            Phase::RowExit => row_exit_turn(p, this, next),
            Phase::HeadExit => head_exit_turn(this, next),
            Phase::End => outside(this, Phase::EndExit, p, 1),
            Phase::EndExit => end_exit_turn(p, this),
            Phase::Open => outside(Name::GfmTableBody.enter(here), Phase::Row, Part::Body, 0),
            Phase::BodyLeave => outside(
                Name::GfmTableBody.exit(here),
                Phase::TableLeave,
                Part::Body,
                0,
            ),
            Phase::TableLeave => outside(Name::GfmTable.exit(here), Phase::Out, Part::Head, 1),
        }
    }
}
