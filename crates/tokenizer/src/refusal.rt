// Why a call refused: the first question that was answered no.
ghost use Rattle.std.specs.Prelude.{◌≡◌};
ghost use Rattle.tokenizer.specs.Refusals.{refusal_number, answer_number};

use std::error::Error;
use std::fmt;

// The questions that a call may refuse by, by the numbers of 01 and 02.
#[derive(Clone, Copy, Debug, PartialEq, Eq, Hash)]
pub enum Refusal {
    // Has the sheet at most 65,536 bytes?
    SheetTooLong = 1,
    // Is the offset a line start, not past the end?
    NoLineStart = 2,
    // Is the byte after the permitted indent no whitespace?
    IndentTooWide = 3,
    // Does a line end close the head line, and is more in it than whitespace and one divider?
    NoHeadLine = 4,
    // Is the line neither lazy nor pierced?
    LazyOrPierced = 5,
    // Is the second line a delimiter row?
    NoDelimiterRow = 6,
    // Are its values as many as the head cells?
    ColumnsDiffer = 7,
    // Is the line not blank?
    BlankRow = 8,
    // Are there raw slots for all events?
    TooFewRawSlots = 9,
    // Is the list made of raw tables?
    NoRawTables = 10,
    // Do the edits stay in the list without overlap, and added events in the pool?
    EditsDoNotFit = 11,
    // Are there result slots?
    TooFewResultSlots = 12,
    // Does the event enter a table, and does a whole delimiter row follow?
    NoTableToAlign = 13,
    // Are there alignment slots?
    TooFewAlignmentSlots = 14,
    // Has the table of kinds 256 entries, none above 6?
    NoKindTable = 20,
    // Are bytes 9 and 32 exactly those of kind 1, and bytes 10 and 13 exactly those of kind 2?
    WhitespaceKindsDiffer = 21,
    // Has each of the kinds 3 to 6 exactly one byte, and the byte `>` kind 0?
    PunctuationKindsDiffer = 22,
}

impl Refusal {
    // The number of the question.
    pub fn number(self) -> u8
        ensures { result ≡ refusal_number self }
    {
        self as u8
    }
}

// The number of an answer: 0, or the refusal's.
pub fn answer_number<T>(answer: &Result<T, Refusal>) -> u8
    ensures { result ≡ answer_number answer.now }
{
    match answer {
        Ok(_) => 0,
        Err(refusal) => refusal.number(),
    }
}

impl fmt::Display for Refusal {
    fn fmt<W: fmt::Write>(&self, f: &mut fmt::Formatter<W>) -> fmt::Result {
        f.write_str(match self {
            Refusal::SheetTooLong => "the sheet has more than 65,536 bytes",
            Refusal::NoLineStart => "no line starts at the offset",
            Refusal::IndentTooWide => "the head line is indented too far",
            Refusal::NoHeadLine => {
                "the line is no head line: nothing is in it but whitespace or one divider, or no line end closes it"
            }
            Refusal::LazyOrPierced => "the line is lazy or pierced",
            Refusal::NoDelimiterRow => "the line under the head line is no delimiter row",
            Refusal::ColumnsDiffer => {
                "the delimiter row has another number of columns than the head line"
            }
            Refusal::BlankRow => "the line is blank",
            Refusal::TooFewRawSlots => "more raw slots are needed than were lent",
            Refusal::NoRawTables => "the list is not made of raw tables",
            Refusal::EditsDoNotFit => "the edits overlap, or reach past the list or the pool",
            Refusal::TooFewResultSlots => "more result slots are needed than were lent",
            Refusal::NoTableToAlign => {
                "the event enters no table, or no whole delimiter row follows it"
            }
            Refusal::TooFewAlignmentSlots => "more alignment slots are needed than were lent",
            Refusal::NoKindTable => {
                "the table of kinds has more or fewer than 256 entries, or a kind above 6"
            }
            Refusal::WhitespaceKindsDiffer => {
                "the bytes of kind 1 are not tab and space, or those of kind 2 not line feed and carriage return"
            }
            Refusal::PunctuationKindsDiffer => {
                "one of the kinds 3 to 6 has no byte or several, or the byte > has one of them"
            }
        })
    }
}

impl Error for Refusal {}
