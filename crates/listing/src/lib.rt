// Lists the tables of a sheet on standard input, at most 4,096 bytes, and where the text of each cell stands.
#![tactic(auto)]

use edit_map::resolve_base::{is_entry, is_exit};
use gfm_table::stream::Part;
use protocol::input::fill;
use sheet::sheet;
use std::io;
use std::io::Write;
use tokenizer::event::{Event, Name};
use tokenizer::kinds::builtin;
use tokenizer::refusal::Refusal;

// The letter of a row's cells.
fn row_letter(part: Part) -> char {
    match part {
        Part::Head | Part::Delimiter => 'H',
        Part::Body => 'B',
    }
}

// What the walk over the events has seen: how many tables, the alignments that are still to be listed, where the row stands, and the cell's
// line and text.
#[derive(Drop)]
struct Seen<'a> {
    tables: usize,
    alignments: &'a [u8],
    part: Part,
    line: u32,
    offset: u32,
    length: u32,
}

impl Seen<'_> {
    // The line of a table that is entered: its number, its head line, its columns and their letters.
    fn table(&mut self, out: &mut impl Write, e: Event, columns: usize) -> io::Result<()> {
        let all = self.alignments;
        let (these, rest) = all.split_at(columns.min(all.len()));
        self.tables = self.tables.saturating_add(1);
        self.alignments = rest;
        write!(out, "T {} {} {columns} ", self.tables, e.line)?;
        for a in these {
            write!(out, "{}", letter(*a))?;
        }
        writeln!(out)
    }

    // The line of a cell: its letter, its line, and its text's offset and length.
    fn cell(&self, out: &mut impl Write) -> io::Result<()> {
        writeln!(
            out,
            "{} {} {} {}",
            row_letter(self.part),
            self.line,
            self.offset,
            self.length
        )
    }

    // An event more. A cell that is left is listed.
    fn step(&mut self, out: &mut impl Write, e: Event) -> io::Result<()> {
        if is_entry(Name::GfmTableHead as u8, e) {
            self.part = Part::Head;
        } else if is_entry(Name::GfmTableBody as u8, e) {
            self.part = Part::Body;
        } else if is_entry(Name::GfmTableCell as u8, e) {
            self.line = e.line;
            self.offset = 0;
            self.length = 0;
        } else if is_entry(Name::GfmTableCellText as u8, e) {
            self.offset = e.index;
            self.length = 0;
        } else if is_exit(Name::GfmTableCellText as u8, e) {
            self.length = e.index.saturating_sub(self.offset);
        } else if is_exit(Name::GfmTableCell as u8, e) {
            self.cell(out)?;
        }
        Ok(())
    }
}

// The letter of an alignment, by its number: a slot of an alignment is a byte.
fn letter(alignment: u8) -> char {
    match alignment {
        2 => 'L',
        3 => 'R',
        4 => 'C',
        _ => 'N',
    }
}

// The columns of the table that a list begins with: the values of its delimiter row.
fn columns(results: &[Event]) -> usize {
    results
        .iter()
        .take_while(|e| !is_exit(Name::GfmTableDelimiterRow as u8, **e))
        .filter(|e| is_entry(Name::GfmTableDelimiterCellValue as u8, **e))
        .count()
}

// All tables, in sheet order.
fn list(out: &mut impl Write, results: &[Event], alignments: &[u8]) -> io::Result<()> {
    let mut seen = Seen {
        tables: 0,
        alignments,
        part: Part::Head,
        line: 0,
        offset: 0,
        length: 0,
    };
    for (i, e) in results.iter().enumerate() {
        if is_entry(Name::GfmTable as u8, *e) {
            seen.table(out, *e, columns(&results[i..]))?;
        }
        seen.step(out, *e)?;
    }
    Ok(())
}

// A refusal.
fn refused(out: &mut impl Write, refusal: Refusal) -> io::Result<()> {
    writeln!(out, "refused {}", refusal.number())
}

// What is printed for a sheet.
fn sheet_listed(out: &mut impl Write, text: &[u8]) -> io::Result<()> {
    // An array of a fixed size: the project has no heap.
    let mut raw = [Event::BLANK; 1024];
    let mut results = [Event::BLANK; 1024];
    let mut alignments = [0u8; 1024];
    match sheet(
        text,
        &builtin(),
        true,
        &mut raw,
        &mut results,
        &mut alignments,
    ) {
        Err(refusal) => refused(out, refusal),
        Ok(counts) => {
            writeln!(out, "tables {}", counts.tables)?;
            list(out, &results, &alignments)
        }
    }
}

// Reads the sheet and lists it.
pub fn run(rt: &(impl Input + Print)) -> io::Result<()> {
    // An array of a fixed size, since the project has no heap; a byte more than is listed, so that a longer sheet is seen.
    let mut text = [0u8; 4097];
    let n = fill(&mut rt.reader(), &mut text)?;
    let mut out = io::writer(rt);
    if 4096 < n {
        refused(&mut out, Refusal::SheetTooLong)?;
    } else {
        sheet_listed(&mut out, &text[..n])?;
    }
    out.flush()
}
