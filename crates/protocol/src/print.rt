// An answer, written to a writer.
ghost use Rattle.std.specs.Prelude.{◌≡◌, Bool, eqb};
ghost use Rattle.protocol.specs.Records.{is_blank};

use std::fmt::Display;
use std::io;
use std::io::Write;
use tokenizer::event::Event;
use tokenizer::refusal::{Refusal, answer_number};

// What a slot may hold: blank ones at the end of a list are not written.
pub trait Slot: Copy + Display {
    ghost blank: { Self → Bool };

    // Whether it holds nothing.
    fn is_blank(&self) -> bool
        ensures { result ≡ blank self.now };
}

impl Slot for Event {
    ghost blank = { is_blank };

    fn is_blank(&self) -> bool {
        *self == Event::BLANK
    }
}

impl Slot for u8 {
    ghost blank = { λ n. eqb n 0 };

    fn is_blank(&self) -> bool {
        *self == 0
    }
}

// A space and the seven numbers of an event.
pub fn event(out: &mut impl Write, e: Event) -> io::Result<()> {
    write!(out, " {e}")
}

// Lent slots: each up to the last that is not blank, and the number of those behind.
pub fn slots<T: Slot>(out: &mut impl Write, list: &[T]) -> io::Result<()> {
    let used = list
        .iter()
        .rposition(|x| !x.is_blank())
        .map_or(0, |i| i + 1);
    write!(out, " |")?;
    for x in &list[..used] {
        write!(out, " {x}")?;
    }
    write!(out, " +{}", list.len() - used)
}

// Numbers.
pub fn numbers(out: &mut impl Write, list: &[usize]) -> io::Result<()> {
    write!(out, " |")?;
    for n in list {
        write!(out, " {n}")?;
    }
    Ok(())
}

// The counts of a refusal.
const ZEROS: &[u8] = b" 0 0 0 0";

// An answer's number and counts, zeros where it is refused.
pub fn number<const N: usize>(
    out: &mut impl Write,
    answer: Result<[usize; N], Refusal>,
) -> io::Result<()> {
    write!(out, "{}", answer_number(&answer))?;
    // A refusal's zeros are one piece, since each piece is written for itself.
    if let (Err(_), Some(zeros)) = (&answer, ZEROS.get(..N.saturating_mul(2))) {
        return out.write_all(zeros);
    }
    for n in &answer.unwrap_or([0; N]) {
        write!(out, " {n}")?;
    }
    Ok(())
}

// An answer, and the slots that were lent.
pub fn answer<T: Slot, const N: usize>(
    out: &mut impl Write,
    answer: Result<[usize; N], Refusal>,
    list: &[T],
) -> io::Result<()> {
    number(out, answer)?;
    slots(out, list)
}
