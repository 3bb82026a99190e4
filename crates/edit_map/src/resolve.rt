// The resolver: a list of raw tables, and its result events.
ghost use Rattle.std.specs.Prelude.{◌≡◌, length};
ghost use Rattle.edit_map.specs.declared.resolve_accept.Place.TheVariants.{Start};
ghost use Rattle.gfm_table.specs.declared.stream.Part.TheVariants as Part;
ghost use Rattle.edit_map.specs.Accept.{at, read_all};
ghost use Rattle.edit_map.specs.Cursors.{look_of, next_at, over_at, stepped, given_to};
ghost use Rattle.edit_map.specs.Answers.{resolve_answer, resolve_slots};
ghost use Rattle.edit_map.specs.Streaming.{Streams};
ghost use Rattle.edit_map.specs.Verdicts.{streamed, streamed_slots};

use crate::resolve_accept::Reading;
use crate::resolve_base::rest_from;
use crate::resolve_look::Look;
use crate::resolve_step::Cursor;
use std::ops::ControlFlow;
use tokenizer::event::Event;
use tokenizer::refusal::Refusal;
use tokenizer::slots::{at_or_blank, clear_from};

// A list read up to its end, or to a record that no list of raw tables has there.
fn accept(list: &[Event]) -> Option<Reading>
    ensures { result ≡ read_all (at Start Part.Head) list.now }
{
    list.iter().try_fold(Reading::START, |r, e| r.step(*e))
}

// The look ahead behind the piece at a cursor, where it asks for one, or its start. No `Option`: each turn takes a look, and most read none.
fn look_ahead(list: &[Event], c: Cursor, this: Event) -> Look
    ensures { result ≡ look_of list.now c this }
{
    let start = Look::start(this);
    if !c.mode.asks(this) {
        return start;
    }
    let behind = rest_from(list, c.at.saturating_add(2));
    match behind.iter().try_fold(start, |l, e| l.further(*e)) {
        ControlFlow::Continue(l) => l,
        ControlFlow::Break(l) => l,
    }
}

// The record behind the one at a cursor, where the next turn reads it, or a blank one. No `Option`: only two phases read it; the others would carry a `None` that no one asks.
fn next_at(list: &[Event], c: Cursor) -> Event
    ensures { result ≡ next_at list.now c }
{
    if c.mode.reads_next() {
        at_or_blank(list, c.at.saturating_add(1))
    } else {
        Event::BLANK
    }
}

// The result events of a list that are still to come.
#[derive(Clone, Copy)]
pub struct Stream<'a> {
    pub list: &'a [Event],
    pub cursor: Cursor,
}

impl Stream<'_> {
    // Whether no event is to come.
    fn is_over(&self) -> bool
        ensures { result ≡ over_at self.now.list.now self.now.cursor }
    {
        self.cursor.is_over(at_or_blank(self.list, self.cursor.at))
    }

    // The event of the next turn. It is no `Iterator`. This was tried: the `impl` is proved, but a `for` over the slots whose body calls
    // `next` asks to prove that the events end, which those of a list that is not accepted need not. `zip` joins slots and events, but the
    // loop's invariant cannot name what the slots hold.
    fn next(&mut self) -> Option<Event>
        ensures { Streams self.old result self.new }
    {
        let c = self.cursor;
        let this = at_or_blank(self.list, c.at);
        if c.is_over(this) {
            return None;
        }
        let look = look_ahead(self.list, c, this);
        let t = c.mode.turn(this, next_at(self.list, c), look);
        self.cursor = c.after(t);
        Some(t.event)
    }
}

// An event for each slot, up to the end of the stream: how many there are, if all have slots.
fn fill(stream: Stream, results: &mut [Event]) -> Option<usize>
    ensures { (result ≡ given_to stream.entry.list.now 0 (length results.old) stream.entry.cursor)
        × (results.new ≡ stepped stream.entry.list.now stream.entry.cursor results.old) }
{
    let mut stream = stream;
    for (i, slot) in results.iter_mut().enumerate() {
        match stream.next() {
            Some(e) => {
                *slot = e;
            }
            None => return Some(i),
        }
    }
    stream.is_over().then_some(results.len())
}

// The result events in the slots, and their number, where there are slots for all.
#[tactic(auto, unfolding(crate::specs::Verdicts::streamed, crate::specs::Verdicts::streamed_slots))]
fn resolve_into(list: &[Event], results: &mut [Event]) -> Result<usize, Refusal>
    ensures { (result ≡ streamed list.now (length results.old))
        × (results.new ≡ streamed_slots list.now results.old) }
{
    if !accept(list).is_some_and(Reading::is_accepted) {
        return Err(Refusal::NoRawTables);
    }
    let stream = Stream {
        list,
        cursor: Cursor::FRONT,
    };
    fill(stream, results).ok_or(Refusal::TooFewResultSlots)
}

// The result events of a list that is made of raw tables.
pub fn resolve(list: &[Event], results: &mut [Event]) -> Result<usize, Refusal>
    ensures { (result ≡ resolve_answer list.now (length results.old))
        × (results.new ≡ resolve_slots list.now (length results.old)) }
{
    let answer = resolve_into(list, results);
    let keep = answer.unwrap_or(0);
    clear_from(results, keep, Event::BLANK);
    answer
}
