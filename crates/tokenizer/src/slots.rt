// Slots that are lent: an event is read or written, and slots of any type are cleared from a place on.
ghost use Rattle.std.specs.Prelude.{◌≡◌, ◌<◌, ◌+◌, ◌^◌, set};
ghost use Rattle.tokenizer.specs.Slots.{event_at, cleared, wrote, slot_if, past_if, event_if};

use crate::event::Event;

// The event at a place, or a blank one past the end. No `Option`: 01 has a record for no event, and each turn of the
// resolver takes a record.
pub fn at_or_blank(list: &[Event], i: usize) -> Event
    ensures { result ≡ event_at list.now i }
{
    list.get(i).copied().unwrap_or(Event::BLANK)
}

// A slot is written, where there is one.
pub fn put(slots: &mut [Event], i: usize, e: Event)
    ensures { slots.new ≡ set slots.old i e }
{
    if i < slots.len() {
        slots[i] = e;
    }
}

// The place of a slot that is written, or one past all slots where none is: for whoever writes by places. It asks nothing, and `put_if` asks that the
// next place is a number.
pub fn slot_if(go: bool, i: usize) -> usize
    ensures { result ≡ slot_if go i }
{
    if go { i } else { usize::MAX }
}

// An event is written, or none; the next slot. No `Option` of the event: callers have the flag, and each would wrap what is unwrapped here at once.
pub fn put_if(slots: &mut [Event], go: bool, i: usize, e: Event) -> usize
    requires { i + 1 < 2 ^ 64 }
    ensures { (result ≡ past_if go i) × (slots.new ≡ wrote i (event_if go e) slots.old) }
{
    if go {
        put(slots, i, e);
        return i + 1;
    }
    i
}

// The slots from a place on are made blank, and those before it stay. No `fill`: it requires a `clone` that cannot fail, and that a type is `Copy`
// tells nothing of its `clone`.
pub fn clear_from<T: Copy>(slots: &mut [T], n: usize, blank: T)
    ensures { slots.new ≡ cleared blank n slots.old }
{
    for i in n..slots.len() {
        slots[i] = blank;
    }
}
