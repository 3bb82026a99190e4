// The words of a request, read one after another.
ghost use Rattle.std.specs.Prelude.{◌≡◌, ℕ, ◌≢◌, ◌<◌, ◌≤◌, ◌↔◌, [], IfSome, IsTrue, length, take, drop, slice_index};
ghost use Rattle.protocol.specs.Counts.{IsPrefixLen};
ghost use Rattle.protocol.specs.Words.{digit_of, pair_of, behind, next_word, is_hyphen};

use tokenizer::event::Event;

// What is still to be read of words that are parted by a byte.
#[derive(Clone, Copy)]
pub struct Words<'a> {
    pub rest: &'a [u8],
    pub separator: u8,
}

impl<'a> Words<'a> {
    // The words of a line behind its first, where that is a name.
    pub fn behind(line: &'a [u8], name: &[u8]) -> Option<Words<'a>>
        ensures name { IfSome result (λ _. take (length name.now) line.now ≡ name.now) }
        ensures rest { IfSome result (λ w. (w.rest.now ≡ drop (next_word line.now (length name.now)) line.now) × (w.separator ≡ 32)) }
    {
        let mut words = Words {
            rest: line,
            separator: b' ',
        };
        (words.word()? == name).then_some(words)
    }

    // The next word; none where nothing stands behind its separator.
    pub fn word(&mut self) -> Option<&'a [u8]>
        ensures within { length self.new.rest.now ≤ length self.old.rest.now }
        ensures separator { self.new.separator ≡ self.old.separator }
        ensures word { IfSome result (λ w. (w.now ≡ take (length w.now) self.old.rest.now) × (self.new.rest.now ≡ drop (behind self.old.separator self.old.rest.now (length w.now)) self.old.rest.now)) }
    {
        let text = self.rest;
        let (word, behind) = text.split_at(stop_at(text, self.separator));
        self.rest = match behind {
            [] => behind,
            [_] => return None,
            [_, rest @ ..] => rest,
        };
        Some(word)
    }

    // Whether nothing is left.
    pub fn is_done(&self) -> bool
        ensures { IsTrue result ↔ (self.now.rest.now ≡ []) }
    {
        self.rest.is_empty()
    }

    // The end, if it is here.
    pub fn end(&self) -> Option<()>
        ensures { IfSome result (λ _. self.now.rest.now ≡ []) }
    {
        self.is_done().then_some(())
    }

    // A number below 2^64.
    pub fn number(&mut self) -> Option<usize>
        ensures { length self.new.rest.now ≤ length self.old.rest.now }
    {
        decimal(self.word()?)
    }

    // A number up to a bound.
    pub fn number_to(&mut self, most: usize) -> Option<usize>
        ensures within { length self.new.rest.now ≤ length self.old.rest.now }
        ensures small { IfSome result (λ n. n ≤ most) }
    {
        self.number().filter(|n| *n <= most)
    }

    // A yes or no: 1 or 0.
    pub fn flag(&mut self) -> Option<bool>
        ensures { length self.new.rest.now ≤ length self.old.rest.now }
    {
        Some(self.number_to(1)? == 1)
    }

    // Bytes, in a lent sheet, and how many; a hyphen is none.
    pub fn bytes(&mut self, sheet: &mut [u8]) -> Option<usize>
        ensures { IfSome result (λ n. IsPrefixLen n sheet.new) }
    {
        let word = self.word()?;
        if is_hyphen(word) {
            return Some(0);
        }
        let (pairs, odd) = word.as_chunks::<2>();
        if pairs.is_empty() || !odd.is_empty() || sheet.len() < pairs.len() {
            return None;
        }
        for (slot, [high, low]) in sheet.iter_mut().zip(pairs) {
            *slot = pair(*high, *low)?;
        }
        Some(pairs.len())
    }

    // A number that a type holds.
    fn field<T: TryFrom<usize>>(&mut self) -> Option<T>
    where
        <T as TryFrom<usize>>::Error: Drop,
    {
        T::try_from(self.number()?).ok()
    }

    // An event: seven numbers joined by commas.
    pub fn event(&mut self) -> Option<Event>
        ensures { length self.new.rest.now ≤ length self.old.rest.now }
    {
        let mut numbers = Words {
            rest: self.word()?,
            separator: b',',
        };
        let event = Event {
            kind: numbers.field()?,
            name: numbers.field()?,
            line: numbers.field()?,
            column: numbers.field()?,
            index: numbers.field()?,
            vs: numbers.field()?,
            link: numbers.field()?,
        };
        numbers.end()?;
        Some(event)
    }

    // A list in lent slots: what is read until they are full or the line ends, and how many.
    pub fn list<T: Copy, F: Fn(&mut Words<'a>) -> Option<T>>(
        &mut self,
        slots: &mut [T],
        read: F,
    ) -> Option<usize>
        requires { F.IsAlwaysCallable read }
        ensures { IfSome result (λ n. n ≤ length slots.new) }
    {
        for (n, slot) in slots.iter_mut().enumerate() {
            if self.is_done() {
                return Some(n);
            }
            *slot = read(self)?;
        }
        Some(slots.len())
    }

    // As many of a list as there are slots.
    pub fn fill<T: Copy, F: Fn(&mut Words<'a>) -> Option<T>>(
        &mut self,
        slots: &mut [T],
        read: F,
    ) -> Option<()>
        requires { F.IsAlwaysCallable read }
    {
        let n = self.list(slots, read)?;
        (n == slots.len()).then_some(())
    }
}

// Where a byte stands first, or the text's end.
pub fn stop_at(text: &[u8], b: u8) -> usize
    ensures within { result ≤ length text.now }
    ensures at { result < length text.now → slice_index text.now result ≡ b }
    ensures before { (k : ℕ) → k < result → slice_index text.now k ≢ b }
{
    text.iter().position(|x| *x == b).unwrap_or(text.len())
}

// The number below 2^64 that a word is. (`parse` would take a plus sign.)
fn decimal(word: &[u8]) -> Option<usize> {
    if word.is_empty() {
        return None;
    }
    let mut value: usize = 0;
    for b in word {
        let d = match b {
            b'0'..=b'9' => b - b'0',
            _ => return None,
        };
        value = value.checked_mul(10)?.checked_add(usize::from(d))?;
    }
    Some(value)
}

// Whether a word is a hyphen: no bytes.
pub fn is_hyphen(word: &[u8]) -> bool
    ensures { result ≡ is_hyphen word.now 0 }
{
    matches!(word, [b'-'])
}

// The value of a hexadecimal digit in lower case.
#[tactic(auto, unfolding(crate::specs::Words::digit_of))]
pub fn digit(b: u8) -> Option<u8>
    ensures value { result ≡ digit_of b }
    ensures small { IfSome result (λ d. d < 16) }
{
    match b {
        b'0'..=b'9' => Some(b - b'0'),
        b'a'..=b'f' => Some(b - b'a' + 10),
        _ => None,
    }
}

// The byte of two hexadecimal digits.
pub fn pair(a: u8, b: u8) -> Option<u8>
    ensures { result ≡ pair_of a b }
{
    let high = digit(a)?;
    let low = digit(b)?;
    Some(high * 16 + low)
}
