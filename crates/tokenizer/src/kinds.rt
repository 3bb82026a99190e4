// The kind of each byte value: 01's table, which is built in, and a lent one (02, U9).
ghost use Rattle.std.specs.Prelude.{◌≡◌, ◌≤◌, ◌<◌, length};
ghost use Rattle.tokenizer.specs.Bytes.{kind_number, kind_of, built_in, kind_in, Passes, exact, kinds_refusal};
ghost use Rattle.tokenizer.specs.Refusals.{answered};
ghost use Rattle.tokenizer.specs.Tallies.{tally_step, tallied, no_tally, Few, single_by, refusal_by};

use crate::refusal::Refusal;

// The kind of a byte, by the numbers of 01.
#[derive(Clone, Copy, PartialEq, Eq)]
pub enum Kind {
    Other = 0,
    Space = 1,
    End = 2,
    Pipe = 3,
    Backslash = 4,
    Hyphen = 5,
    Colon = 6,
}

// The table of 01, in numbers, since a table of kinds is lent as bytes by C.
const KINDS: [u8; 256] = [
    0, 0, 0, 0, 0, 0, 0, 0, 0, 1, 2, 0, 0, 2, 0, 0, 0, 0, 0, 0, 0, 0, 0, 0, 0, 0, 0, 0, 0, 0, 0, 0,
    1, 0, 0, 0, 0, 0, 0, 0, 0, 0, 0, 0, 0, 5, 0, 0, 0, 0, 0, 0, 0, 0, 0, 0, 0, 0, 6, 0, 0, 0, 0, 0,
    0, 0, 0, 0, 0, 0, 0, 0, 0, 0, 0, 0, 0, 0, 0, 0, 0, 0, 0, 0, 0, 0, 0, 0, 0, 0, 0, 0, 4, 0, 0, 0,
    0, 0, 0, 0, 0, 0, 0, 0, 0, 0, 0, 0, 0, 0, 0, 0, 0, 0, 0, 0, 0, 0, 0, 0, 0, 0, 0, 0, 3, 0, 0, 0,
    0, 0, 0, 0, 0, 0, 0, 0, 0, 0, 0, 0, 0, 0, 0, 0, 0, 0, 0, 0, 0, 0, 0, 0, 0, 0, 0, 0, 0, 0, 0, 0,
    0, 0, 0, 0, 0, 0, 0, 0, 0, 0, 0, 0, 0, 0, 0, 0, 0, 0, 0, 0, 0, 0, 0, 0, 0, 0, 0, 0, 0, 0, 0, 0,
    0, 0, 0, 0, 0, 0, 0, 0, 0, 0, 0, 0, 0, 0, 0, 0, 0, 0, 0, 0, 0, 0, 0, 0, 0, 0, 0, 0, 0, 0, 0, 0,
    0, 0, 0, 0, 0, 0, 0, 0, 0, 0, 0, 0, 0, 0, 0, 0, 0, 0, 0, 0, 0, 0, 0, 0, 0, 0, 0, 0, 0, 0, 0, 0,
];

impl Kind {
    // The kind that has a number, at most 6. The last case takes any other: with a test of its own there a line without a table
    // took 12.1 instructions a byte, and took 9.1 without.
    pub fn numbered(k: u8) -> Kind
        requires { k ≤ 6 }
        ensures { kind_number result ≡ k }
    {
        match k {
            0 => Kind::Other,
            1 => Kind::Space,
            2 => Kind::End,
            3 => Kind::Pipe,
            4 => Kind::Backslash,
            5 => Kind::Hyphen,
            _ => Kind::Colon,
        }
    }

    // The kind of a byte by the built-in table.
    pub fn of(b: u8) -> Kind
        ensures { kind_number result ≡ kind_of b }
    {
        Kind::numbered(KINDS[b as usize])
    }
}

// The table of 01, to lend.
pub fn builtin() -> [u8; 256]
    ensures { result ≡ built_in }
{
    KINDS
}

// The kind of a byte by a table that is lent.
pub fn kind_in(kinds: &[u8], b: u8) -> Kind
    requires { Passes kinds.now }
    ensures { kind_number result ≡ kind_in kinds.now b }
{
    Kind::numbered(kinds[b as usize])
}

// What a pass over a table finds: whether no kind is above 6, whether kinds 1 and 2 are those of their bytes, and how many bytes each of
// kinds 3 to 6 has. No array: each kind is counted under its name, and not at its number less 3.
#[derive(Clone, Copy)]
pub struct Tally {
    pub known: bool,
    pub exact: bool,
    pub pipes: usize,
    pub backslashes: usize,
    pub hyphens: usize,
    pub colons: usize,
}

// Whether a byte may have a kind: 1 for bytes 9 and 32 and no other, 2 for bytes 10 and 13 and no other.
pub fn entry_exact(b: usize, k: u8) -> bool
    ensures { result ≡ exact b k }
{
    match b {
        9 | 32 => k == Kind::Space as u8,
        10 | 13 => k == Kind::End as u8,
        _ => k != Kind::Space as u8 && k != Kind::End as u8,
    }
}

impl Tally {
    // Before the first entry.
    pub const NONE: Tally = Tally {
        known: true,
        exact: true,
        pipes: 0,
        backslashes: 0,
        hyphens: 0,
        colons: 0,
    };

    // One entry more: the byte b and its kind.
    pub fn step(self, b: usize, k: u8) -> Tally
        requires { Few self b × b < 256 }
        ensures { result ≡ tally_step self b k }
    {
        Tally {
            known: self.known && k <= 6,
            exact: self.exact && entry_exact(b, k),
            pipes: self.pipes + usize::from(k == Kind::Pipe as u8),
            backslashes: self.backslashes + usize::from(k == Kind::Backslash as u8),
            hyphens: self.hyphens + usize::from(k == Kind::Hyphen as u8),
            colons: self.colons + usize::from(k == Kind::Colon as u8),
        }
    }

    // All entries of a table, in one pass.
    pub fn of(kinds: &[u8]) -> Tally
        requires { length kinds.now ≡ 256 }
        ensures { result ≡ tallied no_tally 0 kinds.now }
    {
        let mut t = Tally::NONE;
        for (b, k) in kinds.iter().enumerate() {
            t = t.step(b, *k);
        }
        t
    }

    // Question 22, where q is the kind of `>`.
    pub fn is_single(self, q: u8) -> bool
        ensures { result ≡ single_by self q }
    {
        self.pipes == 1
            && self.backslashes == 1
            && self.hyphens == 1
            && self.colons == 1
            && q == Kind::Other as u8
    }

    // Questions 20, 21 and 22 of a table of 256 entries: the first answered no.
    pub fn asked(self, q: u8) -> Result<(), Refusal>
        ensures { result ≡ answered (refusal_by self q) tt }
    {
        if !self.known {
            return Err(Refusal::NoKindTable);
        }
        if !self.exact {
            return Err(Refusal::WhitespaceKindsDiffer);
        }
        if !self.is_single(q) {
            return Err(Refusal::PunctuationKindsDiffer);
        }
        Ok(())
    }
}

// Questions 20, 21 and 22 of a table that is lent: the first answered no.
pub fn asked(kinds: &[u8]) -> Result<(), Refusal>
    ensures { result ≡ answered (kinds_refusal kinds.now) tt }
{
    if kinds.len() != 256 {
        return Err(Refusal::NoKindTable);
    }
    Tally::of(kinds).asked(kinds[b'>' as usize])
}
