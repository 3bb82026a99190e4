// What `sheet` answers.
ghost use Rattle.std.specs.Prelude.{◌≡◌, [], ◌∷◌};

// Of a sheet that is accepted: the numbers of its tables, raw events, result events and alignments.
#[derive(Clone, Copy, PartialEq, Eq)]
pub struct SheetCounts {
    pub tables: usize,
    pub events: usize,
    pub results: usize,
    pub alignments: usize,
}

impl From<SheetCounts> for [usize; 4] {
    ghost from_gives = { λ c out. out ≡ c.tables ∷ c.events ∷ c.results ∷ c.alignments ∷ [] };

    // Tables, raw events, result events and alignments.
    fn from(c: SheetCounts) -> [usize; 4] {
        [c.tables, c.events, c.results, c.alignments]
    }
}

impl SheetCounts {
    // Before the first table.
    pub const NONE: SheetCounts = SheetCounts {
        tables: 0,
        events: 0,
        results: 0,
        alignments: 0,
    };
}
