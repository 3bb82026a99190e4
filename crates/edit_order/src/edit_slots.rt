// The edit slots, five numbers an edit. Numbers behind the last whole group of five are neither read nor written.
// They stay plain numbers: the C interface lends them so.
ghost use Rattle.std.specs.Prelude.{◌≡◌, ◌<◌, ◌+◌, length, map, get_or, set};
ghost use Rattle.edit_order.specs.EditSlots.{edits_of, holding};
ghost use Rattle.edit_order.specs.EditFives.{no_edit, edit_of, numbers, store};

// An edit: a position, a number removed, a stretch of the pool, and whether it goes before earlier additions (0 is no).
#[derive(Clone, Copy)]
pub struct Edit {
    pub at: usize,
    pub removes: usize,
    pub from: usize,
    pub adds: usize,
    // A number: an edit is written back as it came, and an `Option<usize>` would hold 0 in two ways.
    pub before: usize,
}

// The edit that five numbers are.
impl From<[usize; 5]> for Edit {
    ghost from_gives = { λ g e. e ≡ edit_of g };

    fn from([at, removes, from, adds, before]: [usize; 5]) -> Edit {
        Edit {
            at,
            removes,
            from,
            adds,
            before,
        }
    }
}

// The five numbers that an edit is.
impl From<Edit> for [usize; 5] {
    ghost from_gives = { λ e g. g ≡ numbers e };

    fn from(e: Edit) -> [usize; 5] {
        [e.at, e.removes, e.from, e.adds, e.before]
    }
}

// The numbers of each edit.
#[tactic(auto, using(crate::proofs::EditSlots::groups))]
pub fn groups(edits: &[usize]) -> &[[usize; 5]]
    ensures { map edit_of result.now ≡ edits_of edits.now }
{
    edits.as_chunks::<5>().0
}

// How many edits there are.
#[tactic(auto, using(crate::proofs::EditSlots::number_is))]
pub fn number(edits: &[usize]) -> usize
    ensures { result ≡ length (edits_of edits.now) }
{
    edits.len() / 5
}

// The edit with a number, from 0.
#[tactic(auto, using(crate::proofs::EditSlots::get_is))]
pub fn get(edits: &[usize], i: usize) -> Edit
    requires { i < length (edits_of edits.now) }
    ensures { result ≡ get_or (edits_of edits.now) i no_edit }
{
    Edit::from(groups(edits)[i])
}

// An edit's numbers, stored from k on, each by itself: `copy_from_slice` takes them through the stack, and edits in random order took 1.4 times
// as long to sort.
fn write_at(edits: &mut [usize], k: usize, e: Edit)
    requires { k + 4 < length edits.old }
    ensures { edits.new ≡ store edits.old k e }
{
    edits[k] = e.at;
    edits[k + 1] = e.removes;
    edits[k + 2] = e.from;
    edits[k + 3] = e.adds;
    edits[k + 4] = e.before;
}

// An edit takes the place of the one with a number.
pub fn put(edits: &mut [usize], i: usize, e: Edit)
    requires { i < length (edits_of edits.old) }
    ensures { edits.new ≡ holding (set (edits_of edits.old) i e) edits.old }
{
    write_at(edits, 5 * i, e)
}
