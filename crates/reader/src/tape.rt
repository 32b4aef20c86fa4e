// The tape: an entry for each node that the judging walk meets, in the order of the nodes, for the fill. A node past 4,095 is noted nowhere.
ghost use Rattle.std.specs.Prelude.{◌≡◌, ◌≤◌};
ghost use Rattle.reader.specs.internal.Tape.{entered, left, key_noted, type_noted, size_noted};
ghost use Rattle.reader.specs.internal.TapeWord.{most_word};

use base::limit::MOST_NODES;
use table::MISSING;

const MISSING_WORD: u32 = MISSING as u32;

// What is noted of a node: its place, class and parent, the number after that of its last descendant, the places of what its id or target
// and its type hold, 0 where there is none, and its width and height, `MISSING` where there is none.
// An `Option` of a word takes two words, and the tape is on the stack: so none is a word here.
#[derive(Clone, Copy)]
pub struct Entry {
    pub place: u32,
    pub class: u32,
    pub parent: u32,
    pub end: u32,
    pub key: u32,
    pub typename: u32,
    pub width: u32,
    pub height: u32,
}

pub type Tape = [Entry; MOST_NODES];

// What the tape has of a node that was not met.
pub const NOT_MET: Entry = Entry {
    place: 0,
    class: 0,
    parent: 0,
    end: 0,
    key: 0,
    typename: 0,
    width: 0,
    height: 0,
};

// A node is entered, and none of its values is known yet.
#[tactic(auto, unfolding(crate::specs::internal::Tape::entered))]
pub fn enter(tape: &mut Tape, node: usize, at: usize, class: u8, parent: usize, end: usize)
    requires { (at ≤ most_word) × (parent ≤ most_word) × (end ≤ most_word) }
    ensures { tape.new ≡ entered tape.old node at class parent end }
{
    if node < MOST_NODES {
        tape[node] = Entry {
            place: at as u32,
            class: class as u32,
            parent: parent as u32,
            end: end as u32,
            key: 0,
            typename: 0,
            width: MISSING_WORD,
            height: MISSING_WORD,
        };
    }
}

// It is left: its last descendant is the node before `end`.
#[tactic(auto, unfolding(crate::specs::internal::Tape::left))]
pub fn leave(tape: &mut Tape, node: usize, end: usize)
    requires { end ≤ most_word }
    ensures { tape.new ≡ left tape.old node end }
{
    if node < MOST_NODES {
        tape[node].end = end as u32;
    }
}

// The place of what its id or target holds.
#[tactic(auto, unfolding(crate::specs::internal::Tape::key_noted))]
pub fn note_key(tape: &mut Tape, node: usize, place: usize)
    requires { place ≤ most_word }
    ensures { tape.new ≡ key_noted tape.old node place }
{
    if node < MOST_NODES {
        tape[node].key = place as u32;
    }
}

// The place of what its type holds.
#[tactic(auto, unfolding(crate::specs::internal::Tape::type_noted))]
pub fn note_type(tape: &mut Tape, node: usize, place: usize)
    requires { place ≤ most_word }
    ensures { tape.new ≡ type_noted tape.old node place }
{
    if node < MOST_NODES {
        tape[node].typename = place as u32;
    }
}

// Its size.
#[tactic(auto, unfolding(crate::specs::internal::Tape::size_noted))]
pub fn note_size(tape: &mut Tape, node: usize, width: usize, height: usize)
    requires { (width ≤ most_word) × (height ≤ most_word) }
    ensures { tape.new ≡ size_noted tape.old node width height }
{
    if node < MOST_NODES {
        tape[node] = Entry {
            width: width as u32,
            height: height as u32,
            ..tape[node]
        };
    }
}
