// The value of a parameter: of an id, a target or a type one text or symbol, of a size two numbers. What is malformed is refused by 10.
ghost use Rattle.std.specs.Prelude.{◌≡◌, cond, ◌&&◌, ℕ, ◌+◌, ◌≤◌, eqb};
ghost use lib.ListN.{length, take, drop};
ghost use Rattle.elements.specs.rules.Class as Class;
ghost use Rattle.syntax.specs.rules.Expression.{Exprs, Expr};
ghost use Rattle.characters.specs.Codes.{alphabet_number};
ghost use Rattle.atoms.specs.Atom.{atom_value};
ghost use Rattle.document.specs.rules.Value.{non_empty, is_value, names_block};
ghost use Rattle.document.specs.reference.Meaning.{judge_value, value_tree, size_tree, number_of};
ghost use Rattle.reader.specs.internal.RunStands.{RunStands};
ghost use Rattle.reader.specs.internal.Counts.{value_size};
ghost use Rattle.reader.specs.internal.WalkAnswer.{told, walked_to};
ghost use Rattle.reader.specs.internal.Walks.{WalkStarts, Within};
ghost use Rattle.reader.specs.internal.ParameterValue.{HoldsOne, ReadsNumber, Notes, holds_sort, number_or_none};

use super::tape::{Tape, note_key, note_size, note_type};
use super::walk::{Element, Opening, Reached, Refused, Walked, closes};
use atoms::atom_is_in;
use base::Refusal;
use characters::Alphabet;
use kind::{Keyword, Kind};
use lexer::{A_STRING, A_SYMBOL, THE_END, look};

// Parameters by their numbers.
const ID: u8 = Keyword::ID.number;

const TYPE_NAME: u8 = Keyword::TYPE.number;

const TARGET: u8 = Keyword::TARGET.number;

const SIZE: u8 = Keyword::SIZE.number;

// The elements whose target names a block.
const LINK: u8 = Kind::LINK.number;

const FOOTNOTE_REF: u8 = Kind::FOOTNOTE_REF.number;

// The largest width or height, and how many digits one has at most.
const MOST_NUMBER: usize = 65535;

const MOST_DIGITS: usize = 5;

// The one text or symbol of a run: its place, the length of what it stands for, and the place where the run ends.
#[derive(Clone, Copy)]
pub struct One {
    pub place: usize,
    pub length: usize,
    pub end: usize,
}

// A width or height, and the place after it.
#[derive(Clone, Copy)]
pub struct Number {
    pub number: usize,
    pub next: usize,
}

// What a parameter of a class holds from `from` on; of a type only a symbol counts.
fn only(text: &[u8], from: usize, class: u8) -> Option<One>
    requires { from ≤ length text.now }
    ensures { HoldsOne text.now from class result }
{
    let first = look(text, from);
    let next = first.next;
    if !is_held(class, first.sort) {
        return None;
    }
    // Not where expressions stand.
    if next <= from {
        return None;
    }
    let one = One {
        place: first.place,
        length: first.length,
        end: next,
    };
    if closes(text, next) {
        return Some(one);
    }
    let last = look(text, next);
    if last.sort != THE_END {
        return None;
    }
    Some(One {
        end: last.place,
        ..one
    })
}

// What is seen is a symbol, or, but in a type, a string.
fn is_held(class: u8, sort: u8) -> bool
    ensures { result ≡ holds_sort class sort }
{
    if sort == A_SYMBOL {
        return true;
    }
    if class == TYPE_NAME {
        return false;
    }
    sort == A_STRING
}

// The symbol or string at `place` has the characters of a value of a class in an element of a kind.
fn is_value(text: &[u8], place: usize, kind: u8, class: u8) -> bool
    ensures { non_empty (atom_value (drop place text.now)) && result ≡ is_value kind class (atom_value (drop place text.now)) }
{
    match class {
        ID => atom_is_in(text, place, Alphabet::Id),
        TYPE_NAME => atom_is_in(text, place, Alphabet::Type),
        TARGET => atom_is_in(text, place, target_sort(kind)),
        _ => false,
    }
}

// The characters of a target: those of an id where it names a block, else those of a URI.
#[tactic(auto, unfolding(document::specs::rules::Value::names_block, characters::specs::Codes::alphabet_number))]
fn target_sort(kind: u8) -> Alphabet
    ensures { alphabet_number result ≡ cond (names_block kind) 1 2 }
{
    match kind {
        LINK | FOOTNOTE_REF => Alphabet::Id,
        _ => Alphabet::Uri,
    }
}

// The number that `length` bytes from `place` on write, where they are one to five decimal digits.
fn decimal(text: &[u8], place: usize, length: usize) -> Option<usize>
    requires { place + length ≤ lib.ListN.length text.now }
    ensures { number_or_none result ≡ number_of (Expr.symbol place (take length (drop place text.now))) }
{
    if length == 0 || MOST_DIGITS < length {
        return None;
    }
    let end = place + length;
    let mut number: usize = 0;
    for &b in &text[place..end] {
        if !b.is_ascii_digit() {
            return None;
        }
        number = number * 10 + (b - b'0') as usize;
    }
    Some(number)
}

// The width or height that is seen from `from` on.
fn number_at(text: &[u8], from: usize) -> Option<Number>
    requires { from ≤ length text.now }
    ensures { ReadsNumber text.now from result }
{
    let seen = look(text, from);
    let next = seen.next;
    // The latter not where expressions stand.
    if seen.sort != A_SYMBOL || next <= from {
        return None;
    }
    let number = decimal(text, seen.place, seen.length)?;
    if MOST_NUMBER < number {
        return None;
    }
    Some(Number { number, next })
}

// A size, from the place after its name on; its numbers are noted of the element's node.
fn size(text: &[u8], parent: Element, at: usize, from: Reached, tape: &mut Tape) -> Walked
    requires { WalkStarts text.now from parent.node }
    ensures bounded { Within text.now from result }
    ensures value { (es : Exprs) (m : ℕ) → RunStands text.now from.place es m
        → told result ≡ walked_to m from.nodes from.pool (judge_value parent.kind at (size_tree es)) }
    ensures notes { Notes text.now from.place Class.size parent.node tape.old (told result) tape.new }
{
    let malformed = Refused {
        refusal: Refusal::Malformed,
        place: at,
    };
    let width = number_at(text, from.place).ok_or(malformed)?;
    let height = number_at(text, width.next).ok_or(malformed)?;
    let last = look(text, height.next);
    if last.sort != THE_END {
        return Err(malformed);
    }
    note_size(tape, parent.node, width.number, height.number);
    Ok(Reached {
        place: last.place,
        ..from
    })
}

// A parameter's list in an element, from the place after its name on; the place of what it holds is noted of the element's node.
pub fn value(text: &[u8], parent: Element, list: Opening, from: Reached, tape: &mut Tape) -> Walked
    requires { WalkStarts text.now from parent.node }
    ensures bounded { Within text.now from result }
    ensures value { (es : Exprs) (m : ℕ) → RunStands text.now from.place es m
        → told result ≡ walked_to m from.nodes (from.pool + value_size list.class es) (judge_value parent.kind list.at (value_tree list.class es)) }
    ensures notes { Notes text.now from.place list.class parent.node tape.old (told result) tape.new }
{
    if list.class == SIZE {
        return size(text, parent, list.at, from, tape);
    }
    let malformed = Refused {
        refusal: Refusal::Malformed,
        place: list.at,
    };
    let one = only(text, from.place, list.class).ok_or(malformed)?;
    if !is_value(text, one.place, parent.kind, list.class) {
        return Err(malformed);
    }
    if list.class == TYPE_NAME {
        note_type(tape, parent.node, one.place);
    } else {
        note_key(tape, parent.node, one.place);
    }
    Ok(Reached {
        place: one.end,
        pool: from.pool + one.length,
        ..from
    })
}
