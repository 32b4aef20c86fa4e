// The values of an element: id or target, size, type (document 01, "Elements").
ghost use Rattle.std.specs.Prelude.{◌≡◌, ◌&&◌, List, ℕ, ◌≤◌, MatchOption};
ghost use Rattle.elements.specs.rules.Class as Class;
ghost use Rattle.elements.specs.rules.Inside.{step, go, bad};
ghost use Rattle.inside.specs.Machine.{state_of};
ghost use Rattle.elements.specs.rules.Characters.{character_of};
ghost use Rattle.characters.specs.Codes.{alphabet_number};
ghost use Rattle.document.specs.rules.Value.{is_value, non_empty, every};
ghost use Rattle.document.specs.rules.Canonical.{value_before, size_before};
ghost use Rattle.validate.specs.internal.DraftWalk.{TakesValues, row_values};

use super::record::Row;
use characters::Alphabet;
use inside::step;
use kind::{Keyword, Kind};
use table::{HEIGHT, KEY, KEY_LENGTH, MISSING, TYPE, TYPE_LENGTH, WIDTH, key_class, part};

// A width or a height: "at most 65,535 each".
const MOST_SIZE: usize = 65535;

// The state after an expression of a class, where it is taken.
pub fn state_after(kind: u8, state: u8, class: u8) -> Option<u8>
    ensures { MatchOption result ((fault : ℕ) × (step kind (state_of kind state) class ≡ bad fault))
        (λ next. step kind (state_of kind state) class ≡ go (state_of kind next)) }
{
    step(kind, state, class).ok()
}

// Whether all bytes are characters of an alphabet.
fn fits(bytes: &[u8], alphabet: Alphabet) -> bool
    ensures { result ≡ every (character_of (alphabet_number alphabet)) bytes.now }
{
    bytes.iter().all(|&b| alphabet.has(b))
}

// The alphabet of a value of a class in an element of a kind.
fn sort(kind: u8, class: u8) -> Alphabet
    requires { (Class.id ≤ class) × (class ≤ Class.target) }
    ensures { (s : List ℕ) → is_value kind class s ≡ non_empty s && every (character_of (alphabet_number result)) s }
{
    if class == Keyword::TYPE.number {
        return Alphabet::Type;
    }
    if class == Keyword::ID.number {
        return Alphabet::Id;
    }
    if kind == Kind::LINK.number {
        return Alphabet::Id;
    }
    if kind == Kind::FOOTNOTE_REF.number {
        return Alphabet::Id;
    }
    Alphabet::Uri
}

// The state after a value, where it is there.
fn take_value(kind: u8, state: u8, class: u8, bytes: &[u8]) -> Option<u8>
    requires { (Class.id ≤ class) × (class ≤ Class.target) }
    ensures { TakesValues kind (value_before class bytes.now) state result }
{
    if bytes.is_empty() {
        return Some(state);
    }
    let next = state_after(kind, state, class)?;
    if fits(bytes, sort(kind, class)) {
        Some(next)
    } else {
        None
    }
}

// The state after a size, where it is there.
fn take_size(kind: u8, state: u8, width: usize, height: usize) -> Option<u8>
    ensures { TakesValues kind (size_before width height) state result }
{
    if width == MISSING {
        return Some(state);
    }
    if MOST_SIZE < width || MOST_SIZE < height {
        return None;
    }
    state_after(kind, state, Keyword::SIZE.number)
}

// The state after the values of an element of a kind, "id before type".
pub fn values(row: &Row, kind: u8, state: u8) -> Option<u8>
    ensures { TakesValues kind (row_values row.now kind) state result }
{
    let r = row.words;
    let pool = row.table.pool;
    let key = part(pool, r[KEY] as usize, r[KEY_LENGTH] as usize);
    let after_key = take_value(kind, state, key_class(kind as usize), key)?;
    let after_size = take_size(kind, after_key, r[WIDTH] as usize, r[HEIGHT] as usize)?;
    // most elements have no type
    if r[TYPE_LENGTH] == 0 {
        return Some(after_size);
    }
    let typename = part(pool, r[TYPE] as usize, r[TYPE_LENGTH] as usize);
    take_value(kind, after_size, Keyword::TYPE.number, typename)
}
