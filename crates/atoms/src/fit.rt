// Whether what a symbol or string stands for are characters of an alphabet.
ghost use Rattle.std.specs.Prelude.{◌≡◌, ◌≤◌, drop};
ghost use Rattle.syntax.specs.reference.Scan.{ordinary_run, quoted_from};
ghost use Rattle.characters.specs.Codes.{alphabet_number};
ghost use Rattle.atoms.specs.Atom.{atom_value, content_of, fits};

use super::pieces::piece;
use super::string::string_at;
use characters::{Alphabet, is_ordinary};

// The characters of types and ids are all ordinary bytes, so that the symbol goes on at each.
fn word_fits(text: &[u8], place: usize, alphabet: Alphabet) -> bool
    requires { alphabet_number alphabet ≤ 1 }
    ensures { result ≡ fits (alphabet_number alphabet) (ordinary_run (drop place text.now)) }
{
    for i in place..text.len() {
        let b = text[i];
        if !alphabet.has(b) {
            return !is_ordinary(b);
        }
    }
    true
}

// The symbol ends at the first byte that is no part of one, which may be a character of a URI.
fn uri_fits(text: &[u8], place: usize) -> bool
    ensures { result ≡ fits 2 (ordinary_run (drop place text.now)) }
{
    for i in place..text.len() {
        let b = text[i];
        let ordinary = is_ordinary(b);
        if !Alphabet::Uri.has(b) {
            return !ordinary;
        }
        if !ordinary {
            return true;
        }
    }
    true
}

// A loop for each alphabet, so that it is not asked at each byte.
#[tactic(auto, unfolding(characters::specs::Codes::alphabet_number))]
fn symbol_fits(text: &[u8], place: usize, alphabet: Alphabet) -> bool
    ensures { result ≡ fits (alphabet_number alphabet) (ordinary_run (drop place text.now)) }
{
    match alphabet {
        Alphabet::Type => word_fits(text, place, Alphabet::Type),
        Alphabet::Id => word_fits(text, place, Alphabet::Id),
        Alphabet::Uri => uri_fits(text, place),
    }
}

// The string whose opening quote is at a place; one that has a fault stands for nothing, and a fault is looked for only
// where a piece does not fit. A piece's first byte decides: where it stands for more than one, they are from 0x80 on,
// and no character of any alphabet.
fn string_fits(text: &[u8], place: usize, alphabet: Alphabet) -> bool
    ensures { result ≡ fits (alphabet_number alphabet) (content_of (quoted_from 0 1 (drop 1 (drop place text.now)))) }
{
    if text.len() <= place {
        return true;
    }
    let mut i = place + 1;
    while i < text.len() {
        let Some(p) = piece(text, i) else {
            return true;
        };
        if !alphabet.has(p.first) {
            return string_at(text, place).is_err();
        }
        i = p.next;
    }
    true
}

// Whether all that the symbol or string at a place stands for are characters of an alphabet.
pub fn atom_is_in(text: &[u8], place: usize, alphabet: Alphabet) -> bool
    ensures { result ≡ fits (alphabet_number alphabet) (atom_value (drop place text.now)) }
{
    if text.get(place) == Some(&b'"') {
        return string_fits(text, place, alphabet);
    }
    symbol_fits(text, place, alphabet)
}

// The same by the number of an alphabet: 0 of a type, 1 of an id, any other of a URI.
pub fn atom_fits(text: &[u8], place: usize, sort: u8) -> bool
    ensures { result ≡ fits sort (atom_value (drop place text.now)) }
{
    atom_is_in(text, place, Alphabet::from(sort))
}
