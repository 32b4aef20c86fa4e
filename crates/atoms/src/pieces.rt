// The pieces of a quoted string (document 01: "Escapes: `\r \n \t \"` and `\u` with four hex digits").
ghost use Rattle.std.specs.Prelude.{◌≡◌, ◌+◌, ◌%◌, ◌<◌, drop, get_or, length};
ghost use Rattle.utf8.specs.rules.Scalar.{encode};
ghost use Rattle.syntax.specs.reference.Scan.{escape_at};
ghost use Rattle.atoms.specs.Atom.{piece_at};
ghost use Rattle.atoms.specs.internal.PieceSeen.{piece_seen};

use super::escape::number_at;

// A piece: the place after it, and the one to three bytes that it stands for.
#[derive(Clone, Copy, Debug, PartialEq, Eq)]
pub struct PieceSeen {
    pub next: usize,
    pub size: usize,
    pub first: u8,
    pub second: u8,
    pub third: u8,
}

// A piece that stands for one byte.
fn one(b: u8, next: usize) -> PieceSeen
    ensures { result ≡ record { next = next; size = 1; first = b; second = 0; third = 0 } }
{
    PieceSeen {
        next,
        size: 1,
        first: b,
        second: 0,
        third: 0,
    }
}

// A byte after the first carries six bits.
fn further(n: u16) -> u8
    ensures { result ≡ 0x80 + n % 64 }
{
    (0x80 + n % 64) as u8
}

// A piece that stands for the encoding of a number.
#[tactic(auto, unfolding(utf8::specs::rules::Scalar::encode))]
fn encoded(n: u16, next: usize) -> PieceSeen
    ensures { result ≡ record {
      next = next;
      size = length (encode n);
      first = get_or (encode n) 0 0;
      second = get_or (encode n) 1 0;
      third = get_or (encode n) 2 0;
    } }
{
    match n {
        0..=0x7F => one(n as u8, next),
        0x80..=0x7FF => PieceSeen {
            next,
            size: 2,
            first: (0xC0 + n / 64) as u8,
            second: further(n),
            third: 0,
        },
        _ => PieceSeen {
            next,
            size: 3,
            first: (0xE0 + n / 4096) as u8,
            second: further(n / 64),
            third: further(n),
        },
    }
}

// The escape whose backslash is at a place.
fn escape_at(text: &[u8], place: usize) -> Option<PieceSeen>
    requires { place < length text.now }
    ensures { result ≡ piece_seen place (escape_at (drop (place + 1) text.now)) }
{
    match *text.get(place + 1)? {
        b'u' => Some(encoded(number_at(text, place)?, place + 6)),
        b'r' => Some(one(b'\r', place + 2)),
        b'n' => Some(one(b'\n', place + 2)),
        b't' => Some(one(b'\t', place + 2)),
        b'"' => Some(one(b'"', place + 2)),
        _ => None,
    }
}

// The piece at a place of the text: none at a quote, and at a backslash that begins no escape. Past the text's end
// nothing is said.
pub fn piece(text: &[u8], place: usize) -> Option<PieceSeen>
    ensures { place < length text.now → result ≡ piece_seen place (piece_at (drop place text.now)) }
{
    match *text.get(place)? {
        b'\\' => escape_at(text, place),
        b'"' => None,
        b => Some(one(b, place + 1)),
    }
}
