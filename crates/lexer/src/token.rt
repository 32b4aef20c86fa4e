// White space, and what is seen at a place (document 01, "Characters and brackets").
ghost use Rattle.std.specs.Prelude.{◌≡◌, drop, length, ◌+◌, ◌<◌};
ghost use Rattle.elements.specs.rules.Class as Class;
ghost use Rattle.syntax.specs.reference.Scan.{ordinary_run};
ghost use Rattle.atoms.specs.Atom.{string_at};
ghost use Rattle.lexer.specs.Token.{a_list, a_string, a_symbol, blanks, lead_class_at, lead_length, seen, seen_first, the_end};

use super::name::name_at;
use atoms::{StringEnd, string_at};
use characters::{ByteClass, byte_class, is_blank, symbol_end};

// The sorts of what is seen at a place, under the names of specs/Token.antt: the end of the run, a symbol, a string, a list.
pub const THE_END: u8 = 0;

pub const A_SYMBOL: u8 = 1;

pub const A_STRING: u8 = 2;

pub const A_LIST: u8 = 3;

// What is seen at a place after white space: the end of the run, a symbol, a string or a list.
#[derive(Clone, Copy)]
pub struct Seen {
    pub sort: u8,
    pub place: usize,
    pub class: u8,
    pub next: usize,
    pub length: usize,
}

// The name that leads a list: its class, and the place after it.
#[derive(Clone, Copy)]
pub struct Lead {
    pub class: u8,
    pub next: usize,
}

// The place after white space, of which most often there is none, or one space.
pub fn past_blanks(text: &[u8], place: usize) -> usize
    ensures { result ≡ place + blanks (drop place text.now) }
{
    if text.len() <= place {
        return place;
    }
    let b = text[place];
    if 0x20 < b {
        return place;
    }
    if b == 0x20
        && let Some(&next) = text.get(place + 1)
        && 0x20 < next
    {
        return place + 1;
    }
    skip_blanks(text, place)
}

// The same, byte by byte: a carriage return is white space where a line feed follows. Bytes above the space, as most are,
// are told by one test.
pub fn skip_blanks(text: &[u8], place: usize) -> usize
    ensures { result ≡ place + blanks (drop place text.now) }
{
    for at in place..text.len() {
        let b = text[at];
        if 0x20 < b {
            return at;
        }
        if !is_blank(b) {
            if b != b'\r' {
                return at;
            }
            if text.get(at + 1) != Some(&b'\n') {
                return at;
            }
        }
    }
    place.max(text.len())
}

// The end of the run at a place.
fn nothing_seen(place: usize) -> Seen
    ensures { (result.sort ≡ the_end) × (result.place ≡ place) × (result.class ≡ 0) × (result.next ≡ place) × (result.length ≡ 0) }
{
    Seen {
        sort: THE_END,
        place,
        class: 0,
        next: place,
        length: 0,
    }
}

// The symbol at a place, which stands for its own bytes.
fn symbol_seen(text: &[u8], place: usize) -> Seen
    ensures { (result.sort ≡ a_symbol)
        × (result.place ≡ place)
        × (result.class ≡ Class.text)
        × (result.next ≡ place + length (ordinary_run (drop place text.now)))
        × (result.length ≡ length (ordinary_run (drop place text.now))) }
{
    let next = symbol_end(text, place);
    Seen {
        sort: A_SYMBOL,
        place,
        class: kind::Kind::TEXT.number,
        next,
        length: next - place,
    }
}

// The string whose opening quote is at a place; one that has a fault, which no text has that was scanned, ends nowhere.
fn string_seen(text: &[u8], place: usize) -> Seen
    ensures { (result.sort ≡ a_string)
        × (result.place ≡ place)
        × (result.class ≡ Class.text)
        × (result.next ≡ (string_at place (drop place text.now)).next)
        × (result.length ≡ (string_at place (drop place text.now)).length) }
{
    let none = StringEnd { next: 0, length: 0 };
    let string = string_at(text, place).unwrap_or(none);
    Seen {
        sort: A_STRING,
        place,
        class: kind::Kind::TEXT.number,
        next: string.next,
        length: string.length,
    }
}

// The name that leads the list whose opening bracket stands before a place: its class, and the place after it.
pub fn lead_at(text: &[u8], place: usize) -> Lead
    ensures { (result.class ≡ lead_class_at (drop place text.now)) × (result.next ≡ place + lead_length (drop place text.now)) }
{
    if text.len() <= place {
        return Lead {
            class: 0,
            next: place,
        };
    }
    let told = name_at(text, place);
    if told != 0 {
        return Lead {
            class: (told % 32) as u8,
            next: place + told / 32,
        };
    }
    let from = skip_blanks(text, place);
    let next = symbol_end(text, from);
    let class = kind::class_of(&text[from..next]);
    Lead { class, next }
}

// The list whose opening bracket is at a place: the name that leads it tells its class.
fn list_seen(text: &[u8], place: usize) -> Seen
    requires { place < length text.now }
    ensures { (result.sort ≡ a_list)
        × (result.place ≡ place)
        × (result.class ≡ lead_class_at (drop (place + 1) text.now))
        × (result.next ≡ place + 1 + lead_length (drop (place + 1) text.now))
        × (result.length ≡ 0) }
{
    let lead = lead_at(text, place + 1);
    Seen {
        sort: A_LIST,
        place,
        class: lead.class,
        next: lead.next,
        length: 0,
    }
}

// What is seen at a place where no white space stands.
fn first_seen(text: &[u8], place: usize) -> Seen
    ensures { (result.sort ≡ (seen_first place (drop place text.now)).sort)
        × (result.place ≡ (seen_first place (drop place text.now)).place)
        × (result.class ≡ (seen_first place (drop place text.now)).class)
        × (result.next ≡ (seen_first place (drop place text.now)).next)
        × (result.length ≡ (seen_first place (drop place text.now)).length) }
{
    if text.len() <= place {
        return nothing_seen(place);
    }
    match byte_class(text[place]) {
        ByteClass::Ordinary => symbol_seen(text, place),
        ByteClass::Quote => string_seen(text, place),
        ByteClass::Opening(_) => list_seen(text, place),
        _ => nothing_seen(place),
    }
}

// What is seen from a place on.
pub fn look(text: &[u8], place: usize) -> Seen
    ensures { (result.sort ≡ (seen place (drop place text.now)).sort)
        × (result.place ≡ (seen place (drop place text.now)).place)
        × (result.class ≡ (seen place (drop place text.now)).class)
        × (result.next ≡ (seen place (drop place text.now)).next)
        × (result.length ≡ (seen place (drop place text.now)).length) }
{
    first_seen(text, past_blanks(text, place))
}
