// Quoted strings (document 01, "Characters and brackets" and number 4).
ghost use Rattle.std.specs.Prelude.{◌≡◌, drop};
ghost use Rattle.atoms.specs.Atom.{ended, string_at};
ghost use Rattle.atoms.specs.internal.StringStep.{stopped_at};

use super::pieces::piece;
use super::run::plain_end;

// A string: the place after its closing quote, and the length of what it stands for.
#[derive(Clone, Copy, Debug, PartialEq, Eq)]
pub struct StringEnd {
    pub next: usize,
    pub length: usize,
}

// Number 4, and the place of the fault.
#[derive(Clone, Copy, Debug, PartialEq, Eq)]
pub struct BadString {
    pub place: usize,
}

// The string whose quote is at `start` has pieces that stand for `length` bytes, up to place i, where no
// piece stands.
#[tactic(auto, unfolding(crate::specs::internal::StringStep::stopped_at, crate::specs::internal::StringStep::bad_string_end, crate::specs::Atom::ended))]
fn stopped(text: &[u8], i: usize, start: usize, length: usize) -> Result<StringEnd, BadString>
    ensures { ended result ≡ stopped_at start i length (drop i text.now) }
{
    if text.len() <= i {
        return Err(BadString { place: start });
    }
    if text[i] != b'"' {
        return Err(BadString { place: i });
    }
    if length == 0 {
        return Err(BadString { place: start });
    }
    Ok(StringEnd {
        next: i + 1,
        length,
    })
}

// The string whose opening quote is at a place: runs of plain bytes, with an escape after each but the last.
pub fn string_at(text: &[u8], place: usize) -> Result<StringEnd, BadString>
    ensures { ended result ≡ string_at place (drop place text.now) }
{
    if text.len() <= place {
        return Err(BadString { place });
    }
    let mut i = place + 1;
    let mut length: usize = 0;
    loop {
        let end = plain_end(text, i);
        length += end - i;
        if text.get(end) != Some(&b'\\') {
            return stopped(text, end, place, length);
        }
        let Some(p) = piece(text, end) else {
            return Err(BadString { place: end });
        };
        length += p.size;
        i = p.next;
    }
}
