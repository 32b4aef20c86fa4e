// The root of a text in either spelling, and what judging a whole text answers.
ghost use Rattle.std.specs.Prelude.{◌≤◌, length};
ghost use Rattle.base.specs.rules.Limits.{most_bytes};
ghost use Rattle.reader.specs.internal.Walks.{OpensRoot};

use super::tape::{Tape, enter};
use super::walk::{DOCUMENT, Element, Reached, Refused};
use base::Refusal;
use lexer::{THE_END, look};
use table::MISSING;

// How many nodes a document has, and how many bytes its pool.
#[derive(Clone, Copy)]
pub struct Counts {
    pub nodes: usize,
    pub pool: usize,
}

// What judging a text answers.
pub type Judged = Result<Counts, Refused>;

// The element of the first expression, which has to be a document, and where its content starts: 7 for no expression, 8 for another. The root counts as one node.
pub fn open_root(text: &[u8], tape: &mut Tape) -> Result<(Element, Reached), Refused>
    requires { length text.now ≤ most_bytes }
    ensures { OpensRoot text.now tape.old tape.new result }
{
    let root = look(text, 0);
    let place = root.place;
    if root.sort == THE_END {
        return Err(Refused {
            refusal: Refusal::NotOneExpression,
            place: text.len(),
        });
    }
    // The latter not where expressions stand, but on any bytes the walk is to start within the text.
    if root.class != DOCUMENT || root.next == 0 {
        return Err(Refused {
            refusal: Refusal::NotAllowed,
            place,
        });
    }
    enter(tape, 0, place, DOCUMENT, MISSING, 0);
    let element = Element {
        at: place,
        kind: DOCUMENT,
        node: 0,
    };
    let from = Reached {
        place: root.next,
        nodes: 1,
        pool: 0,
    };
    Ok((element, from))
}
