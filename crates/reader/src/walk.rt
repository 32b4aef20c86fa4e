// The judging walk over the text, which counts nodes and pool bytes (document 01, numbers 8 to 12) and notes the nodes on the tape.
// "An item holds inline content, and inline content holds lists of items": the walk over inline content
// calls the list and item walks, which call it back, and the bytes left fall.
ghost use Rattle.std.specs.Prelude.{◌≡◌, ◌⊎◌, ℕ, ◌+◌, ◌<◌, ◌≤◌, cond, true, eqb, Ok, Err, length, drop};
ghost use Rattle.base.specs.rules.Numbers as Number;
ghost use Rattle.base.specs.Refusals as Refusals;
ghost use Rattle.elements.specs.rules.Class as Class;
ghost use Rattle.elements.specs.rules.Class.{is_element};
ghost use Rattle.elements.specs.rules.Inside.{ended};
ghost use Rattle.inside.specs.Machine.{state_of};
ghost use Rattle.lexer.specs.Token.{seen, the_end};
ghost use Rattle.document.specs.reference.Meaning.{Verdict};
ghost use Rattle.reader.specs.internal.WalkAnswer.{told, walked_to};
ghost use Rattle.reader.specs.internal.Walk.{past_bracket};
ghost use Rattle.reader.specs.internal.Tape.{entered};
ghost use Rattle.reader.specs.internal.TapeWord.{most_word};
ghost use Rattle.reader.specs.internal.Walks.{WalkStarts, ListStarts, Within, Answers, Finished, Judges, MayTurn, TurnAs};

use super::tape::{Tape, enter, leave};
use super::value::value;
use base::Refusal;
use characters::{ByteClass, byte_class};
use inside::{may_end, step};
use kind::Kind;
use lexer::{A_LIST, Seen, THE_END, look};

// Kinds by their numbers.
pub const DOCUMENT: u8 = Kind::DOCUMENT.number;

pub const TEXT: u8 = Kind::TEXT.number;

const CELL: u8 = Kind::CELL.number;

const LIST_ORDERED: u8 = Kind::LIST_ORDERED.number;

const LIST_UNORDERED: u8 = Kind::LIST_UNORDERED.number;

// How far a walk has come: the place in the text, and the nodes and pool bytes counted up to it.
#[derive(Clone, Copy)]
pub struct Reached {
    pub place: usize,
    pub nodes: usize,
    pub pool: usize,
}

// Why a text is refused, and the place that the number stands at.
#[derive(Clone, Copy)]
pub struct Refused {
    pub refusal: Refusal,
    pub place: usize,
}

// What a walk answers.
pub type Walked = Result<Reached, Refused>;

// An element whose content is walked: the place of its bracket, its kind and its number.
#[derive(Clone, Copy)]
pub struct Element {
    pub at: usize,
    pub kind: u8,
    pub node: usize,
}

// A list that is opened: the place of its bracket, and the class of the name that leads it.
#[derive(Clone, Copy)]
pub struct Opening {
    pub at: usize,
    pub class: u8,
}

// What a walk that meets no fault passes. A state is that of the element after it.
#[derive(Clone, Copy)]
pub enum Turn {
    // A symbol or string.
    Atom(Reached, u8),
    // A list, whose content starts at the place after the name that leads it.
    List(Opening, Reached, u8),
}

// 9 is placed at the element's bracket, the others at the expression itself.
#[tactic(auto, using(crate::proofs::lemmas::walk::Refusals::is_absent), unfolding(crate::specs::internal::WalkAnswer::walked_to))]
pub fn fault_at(refusal: Refusal, at: usize, place: usize) -> Refused
    ensures { told (Err result) ≡ walked_to 0 0 0 (Verdict.fault (Refusals.number refusal) (cond (eqb (Refusals.number refusal) Number.absent) at place)) }
{
    let place = if refusal == Refusal::Absent {
        at
    } else {
        place
    };
    Refused { refusal, place }
}

// At the end of a run.
#[tactic(auto, unfolding(crate::specs::internal::WalkAnswer::walked_to))]
pub fn at_end(element: Element, state: u8, end: Reached) -> Walked
    ensures { told result ≡ walked_to end.place end.nodes end.pool
        (cond (ended element.kind (state_of element.kind state)) Verdict.fine (Verdict.fault Number.absent element.at)) }
{
    if may_end(element.kind, state) {
        return Ok(end);
    }
    Err(Refused {
        refusal: Refusal::Absent,
        place: element.at,
    })
}

// A run of expressions ends at this very place, as most do: a closing bracket stands there.
#[tactic(auto, using(lexer::proofs::Looks::seen_closing))]
pub fn closes(text: &[u8], i: usize) -> bool
    ensures { result ≡ true → ((seen i (drop i text.now)).sort ≡ the_end) × ((seen i (drop i text.now)).place ≡ i) }
{
    i < text.len() && matches!(byte_class(text[i]), ByteClass::Closing(_))
}

// What is seen from a place on, counted as an expression of this class in an element that is read so far to this state.
// (As a call, whose answer goes through memory, it costs a read a tenth of its instructions.)
#[tactic(auto, using(crate::proofs::lemmas::walk::OneTurn::step_goes), unfolding(crate::specs::internal::WalkAnswer::walked_to))]
#[inline(always)]
pub fn take_turn(
    element: Element,
    from: Reached,
    seen: Seen,
    class: u8,
    state: u8,
    tape: &mut Tape,
) -> Result<Turn, Refused>
    requires { MayTurn element from seen.place seen.next seen.length }
    ensures { TurnAs element from seen.sort seen.place seen.next seen.length class state tape.old tape.new result }
{
    let Seen { place, next, .. } = seen;
    let state = match step(element.kind, state, class) {
        Ok(state) => state,
        Err(refusal) => return Err(fault_at(refusal, element.at, place)),
    };
    // Not where expressions stand; but the walk is to end on any bytes.
    if next <= from.place {
        return Err(Refused {
            refusal: Refusal::NotAllowed,
            place,
        });
    }
    if seen.sort == A_LIST {
        let list = Opening { at: place, class };
        let inner = Reached {
            place: next,
            ..from
        };
        return Ok(Turn::List(list, inner, state));
    }
    let nodes = from.nodes + 1;
    enter(tape, from.nodes, place, TEXT, element.node, nodes);
    let passed = Reached {
        place: next,
        nodes,
        pool: from.pool + seen.length,
    };
    Ok(Turn::Atom(passed, state))
}

// From a list's closing bracket to the place after it; that there is a bracket is known only where expressions stand.
#[tactic(auto, unfolding(crate::specs::internal::Walk::past_bracket, crate::specs::internal::WalkAnswer::walked_to))]
pub fn past_bracket(text: &[u8], end: Reached) -> Walked
    ensures { told result ≡ past_bracket (length text.now) (told (Ok end)) }
{
    let place = end.place;
    if text.len() <= place {
        return Err(Refused {
            refusal: Refusal::NotAllowed,
            place,
        });
    }
    Ok(Reached {
        place: place + 1,
        ..end
    })
}

// A list led by a name of this class leads an element.
#[tactic(auto, unfolding(elements::specs::rules::Class::is_element, elements::specs::rules::Class::is_kind))]
pub fn is_element(class: u8) -> bool
    ensures { result ≡ is_element class }
{
    DOCUMENT <= class && class <= CELL && class != TEXT
}

// A list in an element, from the place after the name that leads it on.
#[cycle(content_of_inline_inside_item_list)]
pub fn inside(text: &[u8], parent: Element, list: Opening, from: Reached, tape: &mut Tape) -> Walked
    requires { ListStarts text.now list from parent.node }
    ensures bounded { Within text.now from result }
    ensures judges_list { Judges text.now parent.kind parent.node list from tape.old tape.new result }
{
    if !is_element(list.class) {
        return value(text, parent, list, from, tape);
    }
    let (element, inner) = opened(parent.node, list, from, tape);
    let end = content_of(text, element, inner, tape)?;
    leave(tape, element.node, end.nodes);
    Ok(end)
}

// The element of a list is entered; its content is walked with one node more.
pub fn opened(parent: usize, list: Opening, from: Reached, tape: &mut Tape) -> (Element, Reached)
    requires { (list.at ≤ most_word) × (parent ≤ most_word) × (from.nodes < most_word) }
    ensures element { result.0 ≡ record { at = list.at; kind = list.class; node = from.nodes } }
    ensures inner { result.1 ≡ record { place = from.place; nodes = from.nodes + 1; pool = from.pool } }
    ensures tape_after { tape.new ≡ entered tape.old from.nodes list.at list.class parent 0 }
{
    let node = from.nodes;
    let kind = list.class;
    enter(tape, node, list.at, kind, parent, 0);
    let element = Element {
        at: list.at,
        kind,
        node,
    };
    let inner = Reached {
        nodes: node + 1,
        ..from
    };
    (element, inner)
}

// What follows the name in an element, by the walk for its kind. An item is met by the list walk alone.
#[cycle(content_of_inline_inside_item_list)]
fn content_of(text: &[u8], element: Element, from: Reached, tape: &mut Tape) -> Walked
    requires { WalkStarts text.now from element.node }
    ensures bounded { Within text.now from result }
    ensures finishes { Finished text.now element from tape.old tape.new result }
{
    match element.kind {
        LIST_ORDERED | LIST_UNORDERED => list(text, element, from, tape),
        _ => inline(text, element, from, tape),
    }
}

// What follows the name in an element that holds inline content, and in any other but a list: what may stand there is the step's to say.
#[cycle(content_of_inline_inside_item_list)]
pub fn inline(text: &[u8], element: Element, from: Reached, tape: &mut Tape) -> Walked
    requires { WalkStarts text.now from element.node }
    ensures bounded { Within text.now from result }
    ensures answers_from { Answers text.now element from 0 tape.old tape.new result }
{
    let mut reached = from;
    let mut state: u8 = 0;
    loop {
        if closes(text, reached.place) {
            return at_end(element, state, reached);
        }
        let seen = look(text, reached.place);
        if seen.sort == THE_END {
            let end = Reached {
                place: seen.place,
                ..reached
            };
            return at_end(element, state, end);
        }
        match take_turn(element, reached, seen, seen.class, state, tape)? {
            Turn::Atom(passed, next) => {
                reached = passed;
                state = next;
            }
            Turn::List(list, inner, next) => {
                let end = inside(text, element, list, inner, tape)?;
                reached = past_bracket(text, end)?;
                state = next;
            }
        }
    }
}

// What follows the name in a list of items.
#[cycle(content_of_inline_inside_item_list)]
fn list(text: &[u8], element: Element, from: Reached, tape: &mut Tape) -> Walked
    requires { WalkStarts text.now from element.node × ((element.kind ≡ Class.list_ordered) ⊎ (element.kind ≡ Class.list_unordered)) }
    ensures bounded { Within text.now from result }
    ensures answers_from { Answers text.now element from 0 tape.old tape.new result }
{
    let mut reached = from;
    let mut state: u8 = 0;
    loop {
        let seen = look(text, reached.place);
        if seen.sort == THE_END {
            let end = Reached {
                place: seen.place,
                ..reached
            };
            return at_end(element, state, end);
        }
        match take_turn(element, reached, seen, seen.class, state, tape)? {
            // The step takes nothing but an item, which is a list.
            Turn::Atom(passed, next) => {
                reached = passed;
                state = next;
            }
            Turn::List(list, inner, next) => {
                let end = item(text, element.node, list, inner, tape)?;
                reached = past_bracket(text, end)?;
                state = next;
            }
        }
    }
}

// An item: the walk over inline content, started at the item's kind.
#[cycle(content_of_inline_inside_item_list)]
fn item(text: &[u8], parent: usize, list: Opening, from: Reached, tape: &mut Tape) -> Walked
    requires { ListStarts text.now list from parent × (list.class ≡ Class.item) }
    ensures bounded { Within text.now from result }
    ensures judges_list { (k : ℕ) → Judges text.now k parent list from tape.old tape.new result }
{
    let (element, inner) = opened(parent, list, from, tape);
    let end = inline(text, element, inner, tape)?;
    leave(tape, element.node, end.nodes);
    Ok(end)
}
