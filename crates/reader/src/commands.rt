// The judging walk over the blocks of an imperative text (document 01, "Imperative"). A command closes before its content, which follows up to the
// next command that ends the block; what stands in a command and in its content is walked as in the nested spelling.
ghost use Rattle.std.specs.Prelude.{◌≡◌, ◌≤◌, length};
ghost use Rattle.base.specs.rules.Limits.{most_bytes, imperative_levels, missing};
ghost use Rattle.document.specs.rules.Spelling.{is_block_parameter};
ghost use Rattle.syntax.specs.rules.Expression.{Expr, Exprs, and, depth_all};
ghost use Rattle.document.specs.rules.Spelling.{Spelling};
ghost use Rattle.document.specs.reference.Imperative.{regroup};
ghost use Rattle.document.specs.reference.Outcome.{one_expression};
ghost use Rattle.reader.specs.internal.Tape.{taped};
ghost use Rattle.reader.specs.internal.RunStands.{RunStands};
ghost use Rattle.reader.specs.internal.WalkAnswer.{judged, read_walked};
ghost use Rattle.reader.specs.internal.Walks.{WalkStarts, ListStarts, Within, CommandAnswers, ContentAnswers, JudgesChildren};
ghost use Rattle.reader.specs.internal.BlockWalk.{command_class, loose_class, leads_command, ends_at, Belongs};

use super::root::{Counts, Judged, open_root};
use super::tape::{Tape, leave};
use super::walk::{
    DOCUMENT, Element, Opening, Reached, Turn, Walked, at_end, inside, opened, past_bracket,
    take_turn,
};
use kind::{Keyword, Kind};
use lexer::{THE_END, look};

// The parameters of blocks, and the first and the last of the kinds of commands.
const TITLE: u8 = Kind::TITLE.number;

const ID: u8 = Keyword::ID.number;

const TYPE: u8 = Keyword::TYPE.number;

const PART: u8 = Kind::PART.number;

const FOOTNOTE: u8 = Kind::FOOTNOTE.number;

// Title, id and type: the parameters of blocks.
#[tactic(auto, unfolding(document::specs::rules::Spelling::is_block_parameter))]
fn is_parameter(class: u8) -> bool
    ensures { result ≡ is_block_parameter class }
{
    matches!(class, TITLE | ID | TYPE)
}

// "A command holds its parameters only": what else stands in it counts as class 0, which is allowed nowhere.
#[tactic(auto, unfolding(crate::specs::internal::BlockWalk::command_class))]
fn in_command(class: u8) -> u8
    ensures { result ≡ command_class class }
{
    if is_parameter(class) { class } else { 0 }
}

// In a block's content a loose parameter and a second document are allowed nowhere.
#[tactic(auto, unfolding(crate::specs::internal::BlockWalk::loose_class))]
fn loose(class: u8) -> u8
    ensures { result ≡ loose_class class }
{
    if is_parameter(class) || class == DOCUMENT {
        0
    } else {
        class
    }
}

// A list led by a name of this class is a command; "a second document command" is none.
#[tactic(auto, unfolding(crate::specs::internal::BlockWalk::leads_command, elements::specs::rules::Class::is_block))]
pub fn is_command(class: u8) -> bool
    ensures { result ≡ leads_command class }
{
    matches!(class, PART..=FOOTNOTE)
}

// A block ends where nothing is seen, and at a command of no lesser significance.
#[tactic(auto, unfolding(crate::specs::internal::BlockWalk::ends_at))]
fn ends(kind: u8, sort: u8, class: u8) -> bool
    ensures { result ≡ ends_at kind sort class }
{
    let own = Kind { number: kind };
    let next = Kind { number: class };
    sort == THE_END || (is_command(class) && own.significance() <= next.significance())
}

// The block of a command: what follows the command's name starts at `from`, and the content follows the command's bracket.
#[cycle(block_child_content)]
fn block(text: &[u8], element: Element, from: Reached, tape: &mut Tape) -> Walked
    requires { WalkStarts text.now from element.node }
    ensures bounded { Within text.now from result }
    ensures in_command { CommandAnswers text.now element from 0 tape.old tape.new result }
{
    let mut reached = from;
    let mut state: u8 = 0;
    loop {
        let seen = look(text, reached.place);
        if seen.sort == THE_END {
            let end = Reached {
                place: seen.place,
                ..reached
            };
            let first = past_bracket(text, end)?;
            return content(text, element, first, state, tape);
        }
        match take_turn(element, reached, seen, in_command(seen.class), state, tape)? {
            Turn::Atom(passed, next) => {
                reached = passed;
                state = next;
            }
            Turn::List(list, inner, next) => {
                let end = inside(text, element, list, inner, tape)?;
                reached = past_bracket(text, end)?;
                state = next;
            }
        }
    }
}

// The content of a block, whose command was read to this state.
#[cycle(block_child_content)]
fn content(text: &[u8], element: Element, from: Reached, read: u8, tape: &mut Tape) -> Walked
    requires { WalkStarts text.now from element.node }
    ensures bounded { Within text.now from result }
    ensures in_content { ContentAnswers text.now element from read tape.old tape.new result }
{
    let mut reached = from;
    let mut state = read;
    loop {
        let seen = look(text, reached.place);
        if ends(element.kind, seen.sort, seen.class) {
            return at_end(element, state, reached);
        }
        match take_turn(element, reached, seen, loose(seen.class), state, tape)? {
            Turn::Atom(passed, next) => {
                reached = passed;
                state = next;
            }
            Turn::List(list, inner, next) => {
                reached = child(text, element, list, inner, tape)?;
                state = next;
            }
        }
    }
}

// A list in the content of a block, from the place after the name that leads it on, up to where what it leads ends.
#[cycle(block_child_content)]
fn child(text: &[u8], parent: Element, list: Opening, from: Reached, tape: &mut Tape) -> Walked
    requires { ListStarts text.now list from parent.node × Belongs parent.kind list.class }
    ensures bounded { Within text.now from result }
    ensures judges_child { JudgesChildren text.now parent.kind parent.node list from tape.old tape.new result }
{
    if !is_command(list.class) {
        let end = inside(text, parent, list, from, tape)?;
        return past_bracket(text, end);
    }
    let (element, inner) = opened(parent.node, list, from, tape);
    let end = block(text, element, inner, tape)?;
    leave(tape, element.node, end.nodes);
    Ok(end)
}

// Judges an imperative text that was scanned: 7 to 12, or the counts of its document.
pub fn judge_imperative(text: &[u8], tape: &mut Tape) -> Judged
    requires { length text.now ≤ most_bytes }
    ensures value { (es : Exprs) → RunStands text.now 0 es (length text.now) → depth_all es ≤ imperative_levels
        → judged result ≡ read_walked (one_expression Spelling.imperative (length text.now) es) }
    ensures tape_after { (e : Expr) (es : Exprs) → RunStands text.now 0 (and e es) (length text.now) → depth_all (and e es) ≤ imperative_levels
        → (judged result).number ≡ 0 → tape.new ≡ taped tape.old 0 missing (regroup e es) }
{
    let (root, from) = open_root(text, tape)?;
    let end = block(text, root, from, tape)?;
    leave(tape, root.node, end.nodes);
    Ok(Counts {
        nodes: end.nodes,
        pool: end.pool,
    })
}
