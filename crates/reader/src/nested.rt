// Judging a nested text that was scanned: first 7, for no expression or a second one, then 8 to 12 of the one there is.
ghost use Rattle.std.specs.Prelude.{◌≡◌, ℕ, ◌≤◌, length};
ghost use Rattle.base.specs.rules.Limits.{most_bytes, missing};
ghost use Rattle.syntax.specs.rules.Expression.{Expr, Exprs, none, and};
ghost use Rattle.document.specs.rules.Spelling.{nested};
ghost use Rattle.document.specs.reference.Outcome.{one_expression};
ghost use Rattle.reader.specs.internal.RunStands.{RunStands};
ghost use Rattle.reader.specs.internal.FirstExpressions.{first_place, second_place, FirstJudged};
ghost use Rattle.reader.specs.internal.WalkAnswer.{told, judged, read_walked};
ghost use Rattle.reader.specs.internal.Tape.{taped};

use super::root::{Counts, Judged, open_root};
use super::tape::{Tape, leave};
use super::walk::{Refused, Walked, inline, past_bracket};
use base::Refusal;
use lexer::{A_LIST, Seen, THE_END, look};

// Where the run of expressions from a place on ends, whatever its lists hold.
fn run_end(text: &[u8], from: usize) -> usize
    ensures { (es : Exprs) (e : ℕ) → RunStands text.now from es e → result ≡ e }
{
    let mut i = from;
    let mut depth: usize = 0;
    while i < text.len() {
        let seen = look(text, i);
        let Seen { place, next, .. } = seen;
        if seen.sort == THE_END {
            // The latter where a list is not closed: not where expressions stand.
            if depth == 0 || text.len() <= place {
                return place;
            }
            depth -= 1;
            i = place + 1;
        } else if next <= i {
            // Not where expressions stand, but on any bytes the loop is to end.
            return i;
        } else if seen.sort == A_LIST {
            depth += 1;
            i = place + 1;
        } else {
            i = next;
        }
    }
    i
}

// The place after the first expression from a place on.
fn past_first(text: &[u8], from: usize) -> usize
    ensures { (x : Expr) (es : Exprs) (e : ℕ) → RunStands text.now from (and x es) e → RunStands text.now result es e }
{
    let seen = look(text, from);
    if seen.sort != A_LIST {
        return seen.next;
    }
    // a list that is cut off or not closed: not where expressions stand
    let place = seen.place;
    if text.len() <= place {
        return place;
    }
    let end = run_end(text, place + 1);
    if text.len() <= end {
        return end;
    }
    end + 1
}

// The place of the first expression from a place on, and the text's length where there is none.
fn first_place(text: &[u8], from: usize) -> usize
    ensures { (es : Exprs) → RunStands text.now from es (length text.now) → result ≡ first_place (length text.now) es }
{
    let seen = look(text, from);
    if seen.sort == THE_END {
        return text.len();
    }
    seen.place
}

// The place of the second expression of a text, and the text's length where there is none.
fn second(text: &[u8]) -> usize
    ensures { (es : Exprs) → RunStands text.now 0 es (length text.now) → result ≡ second_place (length text.now) es }
{
    let first = look(text, 0);
    if first.sort == THE_END {
        return text.len();
    }
    first_place(text, past_first(text, 0))
}

// The same where the first expression was answered by w. One with no fault need not be passed over again.
fn second_after(text: &[u8], w: Walked) -> usize
    ensures { (es : Exprs) → RunStands text.now 0 es (length text.now) → FirstJudged text.now es (told w)
        → result ≡ second_place (length text.now) es }
{
    match w {
        Ok(end) => first_place(text, end.place),
        Err(_) => second(text),
    }
}

// 7 for no expression, or 8 to 12 of the first one, whatever follows it. The root counts as one node.
fn judge_first(text: &[u8], tape: &mut Tape) -> Walked
    requires { length text.now ≤ most_bytes }
    ensures first_judged { (es : Exprs) → RunStands text.now 0 es (length text.now) → FirstJudged text.now es (told result) }
    ensures tape_after { (e : Expr) (es : Exprs) → RunStands text.now 0 (and e es) (length text.now) → (told result).number ≡ 0
        → tape.new ≡ taped tape.old 0 missing e }
{
    let (root, from) = open_root(text, tape)?;
    let end = inline(text, root, from, tape)?;
    leave(tape, root.node, end.nodes);
    past_bracket(text, end)
}

// 7 to 12, or the counts of the document. 7 comes before 8 to 12; but the walk over the root comes first, since it finds the root's end.
pub fn judge_nested(text: &[u8], tape: &mut Tape) -> Judged
    requires { length text.now ≤ most_bytes }
    ensures value { (es : Exprs) → RunStands text.now 0 es (length text.now)
        → judged result ≡ read_walked (one_expression nested (length text.now) es) }
    ensures tape_after { (e : Expr) → RunStands text.now 0 (and e none) (length text.now) → (judged result).number ≡ 0
        → tape.new ≡ taped tape.old 0 missing e }
{
    let w = judge_first(text, tape);
    let other = second_after(text, w);
    if other < text.len() {
        return Err(Refused {
            refusal: Refusal::NotOneExpression,
            place: other,
        });
    }
    let end = w?;
    Ok(Counts {
        nodes: end.nodes,
        pool: end.pool,
    })
}
