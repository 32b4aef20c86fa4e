// The walk that decides whether a table is that of a draft: a document that may have the faults 15 to 18.
// Nothing is assumed of the words. The walk over a node calls the walk over its children, which calls it back, and the records left fall.
ghost use Rattle.std.specs.Prelude.{◌≡◌, true, ℕ, ◌+◌, ◌≤◌, ◌<◌, length};
ghost use Rattle.document.specs.rules.Record as Word;
ghost use Rattle.elements.specs.rules.Class as Class;
ghost use Rattle.elements.specs.rules.Rules.{rule_of};
ghost use Rattle.elements.specs.rules.Inside.{start};
ghost use Rattle.inside.specs.Machine.{state_of};
ghost use Rattle.document.specs.rules.Document.{Node};
ghost use Rattle.document.specs.rules.Canonical.{node_first, place_values};
ghost use Rattle.table.specs.Stored.{word_at};
ghost use Rattle.validate.specs.internal.DraftWalk.{DecidesNext, row_values, ValuesLead, LawfulRow, RowChildren, ChildTaken};
ghost use Rattle.document.specs.rules.Draft.{IsDraft};

use super::lent::Table;
use super::record::Row;
use super::values::{state_after, values};
use base::limit::{MOST_BYTES, MOST_NODES, NESTED_LEVELS};
use inside::may_end;
use kind::Kind;
use table::{END, KIND, MISSING, TEXT, TEXT_LENGTH, is_titled};
use utf8::valid_up_to;

// The number and the place in the pool that follow what was looked for, where it stands there.
#[derive(Clone, Copy)]
struct Walked {
    next: usize,
    pool: usize,
}

// The same of a child, with the state of its parent after it.
#[derive(Clone, Copy)]
struct Entered {
    next: usize,
    pool: usize,
    state: u8,
}

// The values that stand before the children: due behind the first child, or taken, with the state after them.
#[derive(Clone, Copy)]
enum Led {
    Due,
    Taken(u8),
}

// A node under a parent, with its descendants: its strings stand in the pool from `at` on, and its brackets nest at most `left` levels.
#[cycle(child_children_element_node)]
fn node(row: &Row, parent: usize, at: usize, left: usize) -> Option<Walked>
    requires { at ≤ length row.now.table.now.pool.now }
    ensures { DecidesNext (LawfulRow row.now parent at left) result }
{
    if row.words[KIND] == Kind::TEXT.number as u32 {
        return text_node(row, parent, at);
    }
    element(row, parent, at, left)
}

// The same of a text.
fn text_node(row: &Row, parent: usize, at: usize) -> Option<Walked>
    requires { (at ≤ length row.now.table.now.pool.now) × (word_at row.now.table.now.nodes.now row.now.number Word.kind ≡ Class.text) }
    ensures { (left : ℕ) → DecidesNext (LawfulRow row.now parent at left) result }
{
    let next = row.number + 1;
    if !row.text_alone(parent, next) {
        return None;
    }
    let end = row.string_end(TEXT, at)?;
    if valid_up_to(&row.table.pool[at..end]) != row.words[TEXT_LENGTH] as usize {
        return None;
    }
    Some(Walked { next, pool: end })
}

// The same of an element.
#[cycle(child_children_element_node)]
fn element(row: &Row, parent: usize, at: usize, left: usize) -> Option<Walked>
    requires { (at ≤ length row.now.table.now.pool.now) × (word_at row.now.table.now.nodes.now row.now.number Word.kind ≡ Class.text → ⊥) }
    ensures { DecidesNext (LawfulRow row.now parent at left) result }
{
    let after = row.strings_end(parent, at)?;
    if !row.element_fits(left) {
        return None;
    }
    let r = row.words;
    children(row, r[KIND] as u8, r[END] as usize, after, left - 1)
}

// The values, where they stand before the children. A title or summary stands before the values, which are then due.
fn lead(row: &Row, kind: u8, end: usize) -> Option<Led>
    ensures { ValuesLead kind row.now.number end (row_values row.now kind) result }
{
    // most elements have no values
    if row.value_levels() == 0 {
        return Some(Led::Taken(0));
    }
    if row.number + 1 < end && is_titled(kind as usize) {
        return Some(Led::Due);
    }
    let state = values(row, kind, 0)?;
    Some(Led::Taken(state))
}

// The children and values of an element of a kind.
#[cycle(child_children_element_node)]
fn children(row: &Row, kind: u8, end: usize, at: usize, left: usize) -> Option<Walked>
    requires { at ≤ length row.now.table.now.pool.now }
    ensures { DecidesNext (RowChildren row.now
        (place_values (node_first (rule_of kind).parameters) (row_values row.now kind))
        kind (start kind) (row.now.number + 1) at end left) result }
{
    let (mut state, mut due) = match lead(row, kind, end)? {
        Led::Due => (0, true),
        Led::Taken(state) => (state, false),
    };
    let mut j = row.number + 1;
    let mut p = at;
    while j < end {
        let c = child(row, kind, state, j, p, left)?;
        state = c.state;
        j = c.next;
        p = c.pool;
        if due {
            state = values(row, kind, state)?;
            due = false;
        }
    }
    if j != end {
        return None;
    }
    if !may_end(kind, state) {
        return None;
    }
    Some(Walked { next: end, pool: p })
}

// The child with number `j` of an element of a kind that is read so far to a state.
#[cycle(child_children_element_node)]
fn child(row: &Row, kind: u8, state: u8, j: usize, at: usize, left: usize) -> Option<Entered>
    requires { (row.now.number < j) × (at ≤ length row.now.table.now.pool.now) }
    ensures { ChildTaken row.now kind (state_of kind state) j at left result }
{
    let own = Row::of(row.table, j)?;
    let w = node(&own, row.number, at, left)?;
    let state = state_after(kind, state, own.words[KIND] as u8)?;
    Some(Entered {
        next: w.next,
        pool: w.pool,
        state,
    })
}

// Whether a table is that of a draft.
pub fn is_table(table: &Table) -> bool
    ensures { (result ≡ true → (d : Node) × IsDraft d table.now.nodes.now table.now.pool.now)
        × ((d : Node) → IsDraft d table.now.nodes.now table.now.pool.now → result ≡ true) }
{
    if MOST_NODES < table.count {
        return false;
    }
    if MOST_BYTES < table.pool.len() {
        return false;
    }
    let Some(root) = Row::of(table, 0) else {
        return false;
    };
    if root.words[KIND] != Kind::DOCUMENT.number as u32 {
        return false;
    }
    match element(&root, MISSING, 0, NESTED_LEVELS) {
        Some(w) => w.pool == table.pool.len() && w.next == table.count,
        None => false,
    }
}
