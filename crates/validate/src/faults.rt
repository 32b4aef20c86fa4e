// Faults 15 to 18 of the document that a table has (document 01, "Numbers answered").
ghost use Rattle.std.specs.Prelude.{◌≡◌, Bool, [], ◌+◌, ◌*◌, ◌≤◌, ◌<◌, length};
ghost use Rattle.base.specs.rules.Limits.{most_nodes};
ghost use Rattle.document.specs.rules.Record.{record_length};
ghost use Rattle.document.specs.rules.Record as Word;
ghost use Rattle.elements.specs.rules.Class as Class;
ghost use Rattle.document.specs.rules.Document.{Node, Nodes};
ghost use Rattle.document.specs.reference.Check.{First, Cells, cells_in, found_repeated_id, found_unknown_target, check};
ghost use Rattle.document.specs.rules.Visits.{child_count};
ghost use Rattle.validate.specs.internal.CheckNumbers.{number_of, kept, checked};
ghost use Rattle.validate.specs.internal.DocumentTable.{BeginsWithTable};
ghost use Rattle.table.specs.Stored.{word_at};
ghost use Rattle.validate.specs.internal.EnteredIds.{entered_ids};
ghost use Rattle.validate.specs.internal.TableWords.{entries_from, found, cells_found, Family, Below, Binder, Spot, Searched};

use super::index::{IdIndex, Target};
use super::lent::Table;
use base::number::{REPEATED_ID, ROW_LENGTH, UNKNOWN_FOOTNOTE, UNKNOWN_TARGET};
use kind::Kind;
use table::{END, KIND, PARENT, RECORD, word};

// The kinds that the check looks at, as words.
const FOOTNOTE: usize = Kind::FOOTNOTE.number as usize;

const LINK: usize = Kind::LINK.number as usize;

const FOOTNOTE_REF: usize = Kind::FOOTNOTE_REF.number as usize;

const TABLE: usize = Kind::TABLE.number as usize;

const HEAD: usize = Kind::HEAD.number as usize;

const BODY: usize = Kind::BODY.number as usize;

const ROW: usize = Kind::ROW.number as usize;

// The rules that a draft may break.
#[derive(Clone, Copy, Debug, PartialEq, Eq)]
pub enum Rule {
    RowLength,
    RepeatedId,
    UnknownTarget,
    UnknownFootnote,
}

impl Rule {
    // The number of the fault, 15 to 18.
    pub fn number(self) -> u32
        ensures { result ≡ number_of self }
    {
        match self {
            Rule::RowLength => ROW_LENGTH,
            Rule::RepeatedId => REPEATED_ID,
            Rule::UnknownTarget => UNKNOWN_TARGET,
            Rule::UnknownFootnote => UNKNOWN_FOOTNOTE,
        }
    }
}

// A rule that is broken, with the number of the first node that breaks it.
#[derive(Clone, Copy, Debug, PartialEq, Eq)]
pub struct Fault {
    pub rule: Rule,
    pub node: usize,
}

// The fault of a node that breaks a rule, where there is one.
fn kept(rule: Rule, broken_at: Option<usize>) -> Result<(), Fault>
    ensures { result ≡ kept rule broken_at }
{
    match broken_at {
        Some(node) => Err(Fault { rule, node }),
        None => Ok(()),
    }
}

// 16: the first node that is a block whose id is on an earlier block. Where there is none, the ids of all nodes have entered.
// The kind is tested first, here and in the loops below, since most nodes are passed by it alone.
fn first_repeated(index: &mut IdIndex) -> Option<usize>
    requires { index.old.count ≡ 0 }
    ensures { (result ≡ found (found_repeated_id [] (entries_from index.old.table.nodes.now index.old.table.pool.now index.old.table.count 0)))
        × (index.new.table ≡ index.old.table)
        × (result ≡ None → index.new.count ≡ index.old.table.count) }
{
    let nodes = index.table.nodes;
    for i in 0..index.table.count {
        if FOOTNOTE < nodes[RECORD * i] as usize {
            index.pass();
        } else if index.repeats() {
            return Some(i);
        }
    }
    None
}

// 17 and 18: the first node of this kind that names no such block.
fn first_unknown(index: &IdIndex, kind: usize, target: Target) -> Option<usize>
    ensures { result ≡ found (found_unknown_target kind (entered_ids index.now target)
        (entries_from index.now.table.nodes.now index.now.table.pool.now index.now.count 0)) }
{
    let nodes = index.table.nodes;
    for i in 0..index.count {
        if nodes[RECORD * i] as usize == kind && !index.knows(index.table.key(i), target) {
            return Some(i);
        }
    }
    None
}

// How many children node `i` has: each begins where the one before ends.
fn child_count(nodes: &[u32], i: usize) -> usize
    ensures { (ns : Nodes) → Family nodes.now i ns → result ≡ child_count ns }
{
    let end = word(nodes, i, END);
    if end <= i {
        return 0;
    }
    let mut at = i + 1;
    let mut n: usize = 0;
    // no counted index: a sibling begins where the one before ends
    while at < end {
        let next = word(nodes, at, END);
        if next <= at {
            return n;
        }
        at = next;
        n += 1;
    }
    n
}

// How many names the head has among the children of node `t`, where there is a head.
fn head_names(nodes: &[u32], t: usize) -> Option<usize>
    ensures { (ns : Nodes) → Family nodes.now t ns → result ≡ cells_found (cells_in ns) }
{
    let end = word(nodes, t, END);
    if end <= t {
        return None;
    }
    let mut at = t + 1;
    while at < end {
        if word(nodes, at, KIND) == HEAD {
            return Some(child_count(nodes, at));
        }
        let next = word(nodes, at, END);
        if next <= at {
            return None;
        }
        at = next;
    }
    None
}

// The first ancestor of node `i` that is no body.
fn binder(nodes: &[u32], i: usize) -> usize
    ensures { (c : Cells) → Below nodes.now (word_at nodes.now i Word.parent) c → Binder nodes.now result c }
{
    let mut a = word(nodes, i, PARENT);
    while word(nodes, a, KIND) == BODY {
        let up = word(nodes, a, PARENT);
        if a <= up {
            return a;
        }
        a = up;
    }
    a
}

// 15: whether node `i`, which is a row, is one of a table with head and has another number of cells than the head has names.
fn row_differs(nodes: &[u32], i: usize) -> bool
    requires { word_at nodes.now i Word.kind ≡ Class.row }
    ensures { (b : Bool) → Spot nodes.now i b → result ≡ b }
{
    let t = binder(nodes, i);
    if word(nodes, t, KIND) != TABLE {
        return false;
    }
    match head_names(nodes, t) {
        Some(names) => names != child_count(nodes, i),
        None => false,
    }
}

fn first_bad_row(table: &Table) -> Option<usize>
    ensures { (f : First) → Searched table.now.nodes.now table.now.count 0 f → result ≡ found f }
{
    let nodes = table.nodes;
    for i in 0..table.count {
        if nodes[RECORD * i] as usize == ROW && row_differs(nodes, i) {
            return Some(i);
        }
    }
    None
}

// The check of the table of a document.
pub fn check_table(table: &Table) -> Result<(), Fault>
    requires { table.now.count ≤ most_nodes }
    ensures { (d : Node) → BeginsWithTable table.now.nodes.now table.now.count table.now.pool.now d → checked result ≡ check d }
{
    kept(Rule::RowLength, first_bad_row(table))?;
    let mut index = IdIndex::new(*table);
    kept(Rule::RepeatedId, first_repeated(&mut index))?;
    kept(
        Rule::UnknownTarget,
        first_unknown(&index, LINK, Target::Block),
    )?;
    kept(
        Rule::UnknownFootnote,
        first_unknown(&index, FOOTNOTE_REF, Target::Footnote),
    )
}
