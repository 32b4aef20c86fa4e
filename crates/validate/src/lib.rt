// Is it the table of a document within the limits (20), and has that document a fault 15 to 18?
#![tactic(auto)]

mod draft; // draft.rt: whether words and pool are the table of a document
mod faults; // faults.rt: 15 to 18
mod index; // index.rt: the ids of blocks, to look them up
mod lent; // lent.rt: the words and the bytes of a table and its pool
mod record; // record.rt: whether one record is that of a node
mod values; // values.rt: the values of an element

ghost use Rattle.std.specs.Prelude.{◌≡◌, true, false, MatchOption};
ghost use Rattle.document.specs.reference.Printing.{draft_of, is_there, checking};
ghost use Rattle.validate.specs.Checks.{Checks};
ghost use Rattle.validate.specs.internal.DocumentTable.{LendsTable};

use base::number::NOT_A_TABLE;
use draft::is_table;
use faults::check_table;
use lent::Table;

// 20, or a fault 15 to 18 with the number of the first node that has it, or 0 at node 0: the numbers that `structural_check` answers to C.
#[derive(Clone, Copy)]
pub struct Checked {
    pub number: u32,
    pub node: u32,
}

impl Checked {
    // A number, and the node that it is of.
    fn at(number: u32, node: u32) -> Checked
        ensures { (result.number ≡ number) × (result.node ≡ node) }
    {
        Checked { number, node }
    }
}

// The table of so many nodes and pool bytes, where it is that of a draft within the limits and no count is beyond what is lent.
fn draft_lent<'a>(
    nodes: &'a [u32],
    node_count: u32,
    pool: &'a [u8],
    pool_count: u32,
) -> Option<Table<'a>>
    ensures { MatchOption result (is_there (draft_of nodes.now node_count pool.now pool_count) ≡ false)
        (λ t. (is_there (draft_of nodes.now node_count pool.now pool_count) ≡ true) × LendsTable nodes.now node_count pool.now pool_count t) }
{
    let table = Table::lent(nodes, node_count, pool, pool_count)?;
    if is_table(&table) { Some(table) } else { None }
}

// Whether these are the words and the pool of a draft within the limits, and no count is beyond what is lent. It looks at nothing past the counts.
pub fn is_draft(nodes: &[u32], node_count: u32, pool: &[u8], pool_count: u32) -> bool
    ensures { result ≡ is_there (draft_of nodes.now node_count pool.now pool_count) }
{
    draft_lent(nodes, node_count, pool, pool_count).is_some()
}

// The check of a table of so many nodes and pool bytes.
pub fn check(nodes: &[u32], node_count: u32, pool: &[u8], pool_count: u32) -> Checked
    ensures { Checks (checking nodes.now node_count pool.now pool_count) result }
{
    let Some(table) = draft_lent(nodes, node_count, pool, pool_count) else {
        return Checked::at(NOT_A_TABLE, 0);
    };
    match check_table(&table) {
        Ok(()) => Checked::at(base::number::OK, 0),
        Err(fault) => Checked::at(fault.rule.number(), fault.node as u32),
    }
}
