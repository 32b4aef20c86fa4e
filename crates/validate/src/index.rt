// An index of the ids of blocks, so that faults 16 to 18 take no pass over the nodes for each id.
ghost use Rattle.std.specs.Prelude.{◌≡◌, ◌&&◌, ◌+◌, ◌*◌, ◌<◌, ◌≤◌, Bool, false, true, length, MatchOption};
ghost use Rattle.base.specs.rules.Limits.{most_nodes};
ghost use Rattle.document.specs.rules.Record.{record_length};
ghost use Rattle.document.specs.rules.Record as Word;
ghost use Rattle.document.specs.reference.Check.{is_among, holds_id};
ghost use Rattle.table.specs.Stored.{word_at};
ghost use Rattle.validate.specs.internal.TableWords.{key_at, entry_of_node, wanted, repeats_at};
ghost use Rattle.validate.specs.internal.IdIndex.{slot_of, Indexed};

use super::lent::Table;
use super::record::Row;
use base::limit::MOST_NODES;
use kind::Kind;
use table::KIND;

const DOCUMENT: usize = Kind::DOCUMENT.number as usize;

const FOOTNOTE: usize = Kind::FOOTNOTE.number as usize;

// What a reference may name: any block, and blocks are the kinds from document to footnote, or a footnote alone.
#[derive(Clone, Copy, Debug, PartialEq, Eq)]
pub enum Target {
    Block,
    Footnote,
}

impl Target {
    // Whether it may be of this kind.
    fn takes(self, kind: usize) -> bool
        ensures { result ≡ wanted self kind }
    {
        match self {
            Target::Block => DOCUMENT <= kind && kind <= FOOTNOTE,
            Target::Footnote => kind == FOOTNOTE,
        }
    }
}

// The ids of the blocks among the first `count` nodes of a table. Each id has a slot; there are as many slots as a table may have nodes.
// `heads` has the last node of each slot, and `nexts` the one before each node in its slot: its number + 1, or 0 for none.
// No Option stands there, which would take twice the 32 KB that each check clears.
#[derive(Drop)]
pub struct IdIndex<'a> {
    pub table: Table<'a>,
    pub count: usize,
    heads: [u32; MOST_NODES],
    nexts: [u32; MOST_NODES],
    ghost few: { table.count ≤ most_nodes },
    ghost within: { count ≤ table.count },
    ghost indexed: { Indexed table.nodes.now table.pool.now count heads nexts },
}

// The slot of an id. Any function of the bytes would be right; this one spreads ids that differ little.
fn slot(id: &[u8]) -> usize
    ensures { (result ≡ slot_of id.now) × (result < most_nodes) }
{
    let mut h: usize = 5381;
    for &b in id {
        h = (h * 33 + b as usize) % 1048576;
    }
    h % MOST_NODES
}

// The id of node `i`, where it is such a block and has one: its record is looked for once, and its words are read with no test for each. It stands in
// place at its callers, so that no Option goes through memory.
#[inline(always)]
fn id_of<'a>(table: &'a Table<'a>, i: usize, target: Target) -> Option<&'a [u8]>
    ensures { let words = table.now.nodes.now in
        let bytes = table.now.pool.now in
        let held = wanted target (word_at words i Word.kind) && holds_id (entry_of_node words bytes i) in
        MatchOption result (held ≡ false) (λ id. (held ≡ true) × (id.now ≡ key_at words bytes i)) }
{
    let row = Row::of(table, i)?;
    if !target.takes(row.words[KIND] as usize) {
        return None;
    }
    let id = row.key();
    if id.is_empty() { None } else { Some(id) }
}

// Whether node `i` is such a block, and has an id.
fn has_id(table: &Table, i: usize, target: Target) -> bool
    ensures { result ≡ wanted target (word_at table.now.nodes.now i Word.kind) && holds_id (entry_of_node table.now.nodes.now table.now.pool.now i) }
{
    id_of(table, i, target).is_some()
}

impl<'a> IdIndex<'a> {
    ghost use Rattle.validate.specs.internal.EnteredIds.{entered_ids};

    // No node has entered.
    pub fn new(table: Table<'a>) -> IdIndex<'a>
        requires { table.count ≤ most_nodes }
        ensures { (result.table ≡ table.entry) × (result.count ≡ 0) }
    {
        IdIndex {
            table,
            count: 0,
            heads: [0; MOST_NODES],
            nexts: [0; MOST_NODES],
        }
    }

    // Whether a string of slot `s` is the id of such a block among the nodes that have entered. It stands in place at both callers, since a call
    // would hand the string over in memory.
    #[inline(always)]
    fn known(&self, s: usize, id: &[u8], target: Target) -> bool
        requires { (s ≡ slot_of id.now) × (s < most_nodes) }
        ensures { result ≡ is_among id.now (entered_ids self.now target) }
    {
        let mut j = self.heads[s] as usize;
        while 0 < j {
            let i = j - 1;
            if let Some(key) = id_of(&self.table, i, target)
                && id == key
            {
                return true;
            }
            j = self.nexts[i] as usize;
        }
        false
    }

    // The same of any string.
    pub fn knows(&self, id: &[u8], target: Target) -> bool
        ensures { result ≡ is_among id.now (entered_ids self.now target) }
    {
        self.known(slot(id), id, target)
    }

    // The next node has no id, and is passed.
    pub fn pass(&mut self)
        requires { (self.old.count < self.old.table.count) × (holds_id (entry_of_node self.old.table.nodes.now self.old.table.pool.now self.old.count) ≡ false) }
        ensures { (self.new.table ≡ self.old.table) × (self.new.count ≡ self.old.count + 1) }
    {
        self.count += 1;
    }

    // 16: whether the next node is a block whose id is on an earlier block. If not, it enters.
    pub fn repeats(&mut self) -> bool
        requires { self.old.count < self.old.table.count }
        ensures { (result ≡ repeats_at self.old.table.nodes.now self.old.table.pool.now self.old.count)
            × (self.new.table ≡ self.old.table)
            × (result ≡ false → self.new.count ≡ self.old.count + 1) }
    {
        let i = self.count;
        if !has_id(&self.table, i, Target::Block) {
            self.pass();
            return false;
        }
        let id = self.table.key(i);
        let s = slot(id);
        if self.known(s, id, Target::Block) {
            return true;
        }
        self.nexts[i] = self.heads[s];
        self.heads[s] = (i + 1) as u32;
        self.count = i + 1;
        false
    }
}
