// The fill of node words, places and pool from the tape of a text that was judged (document 01, "The table").
// It is one loop over the nodes: neither the grammar nor the order of the text is repeated here.
ghost use Rattle.std.specs.Prelude.{◌≡◌, ◌+◌, ◌*◌, ◌≤◌, ◌<◌, length};
ghost use Rattle.std.proofs.lemmas.List.Edits.{sets};
ghost use Rattle.base.specs.rules.Limits.{most_bytes, most_nodes, missing};
ghost use Rattle.syntax.specs.rules.Expression.{Expr};
ghost use Rattle.document.specs.rules.Document.{says};
ghost use Rattle.document.specs.rules.Record.{record_length};
ghost use Rattle.document.specs.reference.Meaning.{fine, judge_root, tree_of};
ghost use Rattle.document.specs.reference.Meaning as Meaning;
ghost use Rattle.document.specs.rules.Table.{table_of};
ghost use Rattle.document.specs.rules.Table as Table;
ghost use Rattle.reader.specs.internal.Counts.{node_count};
ghost use Rattle.reader.specs.internal.Tape.{Located, taped, Tape as TapeOf};
ghost use Rattle.reader.specs.internal.Filling.{filling, held_at, next_row, PutString, RoomFor, SameSlices, Written};

use super::tape::{Entry, Tape};
use atoms::put_atom;
use kind::Kind;
use table::record::{Record, put_record};

// A string in the pool. "A missing string is 0, 0".
#[derive(Clone, Copy)]
struct Span {
    offset: u32,
    length: u32,
}

const NO_STRING: Span = Span {
    offset: 0,
    length: 0,
};

// The memory that is lent for a table, and how many bytes of the pool are filled.
#[derive(Drop)]
struct Lent<'a> {
    nodes: &'a mut [u32],
    places: &'a mut [u32],
    pool: &'a mut [u8],
    bytes: usize,
}

impl Lent<'_> {
    // Puts into the pool what stands at the place that a word of the tape says, or nothing where it says none.
    // (A call for each of a row's three strings costs a read of short texts a tenth of its instructions.)
    #[inline(always)]
    fn put(&mut self, text: &[u8], place: u32) -> Span
        requires { (length text.now ≤ most_bytes) × (self.old.bytes + most_bytes ≤ missing) }
        ensures put { PutString (held_at text.now place) self.old self.new result }
        ensures same { SameSlices self.old self.new }
    {
        if place == 0 {
            return NO_STRING;
        }
        let offset = self.bytes;
        let length = put_atom(text, place as usize, self.pool, offset);
        if length == 0 {
            return NO_STRING;
        }
        self.bytes = offset + length;
        Span {
            offset: offset as u32,
            length: length as u32,
        }
    }

    // Writes the place and the record of a node whose strings are put. (It is in place twice, since a text has constants where an element has words.)
    #[inline(always)]
    fn write(&mut self, node: usize, e: &Entry, key: Span, typename: Span, own: Span)
        requires { (record_length * node + record_length ≤ length self.old.nodes.now) × (node < length self.old.places.now) }
        ensures written { Written e.now node self.old key typename own self.new }
        ensures same { SameSlices self.old self.new }
    {
        self.places[node] = e.place;
        put_record(
            self.nodes,
            node,
            Record {
                kind: e.class,
                parent: e.parent,
                end: e.end,
                key: key.offset,
                key_length: key.length,
                typename: typename.offset,
                type_length: typename.length,
                text: own.offset,
                text_length: own.length,
                width: e.width,
                height: e.height,
            },
        );
    }

    // The row of a node. A text has no string but its own, and no other node has one of its own.
    fn row(&mut self, text: &[u8], node: usize, e: &Entry)
        requires { RoomFor text.now (filling node self.old) }
        ensures row { filling (node + 1) self.new ≡ next_row text.now e.now (filling node self.old) }
        ensures same { SameSlices self.old self.new }
    {
        if e.class == Kind::TEXT.number as u32 {
            let own = self.put(text, e.place);
            self.write(node, e, NO_STRING, NO_STRING, own);
            return;
        }
        let key = self.put(text, e.key);
        let typename = self.put(text, e.typename);
        self.write(node, e, key, typename, NO_STRING);
    }
}

// Fills the document whose `count` nodes are on the tape, where there is room for them.
pub fn fill(
    text: &[u8],
    tape: &Tape,
    count: usize,
    nodes: &mut [u32],
    places: &mut [u32],
    pool: &mut [u8],
)
    requires { (length text.now ≤ most_bytes) × (count ≤ most_nodes) × (record_length * count ≤ length nodes.old) × (count ≤ length places.old) }
    ensures { (e : Expr) (t : TapeOf) → Located text.now e → judge_root e ≡ fine
        → tape.now ≡ taped t 0 missing e → count ≡ node_count e
        → (nodes.new ≡ sets nodes.old 0 (table_of (says (tree_of e))))
        × (places.new ≡ sets places.old 0 (Meaning.places e))
        × (pool.new ≡ sets pool.old 0 (Table.pool (says (tree_of e)))) }
{
    let mut lent = Lent {
        nodes,
        places,
        pool,
        bytes: 0,
    };
    for node in 0..count {
        lent.row(text, node, &tape[node]);
    }
}
