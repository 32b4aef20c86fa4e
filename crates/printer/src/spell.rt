// The spelling of a table's nodes: "Subtrees are spelled in order, each element written into what is left of the output."
// On any words the functions are safe and end; what they write is said where a document's nodes stand in the table.
// Each writes as much as there is room for and answers how much it would need, so that an empty output measures.
ghost use Rattle.std.specs.Prelude.{◌≡◌, true, List, ℕ, ◌+◌, ◌≤◌, ◌<◌, length};
ghost use Rattle.std.proofs.lemmas.List.Edits.{sets};
ghost use Rattle.elements.specs.rules.Rules.{rule_of};
ghost use Rattle.document.specs.rules.Document.{Node, Nodes};
ghost use Rattle.document.specs.rules.Record as Word;
ghost use Rattle.document.specs.rules.Table.{count, count_all};
ghost use Rattle.document.specs.rules.Canonical.{node_first, canonical};
ghost use Rattle.table.specs.Stored.{word_at, Stored, StoredAll};
ghost use Rattle.base.specs.Adds.{greatest_word};
ghost use Rattle.table.specs.Stored.{string_at};
ghost use Rattle.printer.specs.internal.Appends.{Appends};
ghost use Rattle.printer.specs.internal.Inside.{Valueless, size_of, inside_all, values_inside, children_first};

use super::put::Output;
use kind::{Keyword, Kind};
use table::{
    END, HEIGHT, KEY, KEY_LENGTH, KIND, MISSING, TEXT, TYPE, TYPE_LENGTH, WIDTH, is_titled,
    key_class,
};

// A table: the words of its nodes, and the pool of their strings. `Table` of validate is private to that crate, and holds whole records alone.
#[derive(Clone, Copy)]
pub struct NodeTable<'a> {
    pub nodes: &'a [u32],
    pub pool: &'a [u8],
}

impl NodeTable<'_> {
    fn word(&self, i: usize, j: usize) -> usize
        ensures { result ≡ word_at self.now.nodes.now i j }
    {
        table::word(self.nodes, i, j)
    }

    fn string(&self, i: usize, j: usize) -> &[u8]
        ensures { result.now ≡ string_at self.now.nodes.now self.now.pool.now i j }
    {
        table::string(self.nodes, i, j, self.pool)
    }

    // Whether node `i` has neither key nor size nor type, as most elements.
    fn lacks_values(&self, i: usize) -> bool
        ensures { result ≡ true → Valueless self.now.nodes.now i }
    {
        (self.word(i, KEY_LENGTH) == 0)
            & (self.word(i, TYPE_LENGTH) == 0)
            & (self.word(i, WIDTH) == MISSING)
    }

    // The size of node `i`, where it has one.
    #[tactic(auto, unfolding(crate::specs::internal::Inside::size_of))]
    fn size(&self, i: usize) -> Option<(usize, usize)>
        ensures { result ≡ size_of (word_at self.now.nodes.now i Word.width) (word_at self.now.nodes.now i Word.height) }
    {
        let width = self.word(i, WIDTH);
        if width == MISSING {
            return None;
        }
        Some((width, self.word(i, HEIGHT)))
    }

    // The values of node `i`.
    fn values(&self, i: usize, output: &mut Output)
        ensures { Appends output.old (values_inside (word_at self.now.nodes.now i Word.kind) (string_at self.now.nodes.now self.now.pool.now i Word.key_offset)
            (string_at self.now.nodes.now self.now.pool.now i Word.type_offset) (word_at self.now.nodes.now i Word.width) (word_at self.now.nodes.now i Word.height))
            output.new }
    {
        if self.lacks_values(i) {
            return;
        }
        let class = key_class(self.word(i, KIND)) as usize;
        output.value(class, self.string(i, KEY));
        output.size(self.size(i));
        output.value(Keyword::TYPE.number as usize, self.string(i, TYPE));
    }

    // Where the children of node `i` that are spelled before its values end: after its title or summary, where it has one.
    fn first_end(&self, i: usize, end: usize) -> usize
        requires { i < end }
        ensures { (i < result) × (result ≤ end)
            × ((bytes : List ℕ) (ns : Nodes) (parent p : ℕ) → StoredAll self.now.nodes.now bytes (i + 1) parent p ns → end ≡ i + 1 + count_all ns
            → result ≡ i + 1 + count_all (children_first (node_first (rule_of (word_at self.now.nodes.now i Word.kind)).parameters) ns)) }
    {
        let from = i + 1;
        if end <= from {
            return from;
        }
        if !is_titled(self.word(i, KIND)) {
            return from;
        }
        let first = self.word(from, END);
        if first <= from {
            return from;
        }
        if end < first {
            return from;
        }
        first
    }

    // The nodes with numbers from `from` to before `end` that stand side by side, a space before each, and each in the output's tail.
    // Neither the index that `byte` leaves nor what `spell` answers passes 4,294,967,295, so their sum needs no test: the next `byte` makes it.
    #[cycle(children_spell)]
    fn children(&self, from: usize, end: usize, output: &mut Output)
        ensures { (ns : Nodes) (parent p : ℕ) → StoredAll self.now.nodes.now self.now.pool.now from parent p ns → end ≡ from + count_all ns
            → Appends output.old (inside_all ns) output.new }
    {
        let mut i = from;
        while i < end {
            let next = self.word(i, END);
            if next <= i {
                return;
            }
            if end < next {
                return;
            }
            output.byte(b' ');
            let start = output.at.min(output.out.len());
            let size = self.spell(i, next, &mut output.out[start..]);
            output.at += size;
            i = next;
        }
    }

    // Node `i`, whose descendants have the numbers up to `end`.
    #[cycle(children_spell)]
    fn spell(&self, i: usize, end: usize, out: &mut [u8]) -> usize
        ensures { (result ≤ greatest_word) × ((d : Node) (parent p : ℕ) → Stored self.now.nodes.now self.now.pool.now i parent p d → end ≡ i + count d
            → length (canonical d) ≤ greatest_word → (result ≡ length (canonical d)) × (out.new ≡ sets out.old 0 (canonical d))) }
    {
        if end <= i {
            return 0;
        }
        let mut output = Output { out, at: 0 };
        let kind = self.word(i, KIND);
        if kind == Kind::TEXT.number as usize {
            output.quoted(self.string(i, TEXT));
            return output.at;
        }
        let first = self.first_end(i, end);
        output.byte(b'[');
        output.name(kind);
        self.children(i + 1, first, &mut output);
        self.values(i, &mut output);
        self.children(first, end, &mut output);
        output.byte(b']');
        output.at
    }
}

// The document whose table this is: "Printing returns number and length".
pub fn spelled(nodes: &[u32], pool: &[u8], out: &mut [u8]) -> usize
    ensures { (result ≤ greatest_word) × ((d : Node) (parent p : ℕ) → Stored nodes.now pool.now 0 parent p d
        → length (canonical d) ≤ greatest_word → (result ≡ length (canonical d)) × (out.new ≡ sets out.old 0 (canonical d))) }
{
    let table = NodeTable { nodes, pool };
    table.spell(0, table.word(0, END), out)
}
