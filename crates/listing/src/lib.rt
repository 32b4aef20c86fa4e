// The lines that the listing programs print (document 01, "Judged examples").
#![tactic(auto)]

ghost use Rattle.std.specs.Prelude.{◌≡◌, [], ◌∷◌, ◌++◌, ◌+◌, ◌*◌, ◌≤◌, get_or, length};
ghost use Rattle.document.specs.rules.Memory.{over};
ghost use Rattle.listing.specs.Listing.{numeral, parent_word, node_line, node_lines, header_line, refused_line, fault_line, document_lines, too_long, part_fitting};
ghost use Rattle.listing.specs.internal.Puts.{Appends};

use base::store_all;
use table::{END, MISSING, PARENT, RECORD};

// "over 32,768 bytes prints `too long`": the longest text that is read.
pub const LONGEST_TEXT: usize = 32768;

// What a program lends to the read: the words of so many nodes, a place for each of them, and the bytes of the pool.
pub const LENT_NODES: usize = 1024;

pub const LENT_WORDS: usize = LENT_NODES * RECORD;

pub const LENT_POOL: usize = 32768;

// A table from a caller has this word for the parent of the root (document 01), and so has C.
const NO_PARENT: u32 = MISSING as u32;

// An output and the place in it that is written next. What is put past the output's end is left out.
#[derive(Drop)]
struct Output<'a> {
    out: &'a mut [u8],
    at: usize,
}

impl Output<'_> {
    fn bytes(&mut self, bytes: &[u8])
        ensures { Appends self.old bytes.now self.new }
    {
        store_all(self.out, self.at, bytes);
        if self.at < self.out.len() {
            self.at += bytes.len().min(self.out.len() - self.at);
        }
    }

    fn byte(&mut self, b: u8)
        ensures { Appends self.old (b ∷ []) self.new }
    {
        self.bytes(&[b]);
    }

    fn decimal(&mut self, n: u32)
        ensures { Appends self.old (numeral n) self.new }
    {
        // By hand: the kit's `itoa` does the same, and would be one crate more to rest on.
        if n < 10 {
            self.byte(b'0' + n as u8);
            return;
        }
        self.decimal(n / 10);
        self.byte(b'0' + (n % 10) as u8);
    }

    // A number and the byte that ends it.
    fn number(&mut self, n: u32, end: u8)
        ensures { Appends self.old (numeral n ++ (end ∷ [])) self.new }
    {
        self.decimal(n);
        self.byte(end);
    }

    fn parent(&mut self, parent: u32)
        ensures { Appends self.old (parent_word parent) self.new }
    {
        if parent == NO_PARENT {
            self.byte(b'-');
        } else {
            self.decimal(parent);
        }
    }

    fn node(&mut self, number: u32, kind: u32, parent: u32, end: u32)
        ensures { Appends self.old (node_line number kind parent end) self.new }
    {
        self.number(number, b' ');
        self.number(kind, b' ');
        self.parent(parent);
        self.byte(b' ');
        self.number(end, b'\n');
    }

    // The lines of the first nodes of the table.
    fn nodes(&mut self, table: &[u32], nodes: u32)
        ensures { Appends self.old (node_lines table.now nodes) self.new }
    {
        for k in 0..nodes {
            let i = k as usize * RECORD;
            self.node(
                k,
                word(table, i),
                word(table, i + PARENT),
                word(table, i + END),
            );
        }
    }

    fn header(&mut self, nodes: u32, pool: u32)
        ensures { Appends self.old (header_line nodes pool) self.new }
    {
        self.bytes(b"nodes ");
        self.decimal(nodes);
        self.bytes(b" pool ");
        self.number(pool, b'\n');
    }
}

// A word of the table, 0 past its end.
fn word(table: &[u32], i: usize) -> u32
    ensures { result ≡ get_or table.now i 0 }
{
    table.get(i).copied().unwrap_or(0)
}

// The listing of a document whose table and counts these are, as far as the output reaches: at most 44 bytes a node and 33 before them.
pub fn put_document(table: &[u32], nodes: u32, pool: u32, out: &mut [u8]) -> usize
    ensures value { result ≡ length (part_fitting out.old (document_lines table.now nodes pool)) }
    ensures out_after { out.new ≡ over (part_fitting out.old (document_lines table.now nodes pool)) out.old }
    ensures pool_len_bound { length (document_lines table.now nodes pool) ≤ 44 * nodes + 33 }
{
    let mut output = Output { out, at: 0 };
    output.header(nodes, pool);
    output.nodes(table, nodes);
    output.at
}

// The line of a refusal, as far as the output reaches.
pub fn put_refusal(number: u32, line: u32, column: u32, out: &mut [u8]) -> usize
    ensures value { result ≡ length (part_fitting out.old (refused_line number line column)) }
    ensures out_after { out.new ≡ over (part_fitting out.old (refused_line number line column)) out.old }
{
    let mut output = Output { out, at: 0 };
    output.bytes(b"refused ");
    output.number(number, b' ');
    output.number(line, b':');
    output.number(column, b'\n');
    output.at
}

// The line of a fault that the check found at a node of a text that was read, as far as the output reaches. The node's place is in the place list.
pub fn put_fault(text: &[u8], places: &[u32], number: u32, node: u32, out: &mut [u8]) -> usize
    ensures value { result ≡ length (part_fitting out.old (fault_line text.now places.now number node)) }
    ensures out_after { out.new ≡ over (part_fitting out.old (fault_line text.now places.now number node)) out.old }
{
    if LONGEST_TEXT < text.len() {
        return put_too_long(out);
    }
    let p = utf8::position(text, word(places, node as usize) as usize);
    put_refusal(number, p.line as u32, p.column as u32, out)
}

// The line for a text that the programs do not read, as far as the output reaches.
pub fn put_too_long(out: &mut [u8]) -> usize
    ensures value { result ≡ length (part_fitting out.old too_long) }
    ensures out_after { out.new ≡ over (part_fitting out.old too_long) out.old }
{
    let mut output = Output { out, at: 0 };
    output.bytes(b"too long\n");
    output.at
}
