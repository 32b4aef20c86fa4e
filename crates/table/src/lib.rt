// The records of a node table: their words, the strings that they name and what a node of a kind has (document 01, "The table").
#![tactic(auto)]

pub mod record; // record.rt: a record written

ghost use Rattle.std.specs.Prelude.{◌≡◌};
ghost use Rattle.elements.specs.rules.Rules.{rule_of};
ghost use Rattle.document.specs.rules.Canonical.{key_class, node_first};
ghost use Rattle.document.specs.reference.Printing.{part};
ghost use Rattle.table.specs.Stored.{word_at, string_at};

use kind::{Keyword, Kind};

// "Eleven u32 words a node"
pub const RECORD: usize = 11;

// The words of a record. A string has two: its offset in the pool and its length.
pub const KIND: usize = 0;

pub const PARENT: usize = 1;

pub const END: usize = 2;

pub const KEY: usize = 3;

pub const KEY_LENGTH: usize = 4;

pub const TYPE: usize = 5;

pub const TYPE_LENGTH: usize = 6;

pub const TEXT: usize = 7;

pub const TEXT_LENGTH: usize = 8;

pub const WIDTH: usize = 9;

pub const HEIGHT: usize = 10;

// "A missing width and height are 4,294,967,295", and so is the parent at the root.
pub const MISSING: usize = 4294967295;

// Word `j` of the record of node `i`, and 0 past the end.
pub fn word(nodes: &[u32], i: usize, j: usize) -> usize
    ensures { result ≡ word_at nodes.now i j }
{
    // An index that saturates is past every slice's end.
    let at = RECORD.saturating_mul(i);
    match nodes.get(at.saturating_add(j)) {
        Some(&word) => word as usize,
        None => 0,
    }
}

// The bytes of the pool from `at` on, `size` of them, as far as the pool has them.
pub fn part<'a>(pool: &'a [u8], at: usize, size: usize) -> &'a [u8]
    ensures { result.now ≡ part pool.now at size }
{
    let rest = &pool[at.min(pool.len())..];
    &rest[..size.min(rest.len())]
}

// The string that words `j` and `j + 1` of the record of node `i` name, as far as the pool has it.
pub fn string<'a>(nodes: &[u32], i: usize, j: usize, pool: &'a [u8]) -> &'a [u8]
    ensures { result.now ≡ string_at nodes.now pool.now i j }
{
    let at = word(nodes, i, j);
    let size = word(nodes, i, j.saturating_add(1));
    part(pool, at, size)
}

const DOCUMENT: usize = Kind::DOCUMENT.number as usize;

const SUBSECTION: usize = Kind::SUBSECTION.number as usize;

const FORMAL_ITEM: usize = Kind::FORMAL_ITEM.number as usize;

const FOOTNOTE: usize = Kind::FOOTNOTE.number as usize;

const TABLE: usize = Kind::TABLE.number as usize;

// The class of the key of a kind: a block has an id, any other element a target.
#[tactic(auto, using(std::proofs::lemmas::Bool::Decides::nat_tests), unfolding(document::specs::rules::Canonical::key_class, elements::specs::rules::Class::is_block))]
pub fn key_class(kind: usize) -> u8
    ensures { result ≡ key_class kind }
{
    match kind {
        DOCUMENT..=FOOTNOTE => Keyword::ID.number,
        _ => Keyword::TARGET.number,
    }
}

// Whether the first parameter of a kind is a title or a summary, which is a node.
#[tactic(auto, using(std::proofs::lemmas::Bool::Decides::nat_tests, crate::proofs::Titled::titled_is))]
pub fn is_titled(kind: usize) -> bool
    ensures { result ≡ node_first (rule_of kind).parameters }
{
    matches!(kind, DOCUMENT..=SUBSECTION | FORMAL_ITEM | TABLE)
}
