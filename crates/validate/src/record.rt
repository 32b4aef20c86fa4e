// The record of a node, and whether it is that of one (document 01, "The table").
ghost use Rattle.std.specs.Prelude.{◌≡◌, ◌+◌, ◌*◌, ◌≤◌, ◌<◌, length, take, drop, MatchOption};
ghost use Rattle.document.specs.rules.Record.{record_length};

use super::lent::Table;
use kind::Kind;
use table::{
    END, HEIGHT, KEY, KEY_LENGTH, KIND, MISSING, PARENT, RECORD, TEXT, TEXT_LENGTH, TYPE,
    TYPE_LENGTH, WIDTH, part,
};

// What stands for a missing width or height, as a word.
const MISSING_WORD: u32 = MISSING as u32;

// "Kinds are numbered 1 to 25".
const FIRST_KIND: u32 = Kind::DOCUMENT.number as u32;

const LAST_KIND: u32 = Kind::CELL.number as u32;

// The record of node `number`, which is there, so that its words are read without a test for each.
#[derive(Clone, Copy)]
pub struct Row<'a> {
    pub table: &'a Table<'a>,
    pub number: usize,
    pub words: &'a [u32; RECORD],
    ghost within: { number < table.now.count },
    ghost recorded: { take record_length (drop (record_length * number) table.now.nodes.now) ≡ words.now },
}

impl<'a> Row<'a> {
    ghost use Rattle.table.specs.Stored.{word_at};
    ghost use Rattle.validate.specs.internal.TableWords.{key_at};
    ghost use Rattle.validate.specs.internal.DraftWalk.{Decided, DecidesEnd, NamesStringAt, strings_end, RecordAt, TextAlone, ElementAt, value_levels};

    // The record of node `i`, where the table has it.
    pub fn of(table: &'a Table<'a>, i: usize) -> Option<Row<'a>>
        ensures { MatchOption result (table.now.count ≤ i) (λ r. (r.table.now ≡ table.now) × (r.number ≡ i)) }
    {
        if table.count <= i {
            return None;
        }
        let at = RECORD * i;
        let end = at + RECORD;
        let words = table.nodes[at..end].first_chunk().unwrap();
        Some(Row {
            table,
            number: i,
            words,
        })
    }

    // Its id or target.
    pub fn key(&self) -> &'a [u8]
        ensures { result.now ≡ key_at self.now.table.now.nodes.now self.now.table.now.pool.now self.now.number }
    {
        part(
            self.table.pool,
            self.words[KEY] as usize,
            self.words[KEY_LENGTH] as usize,
        )
    }

    // Where the string ends that words `j` and `j + 1` name, if it stands at `p` in the pool.
    pub fn string_end(&self, j: usize, p: usize) -> Option<usize>
        requires { (j + 1 < record_length) × (p ≤ length self.now.table.now.pool.now) }
        ensures { DecidesEnd (NamesStringAt self.now.table.now.nodes.now self.now.number j p (length self.now.table.now.pool.now))
            (p + word_at self.now.table.now.nodes.now self.now.number (j + 1)) result }
    {
        let offset = self.words[j] as usize;
        let length = self.words[j + 1] as usize;
        // most strings are missing
        if length == 0 {
            return if offset == 0 { Some(p) } else { None };
        }
        if offset != p {
            return None;
        }
        if self.table.pool.len() - p < length {
            return None;
        }
        Some(p + length)
    }

    // Where its strings end, if it has this parent and they stand from `p` on.
    pub fn strings_end(&self, parent: usize, p: usize) -> Option<usize>
        requires { p ≤ length self.now.table.now.pool.now }
        ensures { DecidesEnd (RecordAt self.now.table.now.nodes.now (length self.now.table.now.pool.now) self.now.number parent p)
            (strings_end self.now.table.now.nodes.now self.now.number p) result }
    {
        if self.words[PARENT] as usize != parent {
            return None;
        }
        let key_end = self.string_end(KEY, p)?;
        let type_end = self.string_end(TYPE, key_end)?;
        self.string_end(TEXT, type_end)
    }

    // Whether it has this parent and end, a text, and no other string and no size.
    pub fn text_alone(&self, parent: usize, end: usize) -> bool
        ensures { Decided (TextAlone self.now.table.now.nodes.now self.now.number parent end) result }
    {
        let r = self.words;
        (r[PARENT] as usize == parent)
            & (r[END] as usize == end)
            & (r[KEY] == 0)
            & (r[KEY_LENGTH] == 0)
            & (r[TYPE] == 0)
            & (r[TYPE_LENGTH] == 0)
            & (r[TEXT_LENGTH] != 0)
            & (r[WIDTH] == MISSING_WORD)
            & (r[HEIGHT] == MISSING_WORD)
    }

    // The levels of an element's values.
    pub fn value_levels(&self) -> usize
        ensures { result ≡ value_levels self.now.table.now.nodes.now self.now.number }
    {
        let r = self.words;
        let none = (r[KEY_LENGTH] == 0) & (r[TYPE_LENGTH] == 0) & (r[WIDTH] == MISSING_WORD);
        if none { 0 } else { 1 }
    }

    // Whether it may be that of an element that nests at most `left` levels.
    pub fn element_fits(&self, left: usize) -> bool
        ensures { Decided (ElementAt self.now.table.now.nodes.now self.now.number left) result }
    {
        let r = self.words;
        (FIRST_KIND <= r[KIND])
            & (r[KIND] <= LAST_KIND)
            & (r[TEXT_LENGTH] == 0)
            & ((r[WIDTH] != MISSING_WORD) | (r[HEIGHT] == MISSING_WORD))
            & (self.value_levels() < left)
    }
}
