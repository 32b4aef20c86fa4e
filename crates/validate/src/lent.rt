// The words and the bytes of a table and its pool, whatever they say.
ghost use Rattle.std.specs.Prelude.{◌≡◌, ◌*◌, ◌^◌, ◌<◌, ◌≤◌, length, MatchOption};
ghost use Rattle.document.specs.rules.Record.{record_length};
ghost use Rattle.validate.specs.internal.TableWords.{key_at};

use table::{KEY, RECORD, string};

// The words of `count` records, and the bytes of their strings.
#[derive(Clone, Copy)]
pub struct Table<'a> {
    pub nodes: &'a [u32],
    pub count: usize,
    pub pool: &'a [u8],
    ghost few: { count < 2 ^ 32 },
    ghost whole: { record_length * count ≡ length nodes.now },
}

impl<'a> Table<'a> {
    ghost use Rattle.validate.specs.internal.DocumentTable.{LendsTable};

    // The table of so many nodes and pool bytes, where no count is beyond what is lent. It looks at nothing past the counts.
    pub fn lent(
        nodes: &'a [u32],
        node_count: u32,
        pool: &'a [u8],
        pool_count: u32,
    ) -> Option<Table<'a>>
        ensures { MatchOption result (record_length * node_count ≤ length nodes.now → pool_count ≤ length pool.now → ⊥)
            (LendsTable nodes.now node_count pool.now pool_count) }
    {
        let count = node_count as usize;
        let words = RECORD * count;
        let bytes = pool_count as usize;
        if nodes.len() < words {
            return None;
        }
        if pool.len() < bytes {
            return None;
        }
        Some(Table {
            nodes: &nodes[..words],
            count,
            pool: &pool[..bytes],
        })
    }

    // The id or target of node `i`.
    pub fn key(&self, i: usize) -> &'a [u8]
        ensures { result.now ≡ key_at self.now.nodes.now self.now.pool.now i }
    {
        string(self.nodes, i, KEY, self.pool)
    }
}
