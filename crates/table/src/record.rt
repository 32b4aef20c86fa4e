// A record written into a node table.
ghost use Rattle.std.specs.Prelude.{◌≡◌, ◌+◌, ◌*◌, ◌≤◌, ◌++◌, length, drop};
ghost use Rattle.std.proofs.lemmas.List.Edits.{sets};
ghost use Rattle.document.specs.rules.Record.{record_length};
ghost use Rattle.table.specs.Stored.{words_of};

use super::RECORD;

// "kind; parent; end; offset and length in the pool of id or target; of type; of text; image width; height"
#[derive(Clone, Copy, Debug, PartialEq, Eq)]
pub struct Record {
    pub kind: u32,
    pub parent: u32,
    pub end: u32,
    pub key: u32,
    pub key_length: u32,
    pub typename: u32,
    pub type_length: u32,
    pub text: u32,
    pub text_length: u32,
    pub width: u32,
    pub height: u32,
}

// The first words of a slice become those of a record. They are assigned as one array: a copy from a slice would be tested for overlap.
fn put_words(nodes: &mut [u32], words: [u32; RECORD])
    requires { record_length ≤ length nodes.old }
    ensures { nodes.new ≡ words ++ drop record_length nodes.old }
{
    if let Some(row) = nodes.first_chunk_mut() {
        *row = words;
    }
}

// Writes the record of node `i`.
pub fn put_record(nodes: &mut [u32], i: usize, r: Record)
    requires { record_length * i + record_length ≤ length nodes.old }
    ensures { nodes.new ≡ sets nodes.old (record_length * i) (words_of r) }
{
    let words = [
        r.kind,
        r.parent,
        r.end,
        r.key,
        r.key_length,
        r.typename,
        r.type_length,
        r.text,
        r.text_length,
        r.width,
        r.height,
    ];
    let at = RECORD * i;
    put_words(&mut nodes[at..], words);
}
