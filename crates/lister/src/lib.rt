// What the programs do with a text (document 01, "Judged examples"): it is read into the memory that they lend, and listed.
#![tactic(auto)]

ghost use Rattle.std.specs.Prelude.{◌≡◌, IfOk, IfErr};
ghost use Rattle.std.specs.Counts.{IsPrefixLen};
ghost use Rattle.listing.specs.Listing.{Lists, printed, lent_memory};
ghost use Rattle.reader.specs.Read.{Reads};
ghost use Rattle.lister.specs.Lending.{spelled, memory_of};
ghost use Rattle.lister.specs.Reading.{Accepts, Refuses};

use listing::{LENT_NODES, LENT_POOL, LENT_WORDS, LONGEST_TEXT};
use reader::{Answer, read_imperative, read_nested};

// The bytes of the input that are read, and of the output: a line has at most 44 bytes, so it holds those of 1,024 nodes.
pub const BUFFER: usize = 65536;

// The spellings of a document.
#[derive(Clone, Copy)]
pub enum Spelling {
    Nested,
    Imperative,
}

// The memory that a program lends to the read.
#[derive(Drop)]
pub struct Lent {
    pub nodes: [u32; LENT_WORDS],
    pub places: [u32; LENT_NODES],
    pub pool: [u8; LENT_POOL],
}

impl Lent {
    pub fn new() -> Lent
        ensures { memory_of result ≡ lent_memory }
    {
        Lent {
            nodes: [0; LENT_WORDS],
            places: [0; LENT_NODES],
            pool: [0; LENT_POOL],
        }
    }

    fn read(&mut self, spelling: Spelling, text: &[u8]) -> Answer
        ensures { Reads (spelled spelling) text.now (memory_of self.old) result (memory_of self.new) }
    {
        match spelling {
            Spelling::Nested => {
                read_nested(text, &mut self.nodes, &mut self.places, &mut self.pool)
            }
            Spelling::Imperative => {
                read_imperative(text, &mut self.nodes, &mut self.places, &mut self.pool)
            }
        }
    }

    // Reads a text, unless it is too long or refused: then its line is put into the output, and the error is the length of that.
    pub fn read_or_refuse(
        &mut self,
        spelling: Spelling,
        text: &[u8],
        out: &mut [u8],
    ) -> Result<Answer, usize>
        ensures accepts { IfOk result (λ a. Accepts (spelled spelling) text.now (memory_of self.old) a (memory_of self.new)) }
        ensures untouched { IfOk result (λ _. out.new ≡ out.old) }
        ensures refuses { IfErr result (λ n. Refuses (spelled spelling) text.now (memory_of self.old) out.old n out.new) }
    {
        if LONGEST_TEXT < text.len() {
            return Err(listing::put_too_long(out));
        }
        let a = self.read(spelling, text);
        if a.number != 0 {
            return Err(listing::put_refusal(a.number, a.line, a.column, out));
        }
        Ok(a)
    }
}

// All that is printed for a text, with the memory lent that `printed` names.
pub fn list(spelling: Spelling, text: &[u8], out: &mut [u8; BUFFER]) -> usize
    ensures prefix_len { IsPrefixLen result out.new }
    ensures lists { Lists (printed (spelled spelling) text.now) out.old result out.new }
{
    let mut lent = Lent::new();
    let a = match lent.read_or_refuse(spelling, text, out) {
        Ok(a) => a,
        Err(n) => return n,
    };
    let c = validate::check(&lent.nodes, a.nodes, &lent.pool, a.pool);
    if c.number != 0 {
        return listing::put_fault(text, &lent.places, c.number, c.node, out);
    }
    listing::put_document(&lent.nodes, a.nodes, a.pool, out)
}
