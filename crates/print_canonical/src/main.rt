// Prints the canonical spelling of the document that standard input holds in the nested spelling (document 01, "Canonical spelling").
#![tactic(auto)]

ghost use Rattle.std.specs.Counts.{IsPrefixLen};
ghost use Rattle.listing.specs.Listing.{Lists};
ghost use Rattle.print_canonical.specs.Tidying.{tidied};

use lister::{BUFFER, Lent, Spelling};
use listing::{LENT_NODES, LENT_POOL};
use std::io;

// A spelling and a line end have at most 6 bytes for each byte of the pool and 100 for each node.
const LONGEST_LINE: usize = 6 * LENT_POOL + 100 * LENT_NODES;

// All that is printed for a text, with the memory lent that `tidied` names. The output holds the longest line.
fn tidy(text: &[u8], out: &mut [u8; LONGEST_LINE]) -> usize
    ensures prefix_len { IsPrefixLen result out.new }
    ensures lists { Lists (tidied text.now) out.old result out.new }
{
    let mut lent = Lent::new();
    let a = match lent.read_or_refuse(Spelling::Nested, text, out) {
        Ok(a) => a,
        Err(n) => return n,
    };
    // Its number is 0: the read left the table of a draft, and the output is long enough.
    let p = printer::print(&lent.nodes, a.nodes, &lent.pool, a.pool, out);
    // The spelling has "No final newline": the line end is the program's, like that of every line of the listing programs.
    let n = p.length as usize;
    out[n] = b'\n';
    n + 1
}

// Hands on what is read and what is printed, as the listing programs do.
fn main(rt: HostRuntime) -> io::Result<()> {
    let mut text = [0u8; BUFFER];
    let n = input::read_full(&mut rt.stdin(), &mut text)?;
    let mut out = [0u8; LONGEST_LINE];
    let k = tidy(&text[..n], &mut out);
    rt.write_all(&out[..k])
}
