// Lists the document that standard input holds in the imperative spelling (document 01, "Judged examples").
#![tactic(auto)]

ghost use Rattle.std.specs.Counts.{IsPrefixLen};
ghost use Rattle.document.specs.rules.Spelling.{imperative};
ghost use Rattle.listing.specs.Listing.{Lists, printed};

use lister::{BUFFER, Spelling};
use std::io;

// All that is printed for a text, with the memory lent that `printed` names.
fn list(text: &[u8], out: &mut [u8; BUFFER]) -> usize
    ensures prefix_len { IsPrefixLen result out.new }
    ensures lists { Lists (printed imperative text.now) out.old result out.new }
{
    lister::list(Spelling::Imperative, text, out)
}

// Hands on what is read and what is printed, which no contract of std can speak of: the first 65,536 bytes of standard input, so that a text
// of over 32,768 shows itself, and the bytes that `list` counts. A read or a write that fails ends the program with its error.
fn main(rt: HostRuntime) -> io::Result<()> {
    let mut text = [0u8; BUFFER];
    let n = input::read_full(&mut rt.stdin(), &mut text)?;
    let mut out = [0u8; BUFFER];
    let k = list(&text[..n], &mut out);
    rt.write_all(&out[..k])
}
