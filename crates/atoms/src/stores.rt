// Writes what a symbol or a string stands for, as far as the output reaches.
ghost use Rattle.std.specs.Prelude.{◌≡◌, [], ◌∷◌, ◌+◌, ◌-◌, ◌<◌, ◌^◌, drop, length, set, take};
ghost use Rattle.std.proofs.lemmas.List.Edits.{sets};
ghost use Rattle.syntax.specs.reference.Scan.{ordinary_run, quoted_from};
ghost use Rattle.atoms.specs.Atom.{atom_value, content_of, string_at};

use super::pieces::{PieceSeen, piece};
use super::run::{plain_end, put_run};
use super::string::string_at;
use characters::symbol_end;

// One byte, k bytes from an index on.
fn store(out: &mut [u8], at: usize, k: usize, b: u8)
    ensures { out.new ≡ set out.old (at + k) b }
{
    if out.len() <= at {
        return;
    }
    if k < out.len() - at {
        out[at + k] = b;
    }
}

// The one to three bytes of a piece.
fn put_piece(out: &mut [u8], at: usize, k: usize, p: PieceSeen)
    requires { k + 2 < 2 ^ 64 }
    ensures { out.new
        ≡ sets out.old (at + k) (p.first ∷ take (p.size - 1) (p.second ∷ p.third ∷ [])) }
{
    store(out, at, k, p.first);
    if p.size <= 1 {
        return;
    }
    store(out, at, k + 1, p.second);
    if p.size <= 2 {
        return;
    }
    store(out, at, k + 2, p.third);
}

fn put_symbol(text: &[u8], place: usize, out: &mut [u8], at: usize) -> usize
    ensures { (result ≡ length (ordinary_run (drop place text.now)))
        × (out.new ≡ sets out.old at (ordinary_run (drop place text.now))) }
{
    if text.len() <= place {
        return 0;
    }
    let end = symbol_end(text, place);
    put_run(out, at, 0, &text[place..end]);
    end - place
}

// The string whose opening quote is at a place, run by run with an escape after each but the last.
fn put_runs(text: &[u8], place: usize, out: &mut [u8], at: usize) -> usize
    requires { (string_at place (drop place text.now)).number ≡ 0 }
    ensures { (result ≡ length (content_of (quoted_from 0 1 (drop 1 (drop place text.now)))))
        × (out.new ≡ sets out.old at (content_of (quoted_from 0 1 (drop 1 (drop place text.now))))) }
{
    let mut i = place + 1;
    let mut k: usize = 0;
    loop {
        let end = plain_end(text, i);
        put_run(out, at, k, &text[i..end]);
        k += end - i;
        if text.get(end) == Some(&b'"') {
            return k;
        }
        // the string has no fault
        let p = piece(text, end).unwrap();
        put_piece(out, at, k, p);
        k += p.size;
        i = p.next;
    }
}

// The string whose opening quote is at a place; one that has a fault stands for nothing. One that stands for as many
// bytes as are between its quotes has no escape.
fn put_string(text: &[u8], place: usize, out: &mut [u8], at: usize) -> usize
    ensures { (result ≡ length (content_of (quoted_from 0 1 (drop 1 (drop place text.now)))))
        × (out.new ≡ sets out.old at (content_of (quoted_from 0 1 (drop 1 (drop place text.now))))) }
{
    let Ok(string) = string_at(text, place) else {
        return 0;
    };
    let from = place + 1;
    let end = string.next - 1;
    if string.length == end - from {
        put_run(out, at, 0, &text[from..end]);
        return end - from;
    }
    put_runs(text, place, out, at)
}

// Writes what the symbol or string at a place stands for into the output from index `at` on, as far as it reaches.
pub fn put_atom(text: &[u8], place: usize, out: &mut [u8], at: usize) -> usize
    ensures { (result ≡ length (atom_value (drop place text.now)))
        × (out.new ≡ sets out.old at (atom_value (drop place text.now))) }
{
    if text.get(place) == Some(&b'"') {
        return put_string(text, place, out, at);
    }
    put_symbol(text, place, out, at)
}
