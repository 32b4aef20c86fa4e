// Bytes written into what is left of an output, as far as it reaches: each function takes the index to write at and gives the next.
// The index goes on past the output's end, so that an empty output measures. One that would pass 4,294,967,295 is given as 0.
ghost use Rattle.std.specs.Prelude.{◌≡◌, length, set};
ghost use Rattle.std.proofs.lemmas.List.Edits.{sets};
ghost use Rattle.base.specs.Adds.{word_sum};

use super::store::{store_all, store_byte};

// The greatest number of a word of 32 bits.
const GREATEST_WORD: usize = u32::MAX as usize;

// The sum of two numbers where it fits a word of 32 bits, and else 0.
// It stays 0 and no Option: `put_byte` and `put_bytes`, which are public, promise `word_sum` of specs/Adds.antt.
pub fn word_sum(a: usize, n: usize) -> usize
    ensures { result ≡ word_sum a n }
{
    match a.checked_add(n) {
        Some(sum) if sum <= GREATEST_WORD => sum,
        _ => 0,
    }
}

// One byte.
pub fn put_byte(out: &mut [u8], at: usize, b: u8) -> usize
    ensures { (result ≡ word_sum at 1) × (out.new ≡ set out.old at b) }
{
    store_byte(out, at, b);
    word_sum(at, 1)
}

// A run of bytes.
pub fn put_bytes(out: &mut [u8], at: usize, bytes: &[u8]) -> usize
    ensures { (result ≡ word_sum at (length bytes.now)) × (out.new ≡ sets out.old at bytes.now) }
{
    store_all(out, at, bytes);
    word_sum(at, bytes.len())
}
