// A part of one slice copied into another. A short part is copied by two blocks, which overlap where it is not twice as long as a block:
// so it takes neither a loop nor a call of the C library's copy, which costs more than the copy itself.
ghost use Rattle.std.specs.Prelude.{◌+◌, ◌<◌, ◌≤◌, ◌≡◌, leb, length, take, drop};
ghost use Rattle.std.proofs.lemmas.List.Edits.{sets};

use super::store::store_all;

// A block of N bytes, by one load and one store.
fn copy_block<const N: usize>(out: &mut [u8], at: usize, bytes: &[u8], from: usize)
    requires { (at + N ≤ length out.old) × (from + N ≤ length bytes.now) }
    ensures { out.new ≡ sets out.old at (take N (drop from bytes.now)) }
{
    out[at..at + N].copy_from_slice(&bytes[from..from + N]);
}

// Fewer than 8 bytes.
fn copy_few(out: &mut [u8], at: usize, bytes: &[u8], from: usize, count: usize)
    requires { (count < 8) × (at + count ≤ length out.old) × (from + count ≤ length bytes.now) }
    ensures { out.new ≡ sets out.old at (take count (drop from bytes.now)) }
{
    if 4 <= count {
        let more = count - 4;
        copy_block::<4>(out, at, bytes, from);
        copy_block::<4>(out, at + more, bytes, from + more);
        return;
    }
    if 2 <= count {
        let more = count - 2;
        copy_block::<2>(out, at, bytes, from);
        copy_block::<2>(out, at + more, bytes, from + more);
        return;
    }
    if count == 1 {
        out[at] = bytes[from];
    }
}

// The same of any number.
fn copy_within(out: &mut [u8], at: usize, bytes: &[u8], from: usize, count: usize)
    requires { (at + count ≤ length out.old) × (from + count ≤ length bytes.now) }
    ensures { out.new ≡ sets out.old at (take count (drop from bytes.now)) }
{
    if count < 8 {
        copy_few(out, at, bytes, from, count);
        return;
    }
    if count <= 16 {
        let more = count - 8;
        copy_block::<8>(out, at, bytes, from);
        copy_block::<8>(out, at + more, bytes, from + more);
        return;
    }
    if count <= 32 {
        let more = count - 16;
        copy_block::<16>(out, at, bytes, from);
        copy_block::<16>(out, at + more, bytes, from + more);
        return;
    }
    let last = from + count;
    store_all(out, at, &bytes[from..last]);
}

// There are so many bytes from `start` on in a slice of this length.
fn reaches(length: usize, start: usize, count: usize) -> bool
    ensures { result ≡ leb (start + count) length }
{
    start.checked_add(count).is_some_and(|end| end <= length)
}

// `count` bytes from `from` on, to `at` on: as many as there are, and as there are places for.
pub fn copy_part(out: &mut [u8], at: usize, bytes: &[u8], from: usize, count: usize)
    ensures { out.new ≡ sets out.old at (take count (drop from bytes.now)) }
{
    if !reaches(bytes.len(), from, count) {
        if bytes.len() <= from {
            return;
        }
        store_all(out, at, &bytes[from..]);
        return;
    }
    if !reaches(out.len(), at, count) {
        let last = from + count;
        store_all(out, at, &bytes[from..last]);
        return;
    }
    copy_within(out, at, bytes, from, count);
}
