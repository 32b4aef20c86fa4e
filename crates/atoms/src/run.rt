// Runs of bytes: those of a string that stand for themselves, and bytes that are written as they stand.
ghost use Rattle.std.specs.Prelude.{◌≡◌, ◌+◌, ◌≤◌, leb, drop, length};
ghost use Rattle.std.proofs.lemmas.List.Edits.{sets};
ghost use Rattle.syntax.specs.rules.Byte.{is_raw};
ghost use Rattle.atoms.specs.internal.Run.{plain_run};

use base::store_all;

// Neither a quote nor a backslash. Tests are joined by `&`, here and below, so that no branch parts them.
fn plain(b: u8) -> bool
    ensures { result ≡ is_raw b }
{
    (b != 0x22) & (b != 0x5C)
}

// Whether the N bytes from a place on are plain.
fn plain_block<const N: usize>(text: &[u8], i: usize) -> bool
    requires { i + N ≤ length text.now }
    ensures { result ≡ leb N (length (plain_run (drop i text.now))) }
{
    let mut all = true;
    for k in 0..N {
        all = all & plain(text[i + k]);
    }
    all
}

// The place after blocks of 16 plain bytes, from which on the run ends where it ends.
fn blocks_end(text: &[u8], from: usize) -> usize
    ensures { result + length (plain_run (drop result text.now)) ≡ from + length (plain_run (drop from text.now)) }
{
    let mut i = from;
    if text.len() < i {
        return i;
    }
    while 16 <= text.len() - i {
        if !plain_block::<16>(text, i) {
            return i;
        }
        i += 16;
    }
    i
}

// The same after a block of 8 plain bytes, if one stands there.
fn block_end(text: &[u8], from: usize) -> usize
    ensures { result + length (plain_run (drop result text.now)) ≡ from + length (plain_run (drop from text.now)) }
{
    if text.len() < from {
        return from;
    }
    if text.len() - from < 8 {
        return from;
    }
    if plain_block::<8>(text, from) {
        return from + 8;
    }
    from
}

// The place after the run of plain bytes from a place on.
pub fn plain_end(text: &[u8], from: usize) -> usize
    ensures { result ≡ from + length (plain_run (drop from text.now)) }
{
    let start = block_end(text, blocks_end(text, from));
    for i in start..text.len() {
        if !plain(text[i]) {
            return i;
        }
    }
    start.max(text.len())
}

// Writes bytes, k bytes from an index on, as far as the output reaches.
pub fn put_run(out: &mut [u8], at: usize, k: usize, bytes: &[u8])
    ensures { out.new ≡ sets out.old (at + k) bytes.now }
{
    if out.len() <= at {
        return;
    }
    if out.len() - at <= k {
        return;
    }
    store_all(out, at + k, bytes);
}
