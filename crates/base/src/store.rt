// Bytes stored at an index, as many as there are places for.
ghost use Rattle.std.specs.Prelude.{◌≡◌, min, length, set};
ghost use Rattle.std.proofs.lemmas.List.Edits.{sets};

// The lesser of two numbers.
pub fn lesser(a: usize, b: usize) -> usize
    ensures { result ≡ min a b }
{
    a.min(b)
}

// Bytes into a slice of their length. The loop is compiled in place, or into one copy by C's `memcpy`. The library's copy calls C's `memmove`,
// which the archive would then ask for too.
fn copy(out: &mut [u8], bytes: &[u8])
    requires { length out.old ≡ length bytes.now }
    ensures { out.new ≡ bytes.now }
{
    for i in 0..bytes.len() {
        out[i] = bytes[i];
    }
}

// One byte, where there is such a place.
pub fn store_byte(out: &mut [u8], at: usize, b: u8)
    ensures { out.new ≡ set out.old at b }
{
    if at < out.len() {
        out[at] = b;
    }
}

// The bytes from an index on, as many as there are places for.
pub fn store_all(out: &mut [u8], at: usize, bytes: &[u8])
    ensures { out.new ≡ sets out.old at bytes.now }
{
    if out.len() <= at {
        return;
    }
    let count = lesser(bytes.len(), out.len() - at);
    let end = at + count;
    copy(&mut out[at..end], &bytes[..count]);
}
