// Symbols (document 01, "Characters and brackets").
ghost use Rattle.std.specs.Prelude.{◌≡◌, drop, length, ◌+◌};
ghost use Rattle.syntax.specs.reference.Scan.{ordinary_run};

use super::class::is_ordinary;

// The place after the ordinary bytes from a place on.
pub fn symbol_end(text: &[u8], place: usize) -> usize
    ensures { result ≡ place + length (ordinary_run (drop place text.now)) }
{
    for i in place..text.len() {
        if !is_ordinary(text[i]) {
            return i;
        }
    }
    place.max(text.len())
}
