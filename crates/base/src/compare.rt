// Whether two byte strings are equal.
ghost use Rattle.std.specs.Prelude.{◌≡◌, true};

pub fn equal(a: &[u8], b: &[u8]) -> bool
    ensures { (result ≡ true → a.now ≡ b.now) × (a.now ≡ b.now → result ≡ true) }
{
    a == b
}
