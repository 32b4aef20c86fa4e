// The bytes of a text by their places.
ghost use Rattle.std.specs.Prelude.{◌≡◌, get_or};

// The byte at a place; at the end of the text and past it 0, which is no byte of a token.
pub fn byte_at(text: &[u8], place: usize) -> u8
    ensures { result ≡ get_or text.now place 0 }
{
    text.get(place).copied().unwrap_or(0)
}
