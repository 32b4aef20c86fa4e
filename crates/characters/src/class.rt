// The classes of bytes (document 01, "Characters and brackets").
ghost use Rattle.std.specs.Prelude.{◌≡◌};
ghost use Rattle.syntax.specs.rules.Byte.{byte_class, is_blank, is_ordinary};
ghost use Rattle.characters.specs.Codes.{code_of};

// "`(` closes with `)`, `[` with `]`."
#[derive(Clone, Copy, Debug, PartialEq, Eq)]
pub enum Bracket {
    Round,
    Square,
}

#[derive(Clone, Copy, Debug, PartialEq, Eq)]
pub enum ByteClass {
    Blank,
    Return,
    Quote,
    Forbidden,
    Ordinary,
    Opening(Bracket),
    Closing(Bracket),
}

// The class of a byte. Most are letters, which stand past the last byte with a class of its own.
#[tactic(auto, unfolding(syntax::specs::rules::Byte::byte_class, crate::specs::Codes::code_of, crate::specs::Codes::bracket_code))]
pub fn byte_class(b: u8) -> ByteClass
    ensures { result ≡ code_of (byte_class b) }
{
    if 0x5D < b {
        return ByteClass::Ordinary;
    }
    match b {
        0x09 | 0x0A | 0x20 => ByteClass::Blank,
        0x0D => ByteClass::Return,
        0x22 => ByteClass::Quote,
        0x28 => ByteClass::Opening(Bracket::Round),
        0x29 => ByteClass::Closing(Bracket::Round),
        0x5B => ByteClass::Opening(Bracket::Square),
        0x5D => ByteClass::Closing(Bracket::Square),
        0x00..=0x1F => ByteClass::Forbidden,
        _ => ByteClass::Ordinary,
    }
}

// Whether a byte is white space where it stands; a carriage return is it before a line feed alone.
pub fn is_blank(b: u8) -> bool
    ensures { result ≡ is_blank b }
{
    matches!(byte_class(b), ByteClass::Blank)
}

// Whether a byte is one of a symbol.
pub fn is_ordinary(b: u8) -> bool
    ensures { result ≡ is_ordinary b }
{
    matches!(byte_class(b), ByteClass::Ordinary)
}
