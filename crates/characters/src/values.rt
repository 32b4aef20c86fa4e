// The characters of ids, types and targets (document 01, "Elements" and its settlements).
ghost use Rattle.std.specs.Prelude.{◌≡◌};
ghost use Rattle.elements.specs.rules.Characters.{type_character, id_character, uri_character, character_of};
ghost use Rattle.characters.specs.Codes.{alphabet_number};

// Whose characters are asked for: those of a type, of an id or the target of a link, or of a URI.
#[derive(Clone, Copy, Debug, PartialEq, Eq)]
pub enum Alphabet {
    Type,
    Id,
    Uri,
}

// The alphabet that a number stood for: 0 is a type's, 1 an id's, and any other a URI's.
impl From<u8> for Alphabet {
    ghost use Rattle.characters.specs.Codes.{IsAlphabetOf};

    ghost from_gives = { IsAlphabetOf };

    fn from(sort: u8) -> Alphabet {
        match sort {
            0 => Alphabet::Type,
            1 => Alphabet::Id,
            _ => Alphabet::Uri,
        }
    }
}

#[tactic(auto, unfolding(elements::specs::rules::Characters::type_character, elements::specs::rules::Characters::is_letter, elements::specs::rules::Characters::is_digit))]
fn type_character(b: u8) -> bool
    ensures { result ≡ type_character b }
{
    matches!(b, b'a'..=b'z' | b'A'..=b'Z' | b'0'..=b'9' | b'_')
}

#[tactic(auto, unfolding(elements::specs::rules::Characters::id_character))]
fn id_character(b: u8) -> bool
    ensures { result ≡ id_character b }
{
    type_character(b) || b == b'-' || b == b'.'
}

#[tactic(auto, unfolding(elements::specs::rules::Characters::uri_character))]
fn uri_character(b: u8) -> bool
    ensures { result ≡ uri_character b }
{
    matches!(b, 0x21..=0x7E)
}

impl Alphabet {
    // Whether a byte is one of its characters.
    #[tactic(auto, unfolding(elements::specs::rules::Characters::character_of, crate::specs::Codes::alphabet_number))]
    pub fn has(self, b: u8) -> bool
        ensures { result ≡ character_of (alphabet_number self) b }
    {
        match self {
            Alphabet::Type => type_character(b),
            Alphabet::Id => id_character(b),
            Alphabet::Uri => uri_character(b),
        }
    }
}

// Whether a byte is a character of a value: of a type (0), of an id or the target of a link (1), else of a URI.
pub fn character(sort: u8, b: u8) -> bool
    ensures { result ≡ character_of sort b }
{
    Alphabet::from(sort).has(b)
}
