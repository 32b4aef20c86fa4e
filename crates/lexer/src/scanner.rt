// The scan (document 01, numbers 3 to 6).
ghost use Rattle.std.specs.Prelude.{◌≡◌, ◌<◌, min, length, drop};
ghost use Rattle.base.specs.rules.Limits.{nested_levels};
ghost use Rattle.syntax.specs.reference.Scan.{scan};
ghost use Rattle.lexer.specs.Token.{answer_number, answer_place, kind_number, scan_number, scan_place};
ghost use Rattle.lexer.specs.internal.Step.{passed, return_at};

use super::open::OpenBrackets;
use atoms::{BadString, string_at};
use base::limit::NESTED_LEVELS;
use base::number;
use characters::{ByteClass, byte_class};

// What a fault of the scan is.
#[derive(Clone, Copy, Debug, PartialEq, Eq)]
pub enum FaultKind {
    ForbiddenCharacter,
    BadString,
    UnpairedBracket,
    TooDeep,
}

impl FaultKind {
    #[tactic(auto, unfolding(crate::specs::Token::kind_number))]
    pub fn number(self) -> u32
        ensures { result ≡ kind_number self }
    {
        match self {
            FaultKind::ForbiddenCharacter => number::FORBIDDEN_CHARACTER,
            FaultKind::BadString => number::BAD_STRING,
            FaultKind::UnpairedBracket => number::UNPAIRED_BRACKET,
            FaultKind::TooDeep => number::TOO_DEEP,
        }
    }
}

// A fault of the scan and its place.
#[derive(Clone, Copy, Debug, PartialEq, Eq)]
pub struct Fault {
    pub kind: FaultKind,
    pub place: usize,
}

impl From<BadString> for Fault {
    ghost use Rattle.std.specs.Prelude.{◌≡◌};
    ghost use Rattle.lexer.specs.declared.scanner.FaultKind.TheVariants.{BadString};

    ghost from_gives = { λ bad fault. fault ≡ record { kind = BadString; place = bad.place } };

    fn from(bad: BadString) -> Fault {
        Fault {
            kind: FaultKind::BadString,
            place: bad.place,
        }
    }
}

// A fault at a place.
fn refuse<T>(kind: FaultKind, place: usize) -> Result<T, Fault>
    ensures { result ≡ Err (record { kind = kind; place = place }) }
{
    Err(Fault { kind, place })
}

// Past a carriage return, which a line feed follows.
#[tactic(auto, unfolding(crate::specs::internal::Step::passed, crate::specs::internal::Step::return_at, crate::specs::internal::Step::step_goes_on, crate::specs::internal::Step::stops, crate::specs::Token::kind_number))]
fn past_return(text: &[u8], place: usize) -> Result<usize, Fault>
    requires { place < length text.now }
    ensures { passed result ≡ return_at place (drop place text.now) }
{
    if text.get(place + 1) == Some(&b'\n') {
        return Ok(place + 1);
    }
    refuse(FaultKind::ForbiddenCharacter, place)
}

// One scan from left to right: brackets nest at most as deep as there is room, and never more than 64 deep.
pub fn scan(text: &[u8], room: usize) -> Result<(), Fault>
    ensures { (answer_number result ≡ scan_number (scan (min room nested_levels) text.now))
        × (answer_place result ≡ scan_place (scan (min room nested_levels) text.now)) }
{
    let limit = room.min(NESTED_LEVELS);
    let mut open = OpenBrackets::new();
    let mut i: usize = 0;
    // no count: a step is as long as what stands there
    while i < text.len() {
        match byte_class(text[i]) {
            // nearly every byte is of one of these two classes
            ByteClass::Ordinary | ByteClass::Blank => i += 1,
            ByteClass::Return => i = past_return(text, i)?,
            ByteClass::Quote => i = string_at(text, i)?.next,
            ByteClass::Forbidden => return refuse(FaultKind::ForbiddenCharacter, i),
            ByteClass::Opening(bracket) => {
                if limit <= open.depth() {
                    return refuse(FaultKind::TooDeep, i);
                }
                open.push(bracket, i);
                i += 1;
            }
            ByteClass::Closing(bracket) => match open.pop() {
                Some(o) if o.bracket == bracket => i += 1,
                _ => return refuse(FaultKind::UnpairedBracket, i),
            },
        }
    }
    match open.pop() {
        None => Ok(()),
        Some(o) => refuse(FaultKind::UnpairedBracket, o.place),
    }
}
