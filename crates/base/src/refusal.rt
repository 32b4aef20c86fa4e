// The refusals, by the names of specs/rules/Numbers.antt (document 01, "Numbers answered").
ghost use Rattle.std.specs.Prelude.{◌≡◌};
ghost use Rattle.base.specs.Refusals.{number};

// Why a text, a table or the memory lent is refused. The number 0 is none of them.
#[derive(Clone, Copy, Debug, PartialEq, Eq)]
pub enum Refusal {
    TextTooLong = 1,
    NotUtf8,
    ForbiddenCharacter,
    BadString,
    UnpairedBracket,
    TooDeep,
    NotOneExpression,
    NotAllowed,
    Absent,
    Malformed,
    OtherSort,
    Include,
    NodesShort,
    PoolShort,
    RowLength,
    RepeatedId,
    UnknownTarget,
    UnknownFootnote,
    NestedTooDeep,
    NotATable,
    OutputShort,
}

impl Refusal {
    // "Numbers answered"
    pub fn number(self) -> u32
        ensures { result ≡ number self }
    {
        self as u32
    }
}
