// The names of the language and their numbers (document 01, "Elements").
#![tactic(auto)]

mod words; // words.rt: the comparisons with the names

ghost use Rattle.std.specs.Prelude.{◌≡◌};
ghost use Rattle.elements.specs.rules.Class.{class_of, kind_of, significance};

// An element's kind: "Kinds are numbered 1 to 25". Number 0 is no kind.
// It stays a number with names, and no enum: document 01 names this form (docs/decisions/forms.md).
#[derive(Clone, Copy, PartialEq, Eq)]
pub struct Kind {
    pub number: u8,
}

// A name that leads a list which is no element: a parameter's value, include and import.
// It has the form of `Kind`, as `class_of` promises one number for kinds and keywords alike.
#[derive(Clone, Copy)]
pub struct Keyword {
    pub number: u8,
}

impl Kind {
    pub const DOCUMENT: Kind = Kind { number: 1 };

    pub const PART: Kind = Kind { number: 2 };

    pub const SECTION: Kind = Kind { number: 3 };

    pub const SUBSECTION: Kind = Kind { number: 4 };

    pub const PARAGRAPH: Kind = Kind { number: 5 };

    pub const FORMAL_ITEM: Kind = Kind { number: 6 };

    pub const FOOTNOTE: Kind = Kind { number: 7 };

    pub const TITLE: Kind = Kind { number: 8 };

    pub const TEXT: Kind = Kind { number: 9 };

    pub const TERM: Kind = Kind { number: 10 };

    pub const IMAGE: Kind = Kind { number: 11 };

    pub const VERBATIM: Kind = Kind { number: 12 };

    pub const LINK: Kind = Kind { number: 13 };

    pub const LINK_EXT: Kind = Kind { number: 14 };

    pub const FOOTNOTE_REF: Kind = Kind { number: 15 };

    pub const LIST_ORDERED: Kind = Kind { number: 16 };

    pub const LIST_UNORDERED: Kind = Kind { number: 17 };

    pub const ITEM: Kind = Kind { number: 18 };

    pub const TABLE: Kind = Kind { number: 19 };

    pub const SUMMARY: Kind = Kind { number: 20 };

    pub const HEAD: Kind = Kind { number: 21 };

    pub const NAME: Kind = Kind { number: 22 };

    pub const BODY: Kind = Kind { number: 23 };

    pub const ROW: Kind = Kind { number: 24 };

    pub const CELL: Kind = Kind { number: 25 };

    // The kind that a name leads.
    // It stays 0 and no Option where there is none: so `kind_of` of the rules, which it promises, says it.
    pub fn of_name(name: &[u8]) -> Kind
        ensures { result.number ≡ kind_of name.now }
    {
        let class = class_of(name);
        // The numbers of the keywords follow those of the kinds.
        if class <= Kind::CELL.number {
            return Kind { number: class };
        }
        Kind { number: 0 }
    }

    // "document 4, part 3, section 2, subsection 1, the other three 0"
    #[tactic(auto, unfolding(elements::specs::rules::Class::significance))]
    pub fn significance(self) -> u8
        ensures { result ≡ significance self.number }
    {
        match self {
            Kind::DOCUMENT => 4,
            Kind::PART => 3,
            Kind::SECTION => 2,
            Kind::SUBSECTION => 1,
            _ => 0,
        }
    }
}

impl Keyword {
    pub const ID: Keyword = Keyword { number: 26 };

    pub const TYPE: Keyword = Keyword { number: 27 };

    pub const TARGET: Keyword = Keyword { number: 28 };

    pub const SIZE: Keyword = Keyword { number: 29 };

    pub const INCLUDE: Keyword = Keyword { number: 30 };

    pub const IMPORT: Keyword = Keyword { number: 31 };
}

// The class of a list led by a name: its kind's number, its keyword's, or 0.
// It stays a number and no Option of an enum: so `class_of` of the rules, which it promises, says it.
pub fn class_of(name: &[u8]) -> u8
    ensures { result ≡ class_of name.now }
{
    match name.len() {
        2 => words::if_is(name, b"id", Keyword::ID.number),
        3 => words::if_is(name, b"row", Kind::ROW.number),
        4 => words::of_4(name),
        5 => words::of_5(name),
        6 => words::of_6(name),
        7 => words::of_7(name),
        8 => words::of_8(name),
        9 => words::if_is(name, b"paragraph", Kind::PARAGRAPH.number),
        10 => words::if_is(name, b"subsection", Kind::SUBSECTION.number),
        11 => words::if_is(name, b"formal-item", Kind::FORMAL_ITEM.number),
        12 => words::of_12(name),
        14 => words::if_is(name, b"list-unordered", Kind::LIST_UNORDERED.number),
        _ => 0,
    }
}
