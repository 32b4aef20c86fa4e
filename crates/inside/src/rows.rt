// The table of elements (document 01, "Elements"): an arm for each row.
// A `match` on a number becomes a table in the program's constants; a constant array would be built anew at each use.
ghost use Rattle.std.specs.Prelude.{◌+◌, ◌≡◌, drop};
ghost use Rattle.elements.specs.rules.Rules.{rule_of};
ghost use Rattle.elements.specs.rules.Inside.{allows};
ghost use Rattle.inside.specs.internal.Table.{is_required, led, packed, bits};

use super::number;
use kind::Keyword;

// The parameters of a row are at most so many.
pub const MOST_PARAMETERS: u8 = 4;

// A parameter, in its place in the order: required or optional, of a class, or `id?/type?`, "either order".
#[derive(Clone, Copy, Debug, PartialEq, Eq)]
pub enum Parameter {
    Required(u8),
    Optional(u8),
    IdType,
}

impl Parameter {
    pub fn is_required(self) -> bool
        ensures { result ≡ is_required self }
    {
        matches!(self, Parameter::Required(_))
    }
}

// In a row's number a required parameter is its class, an optional one this and its class, and `id?/type?` this.
// The rows hold numbers, and `parameter_at` gives the enum, so that `row_of` is a table of two words a kind in the program's constants.
const MAY: u8 = 64;

const ID_TYPE: u8 = 255;

// A row: its parameters, and the classes that may follow them.
#[derive(Clone, Copy)]
struct Row(u32, u32);

// Parameters: a byte each, from the lowest on.
const NONE: u32 = 0;

const EITHER: u32 = ID_TYPE as u32;

const MAY_TYPE: u32 = (MAY + Keyword::TYPE.number) as u32;

const MAY_SIZE: u32 = (MAY + Keyword::SIZE.number) as u32;

const MAY_HEAD: u32 = (MAY + number::HEAD) as u32;

const TARGET: u32 = Keyword::TARGET.number as u32;

const TITLE_EITHER: u32 = number::TITLE as u32 | EITHER << 8;

const ID_TYPED: u32 = Keyword::ID.number as u32 | MAY_TYPE << 8;

const TARGET_SIZED_TYPED: u32 = TARGET | MAY_SIZE << 8 | MAY_TYPE << 16;

const SUMMARY_TYPED_HEADED_BODY: u32 = number::SUMMARY as u32
    | MAY_TYPE << 8
    | MAY_HEAD << 16
    | (number::BODY as u32) << 24;

// Sets of classes: the bit of each class's number.
const TEXTS: u32 = 1 << number::TEXT;

const TEXTS_IMAGES: u32 = TEXTS | 1 << number::IMAGE;

const SECTIONS: u32 = 1 << number::SECTION;

const PARTS_SECTIONS: u32 = 1 << number::PART | SECTIONS;

const PARAGRAPHS: u32 = 1 << number::PARAGRAPH | 1 << number::FORMAL_ITEM | 1 << number::FOOTNOTE;

const SUBSECTIONS_PARAGRAPHS: u32 = 1 << number::SUBSECTION | PARAGRAPHS;

const ITEMS: u32 = 1 << number::ITEM;

const NAMES: u32 = 1 << number::NAME;

const ROWS: u32 = 1 << number::ROW;

const CELLS: u32 = 1 << number::CELL;

// "Inline is text and kinds 10 to 17 and 19."
const INLINE_BUT_TABLE: u32 = TEXTS | (1 << 18) - (1 << 10);

const INLINE: u32 = INLINE_BUT_TABLE | 1 << number::TABLE;

fn row_of(kind: u8) -> Row
    ensures { (result.0 ≡ packed (rule_of kind).parameters) × (result.1 ≡ bits (rule_of kind).content 32) }
{
    match kind {
        number::DOCUMENT => Row(TITLE_EITHER, PARTS_SECTIONS),
        number::PART => Row(TITLE_EITHER, SECTIONS),
        number::SECTION => Row(TITLE_EITHER, SUBSECTIONS_PARAGRAPHS),
        number::SUBSECTION => Row(TITLE_EITHER, PARAGRAPHS),
        number::PARAGRAPH => Row(EITHER, INLINE),
        number::FORMAL_ITEM => Row(TITLE_EITHER, INLINE),
        number::FOOTNOTE => Row(ID_TYPED, INLINE),
        number::TITLE => Row(NONE, TEXTS),
        number::TERM => Row(MAY_TYPE, TEXTS),
        number::IMAGE => Row(TARGET_SIZED_TYPED, TEXTS),
        number::VERBATIM => Row(MAY_TYPE, TEXTS),
        number::LINK => Row(TARGET, TEXTS_IMAGES),
        number::LINK_EXT => Row(TARGET, TEXTS_IMAGES),
        number::FOOTNOTE_REF => Row(TARGET, NONE),
        number::LIST_ORDERED => Row(NONE, ITEMS),
        number::LIST_UNORDERED => Row(NONE, ITEMS),
        number::ITEM => Row(NONE, INLINE),
        number::TABLE => Row(SUMMARY_TYPED_HEADED_BODY, NONE),
        number::SUMMARY => Row(NONE, TEXTS),
        number::HEAD => Row(NONE, NAMES),
        number::NAME => Row(NONE, TEXTS),
        number::BODY => Row(NONE, ROWS),
        number::ROW => Row(NONE, CELLS),
        number::CELL => Row(NONE, INLINE_BUT_TABLE),
        _ => Row(NONE, NONE),
    }
}

// The parameter at a place of a kind's row, where the row has one there.
pub fn parameter_at(kind: u8, place: u8) -> Option<Parameter>
    ensures { drop place (rule_of kind).parameters ≡ led result (drop (place + 1) (rule_of kind).parameters) }
{
    if MOST_PARAMETERS <= place {
        return None;
    }
    let row = row_of(kind);
    let code = ((row.0 >> (8 * (place as u32))) % 256) as u8;
    match code {
        0 => None,
        1..MAY => Some(Parameter::Required(code)),
        MAY..ID_TYPE => Some(Parameter::Optional(code - MAY)),
        ID_TYPE => Some(Parameter::IdType),
    }
}

// Whether a child of a class may stand in a kind.
pub fn allowed(kind: u8, class: u8) -> bool
    ensures { result ≡ allows (rule_of kind).content class }
{
    if 32 <= class {
        return false;
    }
    let row = row_of(kind);
    (row.1 >> class) % 2 == 1
}
