// The numbers of the kinds as constants that a `match` takes.
// Tried: `match` on a `Kind` in `row_of`. Its arms give the proof no field `is`, by which each row is computed, and the proof did not close.
use kind::Kind;

pub const DOCUMENT: u8 = Kind::DOCUMENT.number;

pub const PART: u8 = Kind::PART.number;

pub const SECTION: u8 = Kind::SECTION.number;

pub const SUBSECTION: u8 = Kind::SUBSECTION.number;

pub const PARAGRAPH: u8 = Kind::PARAGRAPH.number;

pub const FORMAL_ITEM: u8 = Kind::FORMAL_ITEM.number;

pub const FOOTNOTE: u8 = Kind::FOOTNOTE.number;

pub const TITLE: u8 = Kind::TITLE.number;

pub const TEXT: u8 = Kind::TEXT.number;

pub const TERM: u8 = Kind::TERM.number;

pub const IMAGE: u8 = Kind::IMAGE.number;

pub const VERBATIM: u8 = Kind::VERBATIM.number;

pub const LINK: u8 = Kind::LINK.number;

pub const LINK_EXT: u8 = Kind::LINK_EXT.number;

pub const FOOTNOTE_REF: u8 = Kind::FOOTNOTE_REF.number;

pub const LIST_ORDERED: u8 = Kind::LIST_ORDERED.number;

pub const LIST_UNORDERED: u8 = Kind::LIST_UNORDERED.number;

pub const ITEM: u8 = Kind::ITEM.number;

pub const TABLE: u8 = Kind::TABLE.number;

pub const SUMMARY: u8 = Kind::SUMMARY.number;

pub const HEAD: u8 = Kind::HEAD.number;

pub const NAME: u8 = Kind::NAME.number;

pub const BODY: u8 = Kind::BODY.number;

pub const ROW: u8 = Kind::ROW.number;

pub const CELL: u8 = Kind::CELL.number;
