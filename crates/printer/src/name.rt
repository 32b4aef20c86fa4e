// The names of the classes, each written where its class is picked.
ghost use Rattle.std.specs.Prelude.{◌≤◌, ◌<◌};
ghost use Rattle.elements.specs.rules.Class.{subsection, title, footnote_ref, table, cell, name_of};
ghost use Rattle.base.specs.Adds.{Adds};

use base::put_bytes;
use kind::{Keyword, Kind};

// The numbers of the classes that have a name, as constants that a `match` takes.
const DOCUMENT: usize = Kind::DOCUMENT.number as usize;

const PART: usize = Kind::PART.number as usize;

const SECTION: usize = Kind::SECTION.number as usize;

const SUBSECTION: usize = Kind::SUBSECTION.number as usize;

const PARAGRAPH: usize = Kind::PARAGRAPH.number as usize;

const FORMAL_ITEM: usize = Kind::FORMAL_ITEM.number as usize;

const FOOTNOTE: usize = Kind::FOOTNOTE.number as usize;

const TITLE: usize = Kind::TITLE.number as usize;

const TERM: usize = Kind::TERM.number as usize;

const IMAGE: usize = Kind::IMAGE.number as usize;

const VERBATIM: usize = Kind::VERBATIM.number as usize;

const LINK: usize = Kind::LINK.number as usize;

const LINK_EXT: usize = Kind::LINK_EXT.number as usize;

const FOOTNOTE_REF: usize = Kind::FOOTNOTE_REF.number as usize;

const LIST_ORDERED: usize = Kind::LIST_ORDERED.number as usize;

const LIST_UNORDERED: usize = Kind::LIST_UNORDERED.number as usize;

const ITEM: usize = Kind::ITEM.number as usize;

const TABLE: usize = Kind::TABLE.number as usize;

const SUMMARY: usize = Kind::SUMMARY.number as usize;

const HEAD: usize = Kind::HEAD.number as usize;

const NAME: usize = Kind::NAME.number as usize;

const BODY: usize = Kind::BODY.number as usize;

const ROW: usize = Kind::ROW.number as usize;

const CELL: usize = Kind::CELL.number as usize;

const ID: usize = Keyword::ID.number as usize;

const TYPE: usize = Keyword::TYPE.number as usize;

const TARGET: usize = Keyword::TARGET.number as usize;

const SIZE: usize = Keyword::SIZE.number as usize;

const INCLUDE: usize = Keyword::INCLUDE.number as usize;

const IMPORT: usize = Keyword::IMPORT.number as usize;

// The name of a document, or of a part, section or subsection of one; number 0 has none.
fn put_division_name(out: &mut [u8], at: usize, class: usize) -> usize
    requires { class ≤ subsection }
    ensures { Adds (name_of class) at out.old result out.new }
{
    match class {
        DOCUMENT => put_bytes(out, at, b"document"),
        PART => put_bytes(out, at, b"part"),
        SECTION => put_bytes(out, at, b"section"),
        SUBSECTION => put_bytes(out, at, b"subsection"),
        _ => at,
    }
}

// The name of a block that holds inline content, or of a title.
fn put_paragraph_name(out: &mut [u8], at: usize, class: usize) -> usize
    requires { (subsection < class) × (class ≤ title) }
    ensures { Adds (name_of class) at out.old result out.new }
{
    match class {
        PARAGRAPH => put_bytes(out, at, b"paragraph"),
        FORMAL_ITEM => put_bytes(out, at, b"formal-item"),
        FOOTNOTE => put_bytes(out, at, b"footnote"),
        TITLE => put_bytes(out, at, b"title"),
        _ => at,
    }
}

// The name of what stands beside texts in inline content, lists and tables apart; a text has none.
fn put_inline_name(out: &mut [u8], at: usize, class: usize) -> usize
    requires { (title < class) × (class ≤ footnote_ref) }
    ensures { Adds (name_of class) at out.old result out.new }
{
    match class {
        TERM => put_bytes(out, at, b"term"),
        IMAGE => put_bytes(out, at, b"image"),
        VERBATIM => put_bytes(out, at, b"verbatim"),
        LINK => put_bytes(out, at, b"link"),
        LINK_EXT => put_bytes(out, at, b"link-ext"),
        FOOTNOTE_REF => put_bytes(out, at, b"footnote-ref"),
        _ => at,
    }
}

// The name of a list, of its items or of a table.
fn put_list_name(out: &mut [u8], at: usize, class: usize) -> usize
    requires { (footnote_ref < class) × (class ≤ table) }
    ensures { Adds (name_of class) at out.old result out.new }
{
    match class {
        LIST_ORDERED => put_bytes(out, at, b"list-ordered"),
        LIST_UNORDERED => put_bytes(out, at, b"list-unordered"),
        ITEM => put_bytes(out, at, b"item"),
        TABLE => put_bytes(out, at, b"table"),
        _ => at,
    }
}

// The name of what a table is made of.
fn put_table_part_name(out: &mut [u8], at: usize, class: usize) -> usize
    requires { (table < class) × (class ≤ cell) }
    ensures { Adds (name_of class) at out.old result out.new }
{
    match class {
        SUMMARY => put_bytes(out, at, b"summary"),
        HEAD => put_bytes(out, at, b"head"),
        NAME => put_bytes(out, at, b"name"),
        BODY => put_bytes(out, at, b"body"),
        ROW => put_bytes(out, at, b"row"),
        CELL => put_bytes(out, at, b"cell"),
        _ => at,
    }
}

// The name of a parameter, of include or of import; a greater number has none.
fn put_keyword_name(out: &mut [u8], at: usize, class: usize) -> usize
    requires { cell < class }
    ensures { Adds (name_of class) at out.old result out.new }
{
    match class {
        ID => put_bytes(out, at, b"id"),
        TYPE => put_bytes(out, at, b"type"),
        TARGET => put_bytes(out, at, b"target"),
        SIZE => put_bytes(out, at, b"size"),
        INCLUDE => put_bytes(out, at, b"include"),
        IMPORT => put_bytes(out, at, b"import"),
        _ => at,
    }
}

// The name of a class; number 0 and a text have none.
// It is picked in groups: what has to be proved of a `match` grows faster than the number of its arms.
pub fn put_name(out: &mut [u8], at: usize, class: usize) -> usize
    ensures { Adds (name_of class) at out.old result out.new }
{
    if class <= SUBSECTION {
        return put_division_name(out, at, class);
    }
    if class <= TITLE {
        return put_paragraph_name(out, at, class);
    }
    if class <= FOOTNOTE_REF {
        return put_inline_name(out, at, class);
    }
    if class <= TABLE {
        return put_list_name(out, at, class);
    }
    if class <= CELL {
        return put_table_part_name(out, at, class);
    }
    put_keyword_name(out, at, class)
}
