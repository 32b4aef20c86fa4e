// A name's length and one or two of its bytes leave one word that it can be, and it is compared with that.
// Tried: one `match name { b"part" => .., .. }` over all thirty leaves two hundred goals open, one for each way down its tree of tests.
ghost use Rattle.std.specs.Prelude.{◌≡◌, cond, length};
ghost use Rattle.elements.specs.rules.Bytes.{same};
ghost use Rattle.elements.specs.rules.Class.{class_of};

use super::{Keyword, Kind};

// The class where the name is the word, else 0, which is no Option as `class_of` promises that 0.
pub fn if_is(name: &[u8], word: &[u8], class: u8) -> u8
    ensures { result ≡ cond (same name.now word.now) class 0 }
{
    if name == word { class } else { 0 }
}

pub fn of_4(name: &[u8]) -> u8
    requires { length name.now ≡ 4 }
    ensures { result ≡ class_of name.now }
{
    match name[0] {
        b'p' => if_is(name, b"part", Kind::PART.number),
        b't' => match name[1] {
            b'e' => if_is(name, b"term", Kind::TERM.number),
            b'y' => if_is(name, b"type", Keyword::TYPE.number),
            _ => 0,
        },
        b'l' => if_is(name, b"link", Kind::LINK.number),
        b'i' => if_is(name, b"item", Kind::ITEM.number),
        b'h' => if_is(name, b"head", Kind::HEAD.number),
        b'n' => if_is(name, b"name", Kind::NAME.number),
        b'b' => if_is(name, b"body", Kind::BODY.number),
        b'c' => if_is(name, b"cell", Kind::CELL.number),
        b's' => if_is(name, b"size", Keyword::SIZE.number),
        _ => 0,
    }
}

pub fn of_5(name: &[u8]) -> u8
    requires { length name.now ≡ 5 }
    ensures { result ≡ class_of name.now }
{
    match name[1] {
        b'i' => if_is(name, b"title", Kind::TITLE.number),
        b'm' => if_is(name, b"image", Kind::IMAGE.number),
        b'a' => if_is(name, b"table", Kind::TABLE.number),
        _ => 0,
    }
}

pub fn of_6(name: &[u8]) -> u8
    requires { length name.now ≡ 6 }
    ensures { result ≡ class_of name.now }
{
    match name[0] {
        b't' => if_is(name, b"target", Keyword::TARGET.number),
        b'i' => if_is(name, b"import", Keyword::IMPORT.number),
        _ => 0,
    }
}

pub fn of_7(name: &[u8]) -> u8
    requires { length name.now ≡ 7 }
    ensures { result ≡ class_of name.now }
{
    match name[1] {
        b'e' => if_is(name, b"section", Kind::SECTION.number),
        b'u' => if_is(name, b"summary", Kind::SUMMARY.number),
        b'n' => if_is(name, b"include", Keyword::INCLUDE.number),
        _ => 0,
    }
}

pub fn of_8(name: &[u8]) -> u8
    requires { length name.now ≡ 8 }
    ensures { result ≡ class_of name.now }
{
    match name[0] {
        b'd' => if_is(name, b"document", Kind::DOCUMENT.number),
        b'f' => if_is(name, b"footnote", Kind::FOOTNOTE.number),
        b'v' => if_is(name, b"verbatim", Kind::VERBATIM.number),
        b'l' => if_is(name, b"link-ext", Kind::LINK_EXT.number),
        _ => 0,
    }
}

pub fn of_12(name: &[u8]) -> u8
    requires { length name.now ≡ 12 }
    ensures { result ≡ class_of name.now }
{
    match name[0] {
        b'f' => if_is(name, b"footnote-ref", Kind::FOOTNOTE_REF.number),
        b'l' => if_is(name, b"list-ordered", Kind::LIST_ORDERED.number),
        _ => 0,
    }
}
