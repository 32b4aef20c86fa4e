// Names that are met often, told at once: the byte after the bracket leaves a few words, and what follows it is compared with the rest of each and a space.
// A name that is not told so is read byte by byte.
ghost use Rattle.std.specs.Prelude.{◌≡◌, cond, ◌+◌, ◌*◌, ◌≤◌, drop, get_or, length};
ghost use Rattle.lexer.specs.internal.Name.{stands, NameTold};

use kind::{Keyword, Kind};

// From a place on stand bytes enough for each of these names and a space.
const MOST_NAME: usize = 16;

// Whether the bytes of a word stand at a place. All are compared, without a branch, so that for a word that is known the compiler makes comparisons of whole
// machine words.
fn follows(text: &[u8], i: usize, word: &[u8]) -> bool
    requires { i + length word.now ≤ length text.now }
    ensures { result ≡ stands text.now i word.now }
{
    let mut same = true;
    for k in 0..word.len() {
        same &= text[i + k] == word[k];
    }
    same
}

// A name's length and its class in one number, which is not 0.
fn named(length: u8, class: u8) -> usize
    ensures { result ≡ 32 * length + class }
{
    32 * (length as usize) + (class as usize)
}

// The number of a name, where the word that follows its first byte stands there, and else 0.
fn only(text: &[u8], i: usize, word: &[u8], name: usize) -> usize
    requires { i + 1 + length word.now ≤ length text.now }
    ensures { result ≡ cond (stands text.now (i + 1) word.now) name 0 }
{
    if follows(text, i + 1, word) {
        return name;
    }
    0
}

// The names that begin with a letter, those met most often first.
fn of_t(text: &[u8], i: usize) -> usize
    requires { (i + 16 ≤ length text.now) × (get_or text.now i 0 ≡ 0x74) }
    ensures { NameTold (drop i text.now) result }
{
    if follows(text, i + 1, b"ype ") {
        return named(4, Keyword::TYPE.number);
    }
    if follows(text, i + 1, b"erm ") {
        return named(4, Kind::TERM.number);
    }
    if follows(text, i + 1, b"arget ") {
        return named(6, Keyword::TARGET.number);
    }
    if follows(text, i + 1, b"itle ") {
        return named(5, Kind::TITLE.number);
    }
    if follows(text, i + 1, b"able ") {
        return named(5, Kind::TABLE.number);
    }
    0
}

fn of_i(text: &[u8], i: usize) -> usize
    requires { (i + 16 ≤ length text.now) × (get_or text.now i 0 ≡ 0x69) }
    ensures { NameTold (drop i text.now) result }
{
    if follows(text, i + 1, b"tem ") {
        return named(4, Kind::ITEM.number);
    }
    if follows(text, i + 1, b"d ") {
        return named(2, Keyword::ID.number);
    }
    if follows(text, i + 1, b"mage ") {
        return named(5, Kind::IMAGE.number);
    }
    0
}

fn of_l(text: &[u8], i: usize) -> usize
    requires { (i + 16 ≤ length text.now) × (get_or text.now i 0 ≡ 0x6C) }
    ensures { NameTold (drop i text.now) result }
{
    if follows(text, i + 1, b"ink ") {
        return named(4, Kind::LINK.number);
    }
    if follows(text, i + 1, b"ist-unordered ") {
        return named(14, Kind::LIST_UNORDERED.number);
    }
    if follows(text, i + 1, b"ist-ordered ") {
        return named(12, Kind::LIST_ORDERED.number);
    }
    if follows(text, i + 1, b"ink-ext ") {
        return named(8, Kind::LINK_EXT.number);
    }
    0
}

fn of_p(text: &[u8], i: usize) -> usize
    requires { (i + 16 ≤ length text.now) × (get_or text.now i 0 ≡ 0x70) }
    ensures { NameTold (drop i text.now) result }
{
    if follows(text, i + 1, b"aragraph ") {
        return named(9, Kind::PARAGRAPH.number);
    }
    if follows(text, i + 1, b"art ") {
        return named(4, Kind::PART.number);
    }
    0
}

fn of_f(text: &[u8], i: usize) -> usize
    requires { (i + 16 ≤ length text.now) × (get_or text.now i 0 ≡ 0x66) }
    ensures { NameTold (drop i text.now) result }
{
    if follows(text, i + 1, b"ootnote ") {
        return named(8, Kind::FOOTNOTE.number);
    }
    if follows(text, i + 1, b"ootnote-ref ") {
        return named(12, Kind::FOOTNOTE_REF.number);
    }
    0
}

// The length and class of the name at a place, or 0 where it is not told.
pub fn name_at(text: &[u8], from: usize) -> usize
    ensures { NameTold (drop from text.now) result }
{
    if text.len() < from {
        return 0;
    }
    if text.len() - from < MOST_NAME {
        return 0;
    }
    match text[from] {
        b't' => of_t(text, from),
        b'i' => of_i(text, from),
        b'l' => of_l(text, from),
        b'p' => of_p(text, from),
        b'f' => of_f(text, from),
        b'b' => only(text, from, b"ody ", named(4, Kind::BODY.number)),
        b'c' => only(text, from, b"ell ", named(4, Kind::CELL.number)),
        b'h' => only(text, from, b"ead ", named(4, Kind::HEAD.number)),
        b'n' => only(text, from, b"ame ", named(4, Kind::NAME.number)),
        b'r' => only(text, from, b"ow ", named(3, Kind::ROW.number)),
        b's' => only(text, from, b"ize ", named(4, Keyword::SIZE.number)),
        b'v' => only(text, from, b"erbatim ", named(8, Kind::VERBATIM.number)),
        _ => 0,
    }
}
