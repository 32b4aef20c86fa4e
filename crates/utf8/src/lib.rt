// UTF-8: which sequences of bytes are well formed, where a text stops being UTF-8, and the line and
// column of a place (document 01, "Characters and brackets").
#![tactic(auto)]

ghost use Rattle.std.specs.Prelude.{◌≡◌, cond, true, [], ◌∷◌, ◌+◌, ◌-◌, ◌<◌, ◌≤◌, eqb, drop, length};
ghost use Rattle.std.specs.Option.{SomeIff};
ghost use Rattle.utf8.specs.reference.Sequence.{begins, begins_ascii, leading_ones, sequence_length, to, valid_up_to};
ghost use Rattle.utf8.specs.rules.Position.{column_of, is_continuation, line_of};

#[derive(Clone, Copy, Debug, PartialEq, Eq)]
pub struct LineColumn {
    pub line: usize,
    pub column: usize,
}

// The leading one bits of a byte: two to four in the first byte of a multi-byte sequence, as many as
// the sequence has bytes.
fn leading_ones(b: u8) -> u32
    ensures { result ≡ leading_ones b }
{
    u8::leading_zeros(!b)
}

// The lowest second byte after a first byte: what is lower would make an overlong form.
// It stays apart from the highest, with which it shares no row.
fn second_low(first: u8) -> u8
    ensures { result ≡ cond (eqb first 0xE0) 0xA0 (cond (eqb first 0xF0) 0x90 0x80) }
{
    match first {
        0xE0 => 0xA0,
        0xF0 => 0x90,
        _ => 0x80,
    }
}

// The highest second byte after a first byte: what is higher would make a surrogate, or a number past
// U+10FFFF.
fn second_high(first: u8) -> u8
    ensures { result ≡ cond (eqb first 0xED) 0x9F (cond (eqb first 0xF4) 0x8F 0xBF) }
{
    match first {
        0xED => 0x9F,
        0xF4 => 0x8F,
        _ => 0xBF,
    }
}

// Whether the byte at a place is in a range; at the end of the text and past it there is none.
fn byte_within(text: &[u8], place: usize, low: u8, high: u8) -> bool
    ensures { result ≡ begins (to low high ∷ []) (drop place text.now) }
{
    match text.get(place) {
        Some(&b) => low <= b && b <= high,
        None => false,
    }
}

// The length of the well-formed sequence at a place, where one stands there.
fn sequence_length(text: &[u8], place: usize) -> Option<usize>
    ensures { SomeIff result (0 < sequence_length (drop place text.now)) (sequence_length (drop place text.now)) }
{
    let first = *text.get(place)?;
    let ones = leading_ones(first);
    if ones == 0 {
        return Some(1);
    }
    // 0x80 to 0xBF begin nothing, 0xC0 and 0xC1 only overlong forms, and 0xF5 and above pass U+10FFFF
    if first < 0xC2 || 0xF4 < first {
        return None;
    }
    if !byte_within(text, place + 1, second_low(first), second_high(first)) {
        return None;
    }
    if ones == 2 {
        return Some(2);
    }
    if !byte_within(text, place + 2, 0x80, 0xBF) {
        return None;
    }
    if ones == 3 {
        return Some(3);
    }
    if !byte_within(text, place + 3, 0x80, 0xBF) {
        return None;
    }
    Some(4)
}

// Whether the N bytes from a place on are ASCII; `&`, which reads them all, has them compared at once.
fn ascii_run<const N: usize>(text: &[u8], place: usize) -> bool
    requires { place + N ≤ length text.now }
    ensures { result ≡ begins_ascii N (drop place text.now) }
{
    let mut all = true;
    for b in &text[place..place + N] {
        all &= *b < 0x80;
    }
    all
}

// Whether N ASCII bytes stand from a place on.
fn ascii_at<const N: usize>(text: &[u8], place: usize) -> bool
    requires { place ≤ length text.now }
    ensures { result ≡ begins_ascii N (drop place text.now) }
{
    N <= text.len() - place && ascii_run::<N>(text, place)
}

// Whether at most sixteen bytes stand from a place to the text's end and are seen to be ASCII: by the last eight and, where
// more are left, the eight at the place. The two blocks may overlap, and the last may begin before the place.
fn ascii_end(text: &[u8], place: usize) -> bool
    requires { place ≤ length text.now }
    ensures { result ≡ true → begins_ascii (length text.now - place) (drop place text.now) ≡ true }
{
    let n = text.len();
    if n < 8 {
        return false;
    }
    if n - place <= 8 {
        return ascii_run::<8>(text, n - 8);
    }
    if n - place <= 16 {
        return ascii_run::<8>(text, place) & ascii_run::<8>(text, n - 8);
    }
    false
}

// The place of the first ill-formed sequence, and the text's length where there is none. Most text is ASCII,
// whose bytes are sequences by themselves.
pub fn valid_up_to(text: &[u8]) -> usize
    ensures { result ≡ valid_up_to text.now }
{
    let mut i = 0;
    // no count: a step is as long as what was seen
    while i < text.len() {
        if ascii_at::<16>(text, i) {
            i += 16;
            continue;
        }
        if ascii_end(text, i) {
            return text.len();
        }
        if ascii_at::<8>(text, i) {
            i += 8;
            continue;
        }
        if text[i] < 0x80 {
            i += 1;
            continue;
        }
        let Some(n) = sequence_length(text, i) else {
            return i;
        };
        i += n;
    }
    i
}

// Whether a byte continues a character, and so is in the column of the byte before it.
#[tactic(auto, using(std::proofs::lemmas::Bool::Decides::nat_tests), unfolding(crate::specs::rules::Position::is_continuation))]
fn is_continuation(b: u8) -> bool
    ensures { result ≡ is_continuation b }
{
    matches!(b, 0x80..=0xBF)
}

// Line and column of a place, both from 1; a place past the end is taken as the end.
pub fn position(text: &[u8], place: usize) -> LineColumn
    ensures { (result.line ≡ line_of text.now place) × (result.column ≡ column_of text.now place) }
{
    let mut line: usize = 1;
    let mut column: usize = 1;
    for b in &text[..place.min(text.len())] {
        if *b == 0x0A {
            line += 1;
            column = 1;
        } else if !is_continuation(*b) {
            column += 1;
        }
    }
    LineColumn { line, column }
}
