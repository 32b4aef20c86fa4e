// Writes the pieces of a spelling, as far as the output reaches.
ghost use Rattle.std.specs.Prelude.{◌≡◌, true, ◌||◌, [], ◌∷◌, ◌+◌, ◌<◌, ◌≤◌, eqb, ltb, length, take, drop};
ghost use Rattle.elements.specs.rules.Class.{name_of};
ghost use Rattle.document.specs.rules.Canonical.{hex_byte, byte_before, bytes_before, quoted_before, digits, string_before};
ghost use Rattle.document.specs.rules.Canonical as Canonical;
ghost use Rattle.base.specs.Adds.{greatest_word};
ghost use Rattle.printer.specs.internal.Appends.{Appends};
ghost use Rattle.printer.specs.internal.Pieces.{letter_of, leading_of};
ghost use Rattle.printer.specs.internal.Raw.{Raw, RawTo};
ghost use Rattle.printer.specs.internal.Inside.{value_inside, size_shown};

use super::name::put_name;
use base::{put_byte, put_bytes};
use kind::Keyword;

const TARGET: usize = Keyword::TARGET.number as usize;

// "lower-case hex"
#[tactic(auto, unfolding(document::specs::rules::Canonical::hex_byte))]
fn hex(d: u8) -> u8
    requires { d < 16 }
    ensures { result ≡ hex_byte d }
{
    if d < 10 { b'0' + d } else { b'a' + (d - 10) }
}

// What follows the backslash in `\" \n \r \t`; nothing for any other byte.
#[tactic(auto, unfolding(crate::specs::internal::Pieces::letter_of))]
fn letter(b: u8) -> Option<u8>
    ensures { result ≡ letter_of b }
{
    match b {
        b'"' => Some(b'"'),
        b'\n' => Some(b'n'),
        b'\r' => Some(b'r'),
        b'\t' => Some(b't'),
        _ => None,
    }
}

// "backslash as `\u005c`; other code points below U+0020 and U+007F as `\u` with lower-case hex"
fn is_coded(b: u8) -> bool
    ensures { result ≡ (eqb b 0x5C || ltb b 0x20 || eqb b 0x7F) }
{
    matches!(b, b'\\' | 0..=0x1F | 0x7F)
}

// Whether a byte of a string stands for itself: it has no letter and is not coded. By `letter` and `is_coded`, whose `match` is compiled into jumps, prose is
// printed nine times slower.
fn raw(b: u8) -> bool
    ensures { result ≡ true → Raw (b ∷ []) }
{
    (b != b'"') & (b != b'\\') & (0x1F < b) & (b != 0x7F)
}

// Whether eight bytes do. `&` makes every test, so that they are compiled into a few on all eight.
fn raw_8(bytes: &[u8], i: usize) -> bool
    requires { i + 8 ≤ length bytes.now }
    ensures { result ≡ true → Raw (take 8 (drop i bytes.now)) }
{
    let mut all = true;
    for k in 0..8 {
        all &= raw(bytes[i + k]);
    }
    all
}

// Past as many blocks of sixteen bytes as stand for themselves.
fn raw_blocks(bytes: &[u8], from: usize) -> usize
    requires { from ≤ length bytes.now }
    ensures { RawTo bytes.now from result }
{
    let blocks = (bytes.len() - from) / 16;
    for k in 0..blocks {
        let i = from + 16 * k;
        if !(raw_8(bytes, i) & raw_8(bytes, i + 8)) {
            return i;
        }
    }
    from + 16 * blocks
}

// Whether all from an index on do, where they are sixteen at most: by a test of the eight there and one of the last eight, which may overlap.
// So bytes are tested one by one only in a string of fewer than eight, or where one of them does not stand for itself.
fn raw_rest(bytes: &[u8], from: usize) -> bool
    requires { from ≤ length bytes.now }
    ensures { result ≡ true → RawTo bytes.now from (length bytes.now) }
{
    let end = bytes.len();
    if end < 8 {
        return false;
    }
    if 16 < end - from {
        return false;
    }
    let last = end - 8;
    raw_8(bytes, from.min(last)) & raw_8(bytes, last)
}

// Past as many bytes as stand for themselves.
fn raw_end(bytes: &[u8], from: usize) -> usize
    requires { from ≤ length bytes.now }
    ensures { RawTo bytes.now from result }
{
    let first = raw_blocks(bytes, from);
    if raw_rest(bytes, first) {
        return bytes.len();
    }
    for i in first..bytes.len() {
        if !raw(bytes[i]) {
            return i;
        }
    }
    bytes.len()
}

// How many of five digits a number does not have.
#[tactic(auto, unfolding(crate::specs::internal::Pieces::leading_of))]
fn leading(n: usize) -> usize
    ensures { result ≡ leading_of n }
{
    match n {
        0..=9 => 4,
        10..=99 => 3,
        100..=999 => 2,
        1000..=9999 => 1,
        _ => 0,
    }
}

#[tactic(auto, unfolding(document::specs::rules::Canonical::digit))]
fn digit(n: usize) -> u8
    ensures { result ≡ Canonical.digit n }
{
    b'0' + (n % 10) as u8
}

// An output and the index to write next, which goes on past the output's end, so that an empty output measures.
// An index that would pass 4,294,967,295 is 0: no document within the limits has so long a spelling.
#[derive(Drop)]
pub struct Output<'a> {
    pub out: &'a mut [u8],
    pub at: usize,
}

impl Output<'_> {
    pub fn byte(&mut self, b: u8)
        ensures fits { self.new.at ≤ greatest_word }
        ensures appends { Appends self.old (b ∷ []) self.new }
    {
        self.at = put_byte(self.out, self.at, b);
    }

    fn bytes(&mut self, bytes: &[u8])
        ensures { Appends self.old bytes.now self.new }
    {
        self.at = put_bytes(self.out, self.at, bytes);
    }

    pub fn name(&mut self, class: usize)
        ensures { Appends self.old (name_of class) self.new }
    {
        self.at = put_name(self.out, self.at, class);
    }

    // A byte of a string.
    fn string_byte(&mut self, b: u8)
        ensures { Appends self.old (byte_before b []) self.new }
    {
        match letter(b) {
            Some(short) => {
                self.byte(b'\\');
                self.byte(short);
            }
            None if is_coded(b) => {
                self.bytes(&[b'\\', b'u', b'0', b'0', hex(b / 16), hex(b % 16)]);
            }
            None => self.byte(b),
        }
    }

    // A string's bytes: those that stand for themselves are copied, as many as stand together.
    fn escaped(&mut self, bytes: &[u8])
        ensures { Appends self.old (bytes_before bytes.now []) self.new }
    {
        let mut i = 0;
        loop {
            let end = raw_end(bytes, i);
            self.bytes(&bytes[i..end]);
            if bytes.len() <= end {
                return;
            }
            self.string_byte(bytes[end]);
            i = end + 1;
        }
    }

    pub fn quoted(&mut self, bytes: &[u8])
        ensures fits { self.new.at ≤ greatest_word }
        ensures appends { Appends self.old (quoted_before bytes.now []) self.new }
    {
        self.byte(b'"');
        self.escaped(bytes);
        self.byte(b'"');
    }

    // The last five digits, with no leading zero. By hand: the kit's `itoa` writes them all, and would be one crate more to rest on.
    fn digits(&mut self, n: usize)
        ensures { Appends self.old (digits n) self.new }
    {
        let five = [
            digit(n / 10000),
            digit(n / 1000),
            digit(n / 100),
            digit(n / 10),
            digit(n),
        ];
        self.bytes(&five[leading(n)..]);
    }

    // "ids and types as symbols, targets and texts quoted"
    fn string(&mut self, class: usize, bytes: &[u8])
        ensures { Appends self.old (string_before class bytes.now []) self.new }
    {
        if class == TARGET {
            self.quoted(bytes);
        } else {
            self.bytes(bytes);
        }
    }

    // A space and the value of a class, where there is one.
    pub fn value(&mut self, class: usize, bytes: &[u8])
        ensures { Appends self.old (value_inside class bytes.now) self.new }
    {
        if bytes.is_empty() {
            return;
        }
        self.bytes(b" [");
        self.name(class);
        self.byte(b' ');
        self.string(class, bytes);
        self.byte(b']');
    }

    // A space and a size, where there is one.
    pub fn size(&mut self, size: Option<(usize, usize)>)
        ensures { Appends self.old (size_shown size) self.new }
    {
        let Some((width, height)) = size else {
            return;
        };
        self.bytes(b" [size ");
        self.digits(width);
        self.byte(b' ');
        self.digits(height);
        self.byte(b']');
    }
}
