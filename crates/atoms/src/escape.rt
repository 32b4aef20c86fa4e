// Escapes by number (document 01: "`\u` with four hex digits of either case, not D800 to DFFF").
ghost use Rattle.std.specs.Prelude.{◌≡◌, ◌+◌, ◌<◌, IfSome, drop, get_or};
ghost use Rattle.atoms.specs.internal.Escape.{digit_value, pair_value, escape_value};

// The value of a hexadecimal digit of either case.
#[tactic(auto, unfolding(crate::specs::internal::Escape::digit_value, syntax::specs::rules::Syntax::is_hex, syntax::specs::rules::Syntax::hex_digit))]
fn hex_digit(b: u8) -> Option<u8>
    ensures value { result ≡ digit_value b }
    ensures small { IfSome result (λ v. v < 16) }
{
    match b {
        b'0'..=b'9' => Some(b - b'0'),
        b'A'..=b'F' => Some(b - b'A' + 10),
        b'a'..=b'f' => Some(b - b'a' + 10),
        _ => None,
    }
}

// The value of two hexadecimal digits at a place.
#[tactic(auto, unfolding(crate::specs::internal::Escape::digit_value, crate::specs::internal::Escape::pair_value))]
fn hex_pair(text: &[u8], place: usize) -> Option<u8>
    ensures { result ≡ pair_value (get_or text.now place 0) (get_or text.now (place + 1) 0) }
{
    let high = hex_digit(*text.get(place)?)?;
    let low = hex_digit(*text.get(place + 1)?)?;
    Some(high * 16 + low)
}

// The value of the escape by number whose backslash is at a place.
pub fn number_at(text: &[u8], place: usize) -> Option<u16>
    ensures { result ≡ escape_value (get_or (drop place text.now) 2 0) (get_or (drop place text.now) 3 0)
        (get_or (drop place text.now) 4 0) (get_or (drop place text.now) 5 0) }
{
    if text.len() <= place {
        return None;
    }
    let high = hex_pair(text, place + 2)?;
    let low = hex_pair(text, place + 4)?;
    let value = u16::from(high) * 256 + u16::from(low);
    if value < 0xD800 {
        return Some(value);
    }
    if value < 0xE000 {
        return None;
    }
    Some(value)
}
