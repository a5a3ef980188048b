// Numbers as a line writes them: digits of a base, the first the most significant, with no leading zero.
ghost use Rattle.std.specs.Prelude.{◌≡◌, ◌≤◌};
ghost use Rattle.lines.specs.Numbers.{digit_in, plain, up_to, numeral, hex_number, dec_number};

// The value of a digit of the base: 0 to 9, then A to F. Not `char::to_digit`, which takes lowercase letters too. `map_vectors`
// has one for base 16 alone; the crate below both, `keymap`, reads no numbers.
fn digit(b: u8, base: u8) -> Option<u8>
    ensures { result ≡ digit_in base b }
{
    let d = match b {
        b'0'..=b'9' => b - b'0',
        b'A'..=b'F' => b - b'A' + 10,
        _ => return None,
    };
    if d < base { Some(d) } else { None }
}

// Whether the text has a first byte, and no zero before another.
fn plain(text: &[u8]) -> bool
    ensures { result ≡ plain text.now }
{
    match text {
        [] => false,
        [_] => true,
        [first, ..] => *first != b'0',
    }
}

// The number that the text writes in the base, if it is at most the limit.
fn number(text: &[u8], base: u8, most: u32) -> Option<u32>
    requires { 1 ≤ base }
    ensures { result ≡ up_to most (numeral base text.now) }
{
    if !plain(text) {
        return None;
    }
    let mut value: u64 = 0;
    for b in text {
        value = value * base as u64 + digit(*b, base)? as u64;
        if value > most as u64 {
            return None;
        }
    }
    Some(value as u32)
}

// The most digits of a number in base 16.
const HEX_DIGITS: usize = 8;

// The number that the text writes in base 16, in at most eight digits.
pub(crate) fn hex_number(text: &[u8]) -> Option<u32>
    ensures { result ≡ hex_number text.now }
{
    if text.len() > HEX_DIGITS {
        return None;
    }
    number(text, 16, u32::MAX)
}

// The number that the text writes in base 10, up to 255.
pub(crate) fn dec_number(text: &[u8]) -> Option<u8>
    ensures { result ≡ dec_number text.now }
{
    Some(number(text, 10, 255)? as u8)
}
