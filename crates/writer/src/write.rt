// Bytes, text and numbers, written behind what a vector of any capacity holds.
ghost use Rattle.std.specs.Prelude.{◌≡◌, ℕ, ◌+◌, ◌*◌, ◌%◌, ◌<◌, ◌≤◌, [], ◌∷◌, ◌++◌, length, take, drop, reverse};
ghost use Rattle.arrayvec.specs.ArrayVec.{array_vec_len};
ghost use Rattle.writer.specs.Numbers.{dec, in_base, hex_num, hex_digit, hex_of, utf8_of};

use arrayvec::ArrayVec;

// The bytes of a `Buf`.
pub const ROOM: usize = 64;

// Room for the bytes of a key or of a short line, and for what a caller writes behind them.
pub type Buf = ArrayVec<u8, ROOM>;

// All bytes of a text.
pub fn extend<const N: usize>(out: &mut ArrayVec<u8, N>, text: &[u8])
    requires { array_vec_len out.old + length text.now ≤ N }
    ensures bytes { out.new.items ≡ out.old.items ++ text.now }
    ensures len { array_vec_len out.new ≡ array_vec_len out.old + length text.now }
{
    // There is room, so this is not refused.
    let _ = out.try_extend_from_slice(text);
}

// A vector that holds a text.
pub fn written<const N: usize>(text: &[u8]) -> ArrayVec<u8, N>
    requires { length text.now ≤ N }
    ensures bytes { result.items ≡ text.now }
    ensures len { array_vec_len result ≡ length text.now }
{
    let mut out = ArrayVec::new();
    extend(&mut out, text);
    out
}

// Turns the bytes from `start` on round.
fn turn(bytes: &mut [u8], start: usize)
    requires { start ≤ length bytes.old }
    ensures { bytes.new ≡ take start bytes.old ++ reverse (drop start bytes.old) }
{
    bytes[start..].reverse();
}

// The digits of a number in a base from 2 to 16: the last one first, then all turned round, with no vector of their own that
// would be copied.
#[inline(always)]
fn numeral<const N: usize>(out: &mut ArrayVec<u8, N>, n: u32, base: u32)
    requires low { 2 ≤ base }
    requires high { base ≤ 16 }
    requires room { array_vec_len out.old + length (in_base base n) ≤ N }
    ensures bytes { out.new.items ≡ out.old.items ++ in_base base n }
    ensures len { array_vec_len out.new ≡ array_vec_len out.old + length (in_base base n) }
{
    let start = out.len();
    let mut rest = n;
    while rest >= base {
        out.push(hex_digit((rest % base) as u8));
        rest /= base;
    }
    out.push(hex_digit(rest as u8));
    turn(out.as_mut_slice(), start);
}

// A number in decimal. It is a call, so that the callers stay small; the base is a constant in it.
#[inline(never)]
pub fn decimal<const N: usize>(out: &mut ArrayVec<u8, N>, n: u32)
    requires { array_vec_len out.old + length (dec n) ≤ N }
    ensures bytes { out.new.items ≡ out.old.items ++ dec n }
    ensures len { array_vec_len out.new ≡ array_vec_len out.old + length (dec n) }
{
    numeral(out, n, 10);
}

// A number in hexadecimal. A call too.
#[inline(never)]
pub fn hexadecimal<const N: usize>(out: &mut ArrayVec<u8, N>, n: u32)
    requires { array_vec_len out.old + length (hex_num n) ≤ N }
    ensures bytes { out.new.items ≡ out.old.items ++ hex_num n }
    ensures len { array_vec_len out.new ≡ array_vec_len out.old + length (hex_num n) }
{
    numeral(out, n, 16);
}

// A code point in UTF-8. Not `char::encode_utf8`: a `char` is no surrogate, and the number of one is taken here.
pub fn utf8<const N: usize>(out: &mut ArrayVec<u8, N>, c: u32)
    requires room { array_vec_len out.old + length (utf8_of c) ≤ N }
    requires plane { c < 1114112 }
    ensures bytes { out.new.items ≡ out.old.items ++ utf8_of c }
    ensures len { array_vec_len out.new ≡ array_vec_len out.old + length (utf8_of c) }
{
    if c < 0x80 {
        out.push(c as u8);
    } else if c < 0x800 {
        extend(out, &[0xc0 + (c / 64) as u8, trailing(c)]);
    } else if c < 0x10000 {
        extend(
            out,
            &[0xe0 + (c / 4096) as u8, trailing(c / 64), trailing(c)],
        );
    } else {
        extend(
            out,
            &[
                0xf0 + (c / 262144) as u8,
                trailing(c / 4096),
                trailing(c / 64),
                trailing(c),
            ],
        );
    }
}

// The byte that carries a number's lowest six bits.
fn trailing(c: u32) -> u8
    ensures { result ≡ 128 + c % 64 }
{
    0x80 + (c % 64) as u8
}

// An uppercase hexadecimal digit.
pub fn hex_digit(d: u8) -> u8
    requires { d < 16 }
    ensures { result ≡ hex_digit d }
{
    if d < 10 { b'0' + d } else { b'A' - 10 + d }
}

// Bytes in hexadecimal.
pub fn hex<const N: usize>(out: &mut ArrayVec<u8, N>, bytes: &[u8])
    requires { array_vec_len out.old + 2 * length bytes.now ≤ N }
    ensures bytes { out.new.items ≡ out.old.items ++ hex_of bytes.now }
    ensures len { array_vec_len out.new ≡ array_vec_len out.old + 2 * length bytes.now }
{
    for b in bytes {
        out.push(hex_digit(*b / 16));
        out.push(hex_digit(*b % 16));
    }
}
