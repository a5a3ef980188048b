// One character from the front of bytes.
ghost use Rattle.std.specs.Prelude.{◌≡◌, ℕ, ◌≤◌, true, List, ◌++◌, length, Some};
ghost use Rattle.std.specs.Option.{option_map};
ghost use Rattle.character.specs.Characters.{scalar};
ghost use Rattle.writer.specs.Numbers.{utf8_of};
ghost use Rattle.text.specs.declared.kinds.Character.TheVariants.{Scalar};
ghost use Rattle.text.specs.Rows.{behind, ranges, range_at};
ghost use Rattle.text.specs.Table.{table, holds, fits};
ghost use Rattle.text.specs.Reading.{six_bits, carried, character_of, settled, Counted, Exactly};

use crate::kinds::{Character, Row};

// A row by its parts.
fn row(more: usize, low: u8, high: u8) -> Option<Row>
    ensures { result ≡ Some (record { more = more; low = low; high = high }) }
{
    Some(Row { more, low, high })
}

// What may follow a first byte.
fn row_of(first: u8) -> Option<Row>
    ensures { option_map ranges result ≡ behind table first }
{
    match first {
        0x00..=0x7f => row(0, 0x80, 0xbf),
        0xc2..=0xdf => row(1, 0x80, 0xbf),
        0xe0 => row(2, 0xa0, 0xbf),
        0xe1..=0xec => row(2, 0x80, 0xbf),
        0xed => row(2, 0x80, 0x9f),
        0xee..=0xef => row(2, 0x80, 0xbf),
        0xf0 => row(3, 0x90, 0xbf),
        0xf1..=0xf3 => row(3, 0x80, 0xbf),
        0xf4 => row(3, 0x80, 0x8f),
        _ => None,
    }
}

// Whether the byte may stand at this place behind the first.
fn may_stand(row: Row, place: usize, b: u8) -> bool
    ensures { result ≡ holds (range_at row place) b }
{
    if place == 0 {
        (row.low..=row.high).contains(&b)
    } else {
        (0x80..=0xbf).contains(&b)
    }
}

// How many of the bytes behind the first may stand there.
fn fitting(row: Row, bytes: &[u8]) -> usize
    ensures value { result ≡ fits (ranges row) bytes.now }
    ensures count { result ≤ length bytes.now }
{
    bytes
        .iter()
        .take(row.more)
        .enumerate()
        .take_while(|(n, b)| may_stand(row, *n, **b))
        .count()
}

// The six bits of a byte behind the first.
fn six_bits(b: u8) -> u32
    ensures { result ≡ six_bits b }
{
    b as u32 % 64
}

// The number that a character's bytes carry.
fn scalar_of(bytes: &[u8]) -> u32
    ensures { result ≡ carried bytes.now }
{
    match bytes {
        [] => 0,
        [a] => *a as u32,
        [a, b] => *a as u32 % 32 * 64 + six_bits(*b),
        [a, b, c] => (*a as u32 % 16 * 64 + six_bits(*b)) * 64 + six_bits(*c),
        [a, b, c, d, ..] => ((*a as u32 % 8 * 64 + six_bits(*b)) * 64 + six_bits(*c)) * 64
            + six_bits(*d),
    }
}

// The first character of the bytes: a scalar value, an ill-formed subpart, the beginning of a character, or nothing.
pub fn character(bytes: &[u8]) -> Character
    ensures value { result ≡ character_of bytes.now }
    ensures count { Counted (length bytes.now) result }
    ensures bytes { Exactly bytes.now result }
    ensures stays { (more : List ℕ) → settled result ≡ true → character_of (bytes.now ++ more) ≡ result }
    ensures back { (c : ℕ) (rest : List ℕ) → scalar c ≡ true → character_of (utf8_of c ++ rest) ≡ Scalar c (length (utf8_of c)) }
{
    if bytes.is_empty() {
        return Character::Empty;
    }
    let Some(row) = row_of(bytes[0]) else {
        return Character::IllFormed(1);
    };
    let more = fitting(row, &bytes[1..]);
    let len = more + 1;
    if more == row.more {
        Character::Scalar(scalar_of(&bytes[..len]), len)
    } else if len == bytes.len() {
        Character::Partial
    } else {
        Character::IllFormed(len)
    }
}
