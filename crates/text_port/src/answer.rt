// Answers as one number.
use text::Character;

// The kinds, as C tells them apart.
#[derive(Clone, Copy)]
enum Kind {
    Scalar = 0,
    IllFormed = 1,
    Partial = 2,
    Empty = 3,
}

// A kind in the lowest byte, a length of at most 255 in the next, the value in the upper half.
fn packed(kind: Kind, len: usize, value: u32) -> u64 {
    kind as u64 | (len.min(255) as u64) << 8 | (value as u64) << 32
}

// By a function and no `From`: the type is another crate's, and the number C's.
pub(crate) fn of_character(said: Character) -> u64 {
    match said {
        Character::Scalar(value, len) => packed(Kind::Scalar, len, value),
        Character::IllFormed(len) => packed(Kind::IllFormed, len, 0),
        Character::Partial => packed(Kind::Partial, 0, 0),
        Character::Empty => packed(Kind::Empty, 0, 0),
    }
}
