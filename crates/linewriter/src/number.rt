// The number that a key holds.

// A character's number, the number on a function key, or none. Three cases and no `Option` of two: the definitions of lines go
// by them.
#[derive(Clone, Copy)]
pub enum Number {
    Character(u32),
    OnKey(u8),
    Absent,
}
