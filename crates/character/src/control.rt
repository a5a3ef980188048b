// Control characters, and the kinds of ASCII characters.
ghost use Rattle.std.specs.Prelude.{◌≡◌};
ghost use Rattle.character.specs.Characters.{ctrl_of, lower, upper, graphic, owns_shift, ambiguous, well_known};

// The control character that a terminal sends for CTRL and a character, if there is one.
pub fn ctrl_mapping(c: char) -> Option<u8>
    ensures { result ≡ ctrl_of c }
{
    match c {
        'a'..='z' => Some((c as u32 - 0x60) as u8),
        'A'..='Z' => Some((c as u32 - 0x40) as u8),
        '@' | '`' | ' ' | '2' => Some(0x00),
        '[' | '3' | '{' => Some(0x1b),
        '\\' | '4' | '|' => Some(0x1c),
        ']' | '5' | '}' => Some(0x1d),
        '^' | '6' | '~' => Some(0x1e),
        '_' | '7' | '/' => Some(0x1f),
        '8' | '?' => Some(0x7f),
        _ => None,
    }
}

// The same of a character's number.
pub(crate) fn ctrl_code(c: u32) -> Option<u8>
    ensures { result ≡ ctrl_of c }
{
    ctrl_mapping(char::from_u32(c)?)
}

// These go by numbers and not by `char`s: the number of a `CodePoint` may be none.
pub(crate) fn is_lower(c: u32) -> bool
    ensures { result ≡ lower c }
{
    (0x61..=0x7a).contains(&c)
}

pub(crate) fn is_upper(c: u32) -> bool
    ensures { result ≡ upper c }
{
    (0x41..=0x5a).contains(&c)
}

// Letters, digits and punctuation of ASCII.
pub(crate) fn is_graphic(c: u32) -> bool
    ensures { result ≡ graphic c }
{
    (0x21..=0x7e).contains(&c)
}

// Whether SHIFT shows in the character itself: uppercase letters and punctuation.
pub(crate) fn owns_shift(c: u32) -> bool
    ensures { result ≡ owns_shift c }
{
    match c {
        0x30..=0x39 | 0x61..=0x7a => false,
        _ => is_graphic(c),
    }
}

// Characters whose control character is also a key of its own or no character at all.
pub(crate) fn is_ambiguous_ascii_ctrl(c: u32) -> bool
    ensures { result ≡ ambiguous c }
{
    matches!(c, 0x69 | 0x49 | 0x6d | 0x4d | 0x5b | 0x7b | 0x40)
}

// Keys that level 1 of modifyOtherKeys leaves alone.
pub(crate) fn is_well_known(c: u32) -> bool
    ensures { result ≡ well_known c }
{
    matches!(c, 0x63 | 0x64 | 0x1b | 0x7f | 0x08)
}
