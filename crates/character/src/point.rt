// Code points.
ghost use Rattle.std.specs.Prelude.{◌≡◌, ◌<◌};

// The number of a character, up to 10FFFF. A `char` is no surrogate; the definitions have bytes for the number of one too.
#[derive(Clone, Copy)]
pub struct CodePoint {
    pub number: u32,
    ghost plane: { number < 1114112 },
}

impl From<char> for CodePoint {
    ghost from_gives = { λ c point. point.number ≡ c };

    fn from(c: char) -> CodePoint {
        CodePoint { number: c as u32 }
    }
}
