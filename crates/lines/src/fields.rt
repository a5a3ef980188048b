// The fields of a line: what stands between its tabs.
ghost use Rattle.std.specs.Prelude.{◌≡◌, ◌∷◌};
ghost use Rattle.std.specs.Str.{bytes_eq};
ghost use Rattle.lines.specs.Fields.{parted, fields_of};

const TAB: u8 = b'\t';

// The first field, and the text behind its tab, if it has one.
pub(crate) fn cut(text: &[u8]) -> (&[u8], Option<&[u8]>)
    ensures { parted text.now ≡ result.0.now ∷ fields_of result.1 }
{
    match text.iter().position(|b| *b == TAB) {
        Some(i) => (&text[..i], Some(&text[i + 1..])),
        None => (text, None),
    }
}

// Whether a field is the word.
pub(crate) fn reads(field: &[u8], word: &str) -> bool
    ensures { result ≡ bytes_eq field.now word.now }
{
    field == word.as_bytes()
}
