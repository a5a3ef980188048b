// A step on a map from a line of fields with tabs between: `insert` with the key in hexadecimal and the value, or
// `lookup` with 1 where more input may come or else 0, and the input in hexadecimal.
ghost use Rattle.std.specs.Prelude.{◌<◌, IfSome};

use arrayvec::ArrayVec;

// A key or an input.
pub type Bytes = ArrayVec<u8, 256>;

#[derive(Drop)]
pub enum Step {
    // A key, and its value.
    Insert(Bytes, u32),
    // An input, and whether more may come.
    Lookup(Bytes, bool),
}

// The value of an uppercase hexadecimal digit. Not `char::to_digit`, which takes lowercase letters too. `lines` has one for any
// base; the crate below both, `keymap`, reads no numbers.
fn digit(b: u8) -> Option<u8>
    ensures { IfSome result (λ d. d < 16) }
{
    match b {
        b'0'..=b'9' => Some(b - b'0'),
        b'A'..=b'F' => Some(b - b'A' + 10),
        _ => None,
    }
}

// The bytes of a text in hexadecimal.
fn read_hex(text: &[u8]) -> Option<Bytes> {
    if text.len() % 2 != 0 {
        return None;
    }
    let mut bytes = Bytes::new();
    for pair in text.chunks_exact(2) {
        bytes.try_push(digit(pair[0])? * 16 + digit(pair[1])?).ok()?;
    }
    Some(bytes)
}

// As in `vectors`: the two programs have no crate below them that reads fields, and one for these four lines
// would be no plainer.
fn read_flag(text: &str) -> Option<bool> {
    match text {
        "0" => Some(false),
        "1" => Some(true),
        _ => None,
    }
}

// The step of a line.
pub(crate) fn read_step(line: &str) -> Option<Step> {
    let mut fields = line.split('\t');
    let step = match fields.next()? {
        "insert" => {
            let key = read_hex(fields.next()?.as_bytes())?;
            Step::Insert(key, fields.next()?.parse::<u32>().ok()?)
        }
        "lookup" => {
            let maybe_more = read_flag(fields.next()?)?;
            Step::Lookup(read_hex(fields.next()?.as_bytes())?, maybe_more)
        }
        _ => return None,
    };
    match fields.next() {
        Some(_) => None,
        None => Some(step),
    }
}
