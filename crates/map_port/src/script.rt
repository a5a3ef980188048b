// The records of a script: an insert is 1, the length of the key, its bytes and the value in four bytes, the lowest
// first; a lookup is 2, 1 where more input may come or else 0, the length of the input, and its bytes.
ghost use Rattle.std.specs.Prelude.{◌≡◌, ◌-◌, ◌∷◌, ◌++◌, length, IfSome};
ghost use Rattle.map_port.specs.Records.{Stands, before, behind};

use crate::record::{Record, Request};

// A key behind its length, and the rest.
fn read_key(script: &[u8]) -> Option<(&[u8], &[u8])>
    ensures { IfSome result (λ k. script.now ≡ length k.0.now ∷ (k.0.now ++ k.1.now)) }
{
    let (len, rest) = script.split_first()?;
    rest.split_at_checked(*len as usize)
}

// A record behind its kind.
fn read_insert(script: &[u8]) -> Option<Record<'_>>
    ensures { IfSome result (λ q. Stands (before q.request - 1) (behind q.request) script.now q.key.now q.rest.now) }
{
    let (key, rest) = read_key(script)?;
    let (value, rest) = rest.split_first_chunk::<4>()?;
    Some(Record {
        request: Request::Insert(u32::from_le_bytes(*value)),
        key,
        rest,
    })
}

fn read_lookup(script: &[u8]) -> Option<Record<'_>>
    ensures { IfSome result (λ q. Stands (before q.request - 1) (behind q.request) script.now q.key.now q.rest.now) }
{
    let (more, rest) = script.split_first()?;
    let maybe_more = match *more {
        0 => false,
        1 => true,
        _ => return None,
    };
    let (key, rest) = read_key(rest)?;
    Some(Record {
        request: Request::Lookup(maybe_more),
        key,
        rest,
    })
}

// The first record, if it is there whole.
pub(crate) fn read_record(script: &[u8]) -> Option<Record<'_>>
    ensures { IfSome result (λ q. Stands (before q.request) (behind q.request) script.now q.key.now q.rest.now) }
{
    let (kind, rest) = script.split_first()?;
    match *kind {
        1 => read_insert(rest),
        2 => read_lookup(rest),
        _ => None,
    }
}
