// The work on one map.
ghost use Rattle.std.specs.Prelude.{◌≡◌};

use crate::answer::{ANSWER, Answer};
use crate::record::{Record, Request};
use crate::script::read_record;
use keymap::{KeyMap, Node};

// Does what is asked with this key.
fn answer_to(map: &mut KeyMap<u32>, request: Request, key: &[u8]) -> Answer
    ensures { map.new.nodes.ghost_name ≡ map.old.nodes.ghost_name }
{
    match request {
        Request::Insert(value) => map.insert(key, value).into(),
        Request::Lookup(maybe_more) => map.lookup(key, maybe_more).into(),
    }
}

// Works through the script on an empty map over the nodes, until the script or the output ends or a record cannot be
// read; answers how many records were worked: that is `count`, and no index of the output.
pub(crate) fn work_through(nodes: &mut [Node<u32>], script: &[u8], out: &mut [u8]) -> u32 {
    let mut map = KeyMap::new(nodes);
    let mut left = script;
    let mut count = 0u32;
    for bytes in out.chunks_exact_mut(ANSWER) {
        let Some(record) = read_record(left) else {
            break;
        };
        let Record { request, key, rest } = record;
        let answer = answer_to(&mut map, request, key);
        bytes.copy_from_slice(&answer.to_bytes(map.used()));
        left = rest;
        count = count.saturating_add(1);
    }
    count
}
