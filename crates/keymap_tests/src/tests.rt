// Small maps, with what they store, refuse and find.
use keymap::{Found, KeyMap, MAX_KEY, MapFault, Node};

// The empty key takes the root alone, and no input of one byte starts with it.
#[test]
fn empty_key(rt: HostRuntime) {
    let mut nodes = [Node::empty(); 1];
    let mut map = KeyMap::new(&mut nodes);
    assert_eq!(rt; map.insert(b"", 7u8), Ok(()));
    assert_eq!(rt; map.used(), 1);
    assert_eq!(rt; map.lookup(b"", true), Ok(Found::Exact(0, 7)));
    assert_eq!(rt; map.lookup(b"x", true), Ok(Found::None));
}

// A refused first insert leaves no root behind: three nodes do for two bytes afterwards.
#[test]
fn refused_first_insert(rt: HostRuntime) {
    let mut nodes = [Node::empty(); 3];
    let mut map = KeyMap::new(&mut nodes);
    assert_eq!(rt; map.insert(b"abc", 1u8), Err(MapFault::TooFewNodes));
    assert_eq!(rt; map.used(), 0);
    assert_eq!(rt; map.insert(b"ab", 2), Ok(()));
    assert_eq!(rt; map.used(), 3);
    assert_eq!(rt; map.lookup(b"ab", true), Ok(Found::Exact(2, 2)));
}

// A stored key has its value replaced, on no new node.
#[test]
fn replaced_value(rt: HostRuntime) {
    let mut nodes = [Node::empty(); 2];
    let mut map = KeyMap::new(&mut nodes);
    assert_eq!(rt; map.insert(b"a", 1u8), Ok(()));
    assert_eq!(rt; map.insert(b"a", 2), Ok(()));
    assert_eq!(rt; map.used(), 2);
    assert_eq!(rt; map.lookup(b"ab", false), Ok(Found::Exact(1, 2)));
}

// A key has at most 64 bytes; a longer one is refused for its length before the nodes are counted.
#[test]
fn longest_key(rt: HostRuntime) {
    let key = [b'k'; 65];
    let mut nodes = [Node::empty(); 65];
    let mut map = KeyMap::new(&mut nodes);
    assert_eq!(rt; map.insert(&key, 1u8), Err(MapFault::KeyTooLong));
    assert_eq!(rt; map.insert(&key[0..MAX_KEY], 2), Ok(()));
    assert_eq!(rt; map.used(), 65);
    assert_eq!(rt; map.lookup(&key, true), Ok(Found::Exact(64, 2)));
}

// An input that no stored key starts as is None, one that a stored key starts as wants more.
#[test]
fn none_before_need_data(rt: HostRuntime) {
    let mut nodes = [Node::empty(); 4];
    let mut map = KeyMap::new(&mut nodes);
    assert_eq!(rt; map.insert(b"\x1b[AB", 1u8), Err(MapFault::TooFewNodes));
    assert_eq!(rt; map.insert(b"\x1b[A", 1), Ok(()));
    assert_eq!(rt; map.lookup(b"x", true), Ok(Found::None));
    assert_eq!(rt; map.lookup(b"\x1b[", true), Ok(Found::NeedData));
    assert_eq!(rt; map.lookup(b"\x1b[x", false), Ok(Found::NeedData));
}

// Ambiguous looks one byte behind the longest key that the input begins with, and no further.
#[test]
fn one_byte_behind(rt: HostRuntime) {
    let mut nodes = [Node::empty(); 4];
    let mut map = KeyMap::new(&mut nodes);
    assert_eq!(rt; map.insert(b"abc", 1u8), Ok(()));
    assert_eq!(rt; map.insert(b"a", 2), Ok(()));
    assert_eq!(rt; map.lookup(b"a", true), Ok(Found::Ambiguous(1, 2)));
    assert_eq!(rt; map.lookup(b"abx", true), Ok(Found::Ambiguous(1, 2)));
    assert_eq!(rt; map.lookup(b"ax", true), Ok(Found::Exact(1, 2)));
    assert_eq!(rt; map.lookup(b"abx", false), Ok(Found::Exact(1, 2)));
}

// The numbers by which refusals are told.
#[test]
fn numbers_of_refusals(rt: HostRuntime) {
    assert_eq!(rt; MapFault::KeyTooLong.number(), 1);
    assert_eq!(rt; MapFault::TooFewNodes.number(), 2);
    assert_eq!(rt; MapFault::NothingStored.number(), 3);
}
