// A read buffer, filled, advanced and searched.
use readbuf::{CAPACITY, ReadBuffer, find_marker};

#[test]
fn held_bytes(rt: HostRuntime) {
    let mut buffer = ReadBuffer::new();
    assert!(rt; buffer.is_empty());
    assert!(rt; buffer.extend(b"abc"));
    assert!(rt; buffer.extend(b"de"));
    assert_eq!(rt; buffer.len(), 5);
    buffer.advance(2);
    assert_eq!(rt; buffer.as_slice(), b"cde".as_slice());
    assert_eq!(rt; buffer.room(), CAPACITY - 3);
    buffer.advance(9);
    assert!(rt; buffer.is_empty());
}

// A chunk is refused whole where one byte of it would not fit, and fits again where a byte was dropped in front.
#[test]
fn full_buffer(rt: HostRuntime) {
    let mut buffer = ReadBuffer::new();
    assert!(rt; buffer.extend(&[7; 4095]));
    assert!(rt; !buffer.extend(b"ab"));
    assert_eq!(rt; buffer.len(), 4095);
    buffer.advance(1);
    assert!(rt; buffer.extend(b"ab"));
    assert_eq!(rt; buffer.room(), 0);
    buffer.advance(4094);
    assert_eq!(rt; buffer.as_slice(), b"ab".as_slice());
    buffer.clear();
    assert_eq!(rt; buffer.room(), CAPACITY);
}

#[test]
fn first_of_two_markers(rt: HostRuntime) {
    assert_eq!(rt; find_marker(b"\x1b[201~"), Some(0));
    assert_eq!(rt; find_marker(b"ab\x1b\x1b[201~\x1b[201~"), Some(3));
    assert_eq!(rt; find_marker(b"\x1b[201\x1b[200~"), None);
    assert_eq!(rt; find_marker(b""), None);
}

// A marker that came in two chunks is found by a search that goes on where the first chunk ended.
#[test]
fn resumed_search(rt: HostRuntime) {
    let mut buffer = ReadBuffer::new();
    assert!(rt; buffer.extend(b"pasted text\x1b[20"));
    assert_eq!(rt; buffer.find_marker_from(0), None);
    assert!(rt; buffer.extend(b"1~x"));
    assert_eq!(rt; buffer.find_marker_from(15), Some(11));
    assert_eq!(rt; buffer.find_marker_from(18), None);
    assert_eq!(rt; buffer.find_marker_from(9999), None);
}
