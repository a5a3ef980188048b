// Queues, lines and focus.
use crate::WithoutReports;
use crate::answers::{found, press, report};
use events::{Focus, InputEvent, NoReports, Queue, Recogniser, Seen, Sink};
use keycode::{KeyCode, KeyEvent, Modifiers};
use linewriter::LineWriter;
use press_lines::press_line;

// Two records, and four bytes of text.
#[test]
fn full_by_records(rt: HostRuntime) {
    let mut queue: Queue<2, 4> = Queue::new();
    assert!(rt; queue.take(press(KeyCode::Char(0x61), 0)));
    assert!(rt; queue.take(report(1, 1, 0)));
    assert!(rt; !queue.take(press(KeyCode::Char(0x62), 0)));
    assert!(rt; !queue.take(InputEvent::Paste(b"")));
    assert_eq!(rt; queue.len(), 2);
}

// A text of the bytes that are left is taken, one byte more is not.
#[test]
fn full_by_text(rt: HostRuntime) {
    let mut queue: Queue<5, 4> = Queue::new();
    assert!(rt; queue.take(InputEvent::Paste(b"abc")));
    assert!(rt; !queue.take(InputEvent::Paste(b"de")));
    assert!(rt; queue.take(InputEvent::Paste(b"d")));
    assert!(rt; !queue.take(InputEvent::Paste(b"e")));
    assert!(rt; queue.take(InputEvent::Paste(b"")));
    assert!(rt; queue.take(press(KeyCode::Enter, 0)));
    assert_eq!(rt; queue.len(), 4);
}

// The events in order, and after a clear all room again.
#[test]
fn read_back(rt: HostRuntime) {
    let mut queue: Queue<4, 5> = Queue::new();
    assert!(rt; queue.take(InputEvent::Paste(b"ab")));
    assert!(rt; queue.take(press(KeyCode::Char(0x63), 0)));
    assert!(rt; queue.take(InputEvent::Paste(b"def")));
    assert!(rt; queue.take(report(7, 65535, 2)));
    assert_eq!(rt; queue.get(0), Some(InputEvent::Paste(b"ab")));
    assert_eq!(rt; queue.get(1), Some(press(KeyCode::Char(0x63), 0)));
    assert_eq!(rt; queue.get(2), Some(InputEvent::Paste(b"def")));
    assert_eq!(rt; queue.get(3), Some(report(7, 65535, 2)));
    assert_eq!(rt; queue.get(4), None);
    queue.clear();
    assert_eq!(rt; queue.len(), 0);
    assert_eq!(rt; queue.get(0), None);
    assert!(rt; queue.take(InputEvent::Paste(b"vwxyz")));
    assert_eq!(rt; queue.get(0), Some(InputEvent::Paste(b"vwxyz")));
}

// Whether an event alone is written as this line.
fn writes(event: InputEvent<'_>, line: &[u8]) -> bool {
    let mut out = LineWriter::new();
    out.take(event) && out.as_slice() == line
}

#[test]
fn presses(rt: HostRuntime) {
    assert!(rt; writes(press(KeyCode::Char(0x61), 5), b"key\tChar\tSC\t61\n"));
    assert!(rt; writes(press(KeyCode::Char(0), 0), b"key\tChar\t-\t0\n"));
    assert!(rt;
        writes(
            press(KeyCode::Char(0x10ffff), 15),
            b"key\tChar\tSACP\t10FFFF\n",
        )
    );
    assert!(rt;
        writes(
            press(KeyCode::Char(0xffffffff), 2),
            b"key\tChar\tA\tFFFFFFFF\n",
        )
    );
    assert!(rt; writes(press(KeyCode::Function(12), 8), b"key\tFunction\tP\t12\n"));
    assert!(rt; writes(press(KeyCode::Function(0), 1), b"key\tFunction\tS\t0\n"));
    assert!(rt; writes(press(KeyCode::UpArrow, 16), b"key\tUpArrow\t-\t-\n"));
}

// A press as a script writes it.
#[test]
fn scripts(rt: HostRuntime) {
    let line = press_line(KeyEvent {
        key: KeyCode::Char(0x20ac),
        modifiers: Modifiers(20),
    });
    assert_eq!(rt; line.as_slice(), b"press\tChar\tC\t20AC".as_slice());
}

#[test]
fn texts_and_reports(rt: HostRuntime) {
    assert!(rt; writes(InputEvent::Paste(b""), b"paste\t\n"));
    assert!(rt; writes(InputEvent::Paste(b"\x00\xabA\xff"), b"paste\t00AB41FF\n"));
    assert!(rt; writes(report(1, 1, 0), b"report\t1\t1\t0\n"));
    assert!(rt; writes(report(65535, 10, 100), b"report\t65535\t10\t100\n"));
}

// Whether a text of 8,182 bytes is taken.
fn takes_long_text(out: &mut LineWriter) -> bool {
    let text = [0x61; 8182];
    out.take(InputEvent::Paste(&text))
}

// 13 bytes and 7 + 2 x 8,182 are 16,384; the line of 14 bytes in front is one too many.
#[test]
fn full_of_lines(rt: HostRuntime) {
    let mut out = LineWriter::new();
    assert!(rt; out.take(report(1, 10, 0)));
    assert!(rt; !takes_long_text(&mut out));
    assert_eq!(rt; out.as_slice().len(), 14);
    out.clear();
    assert!(rt; out.take(report(1, 1, 0)));
    assert!(rt; takes_long_text(&mut out));
    assert_eq!(rt; out.as_slice().len(), 16384);
    assert!(rt; !out.take(InputEvent::Paste(b"")));
    assert_eq!(rt; out.as_slice().len(), 16384);
}

#[test]
fn focus(rt: HostRuntime) {
    assert_eq!(rt; Focus.look(b"\x1b[I"), found(1));
    assert_eq!(rt; Focus.look(b"\x1b[O"), found(0));
    assert_eq!(rt; Focus.look(b"\x1b[Ixyz"), found(1));
    assert_eq!(rt; Focus.look(b"\x1b"), Seen::More);
    assert_eq!(rt; Focus.look(b"\x1b["), Seen::More);
    assert_eq!(rt; Focus.look(b"\x1b[A"), Seen::NoReport);
    assert_eq!(rt; Focus.look(b"\x1bOI"), Seen::NoReport);
    assert_eq!(rt; Focus.look(b""), Seen::NoReport);
    assert_eq!(rt; Focus.look(b"[I"), Seen::NoReport);
    assert_eq!(rt; NoReports.look(b"\x1b[I"), Seen::NoReport);
}

#[test]
fn reports_let_go(rt: HostRuntime) {
    let mut sink = WithoutReports {
        inner: LineWriter::new(),
    };
    assert!(rt; sink.take(report(1, 1, 0)));
    assert!(rt; sink.take(InputEvent::Paste(b"a")));
    assert_eq!(rt; sink.inner.as_slice(), b"paste\t61\n".as_slice());
}
