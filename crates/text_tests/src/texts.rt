// Whole text, with EF BF BD for each maximal ill-formed subpart.
use crate::answers::reads_as;
use text::lossy;

// The Unicode Standard, Table 3-8.
#[test]
fn published_example(rt: HostRuntime) {
    assert!(rt;
        reads_as(
            b"\x61\xf1\x80\x80\xe1\x80\xc2\x62\x80\x63\x80\xbf\x64",
            b"a\xef\xbf\xbd\xef\xbf\xbd\xef\xbf\xbdb\xef\xbf\xbdc\xef\xbf\xbd\xef\xbf\xbdd",
        )
    );
}

#[test]
fn replaced(rt: HostRuntime) {
    assert!(rt; reads_as(b"", b""));
    assert!(rt; reads_as(b"caf\xc3\xa9", b"caf\xc3\xa9"));
    assert!(rt; reads_as(b"\xe0\x80", b"\xef\xbf\xbd\xef\xbf\xbd"));
    assert!(rt; reads_as(b"\xed\xa0", b"\xef\xbf\xbd\xef\xbf\xbd"));
    assert!(rt; reads_as(b"\xf4\x90", b"\xef\xbf\xbd\xef\xbf\xbd"));
    assert!(rt; reads_as(b"\xc0\xaf", b"\xef\xbf\xbd\xef\xbf\xbd"));
    assert!(rt; reads_as(b"\xf0\x90\x80A", b"\xef\xbf\xbdA"));
    assert!(rt; reads_as(b"x\xe2\x82", b"x\xef\xbf\xbd"));
}

// An output one byte short is refused and left as it was.
#[test]
fn output_too_short(rt: HostRuntime) {
    let mut out = [0xaa; 3];
    assert_eq!(rt;
        lossy(b"a\xff", &mut out).map_err(|fault| fault.number()),
        Err(10)
    );
    assert_eq!(rt; out, *b"\xaa\xaa\xaa");
}
