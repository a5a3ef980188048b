// The table of docs/TABLE.md, by examples worked out by hand.
use crate::answers::{
    behind, built_in_is_lawful, entry, escapes_are_lawful, finds, refused_on, waits,
};
use keycode::KeyCode;
use table::{Rule, count, entry_at};

#[test]
fn arrows(rt: HostRuntime) {
    assert!(rt; finds(b"\x1b[D", true, 3, KeyCode::LeftArrow, 0));
    assert!(rt; finds(b"\x1b[Dx", false, 3, KeyCode::LeftArrow, 0));
    assert!(rt; finds(b"\x1b[1;5A", true, 6, KeyCode::UpArrow, 4));
    assert!(rt; finds(b"\x1b[1;10B", true, 7, KeyCode::DownArrow, 3));
    assert!(rt; finds(b"\x1b[1;16C", true, 7, KeyCode::RightArrow, 7));
    assert!(rt; finds(b"\x1b[d", true, 3, KeyCode::LeftArrow, 1));
    assert!(rt; finds(b"\x1bOd", true, 3, KeyCode::LeftArrow, 4));
    assert!(rt; finds(b"\x1bOD", true, 3, KeyCode::ApplicationLeftArrow, 0));
}

// The later rule counts.
#[test]
fn keys_of_their_own(rt: HostRuntime) {
    assert!(rt; finds(b"\x08", true, 1, KeyCode::Backspace, 0));
    assert!(rt; finds(b"\t", true, 1, KeyCode::Tab, 0));
    assert!(rt; finds(b"\r", true, 1, KeyCode::Enter, 0));
    assert!(rt; finds(b"\n", true, 1, KeyCode::Enter, 0));
    assert!(rt; finds(b"\x01", true, 1, KeyCode::Char(0), 4));
    assert!(rt; finds(b"\x1b[27;2;27~", true, 10, KeyCode::Escape, 1));
    assert!(rt; finds(b"\x1b[200~", true, 6, KeyCode::InternalPasteStart, 0));
}

// ESC and CSI are keys that other keys begin with.
#[test]
fn beginnings(rt: HostRuntime) {
    assert!(rt; waits(b"\x1b", 1, KeyCode::Escape, 0));
    assert!(rt; waits(b"\x1b[", 2, KeyCode::Char(0), 2));
    assert!(rt; finds(b"\x1b", false, 1, KeyCode::Escape, 0));
    assert!(rt; finds(b"\x1b[x", false, 2, KeyCode::Char(0), 2));
    assert!(rt; finds(b"\x1ba", true, 1, KeyCode::Escape, 0));
}

#[test]
fn few_nodes(rt: HostRuntime) {
    assert!(rt; refused_on(0, 0));
    assert!(rt; refused_on(1, 0));
    assert!(rt; refused_on(2, 2));
    assert!(rt; refused_on(5326, 5325));
}

#[test]
fn places(rt: HostRuntime) {
    assert_eq!(rt; count(Rule::Single), 10);
    assert!(rt; entry(Rule::Cursor, 3, b"\x1b[1;2A", KeyCode::UpArrow, 1));
    assert!(rt; entry(Rule::Editing, 4 * 3 + 3, b"\x1b[7@", KeyCode::Home, 5));
    assert!(rt;
        entry(
            Rule::Functions,
            339,
            b"\x1b[34;16~",
            KeyCode::Function(0),
            7,
        )
    );
    assert!(rt; entry_at(Rule::Single, 10).is_none());
}

// A key of the caller's own stays beside the table's; one that the table has too gets the table's press.
#[test]
fn keys_before_the_table(rt: HostRuntime) {
    assert!(rt; behind(b"x", KeyCode::Home, 5328) == Ok(true));
    assert!(rt; behind(b"\x1b[D", KeyCode::LeftArrow, 5327) == Ok(true));
}

// Lone ESC may be plain Escape only where a longer key starts with it.
#[test]
fn lawful_tables(rt: HostRuntime) {
    assert!(rt; built_in_is_lawful() == Ok(true));
    assert!(rt; escapes_are_lawful(b"x", b"xy") == Ok(true));
    assert!(rt; escapes_are_lawful(b"\x1b", b"x") == Ok(false));
    assert!(rt; escapes_are_lawful(b"\x1b", b"\x1b[D") == Ok(true));
}
