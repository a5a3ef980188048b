// The table by places: each rule's keys from 0 on.
ghost use Rattle.std.specs.Prelude.{◌≡◌, ◌<◌, ◌≤◌, length, IfSome, slice_index_or};
ghost use Rattle.table.specs.Table.{cursor_keys, rxvt_keys, application_keys, editing_digits, entries_of, longest_key};
ghost use Rattle.keycode.specs.declared.key.KeyCode.TheVariants.{Char};
ghost use Rattle.arrayvec.specs.ArrayVec.{array_vec_len};
ghost use Rattle.table.specs.Told.{told, told_of, blank, count_of, entry_at};

use crate::rows::{
    application_key, csi_u_key, cursor_key, editing_key, function_key, letter_key, other_key,
    rxvt_key, single_key,
};
use crate::rule::{Lettered, Marked, Rule, TableKey};
use keycode::KeyCode;

// The rules, in the order of filling.
pub const RULES: [Rule; 9] = [
    Rule::Letters,
    Rule::CsiU,
    Rule::OtherKeys,
    Rule::Cursor,
    Rule::RxvtArrows,
    Rule::ApplicationArrows,
    Rule::Functions,
    Rule::Editing,
    Rule::Single,
];

const CURSOR: [Lettered; 10] = [
    Lettered {
        key: KeyCode::UpArrow,
        last: b'A',
        intro: b'[',
    },
    Lettered {
        key: KeyCode::DownArrow,
        last: b'B',
        intro: b'[',
    },
    Lettered {
        key: KeyCode::RightArrow,
        last: b'C',
        intro: b'[',
    },
    Lettered {
        key: KeyCode::LeftArrow,
        last: b'D',
        intro: b'[',
    },
    Lettered {
        key: KeyCode::Home,
        last: b'H',
        intro: b'[',
    },
    Lettered {
        key: KeyCode::End,
        last: b'F',
        intro: b'[',
    },
    Lettered {
        key: KeyCode::Function(1),
        last: b'P',
        intro: b'O',
    },
    Lettered {
        key: KeyCode::Function(2),
        last: b'Q',
        intro: b'O',
    },
    Lettered {
        key: KeyCode::Function(3),
        last: b'R',
        intro: b'O',
    },
    Lettered {
        key: KeyCode::Function(4),
        last: b'S',
        intro: b'O',
    },
];

const RXVT: [Marked; 4] = [
    Marked {
        key: KeyCode::UpArrow,
        byte: b'a',
    },
    Marked {
        key: KeyCode::DownArrow,
        byte: b'b',
    },
    Marked {
        key: KeyCode::RightArrow,
        byte: b'c',
    },
    Marked {
        key: KeyCode::LeftArrow,
        byte: b'd',
    },
];

const APPLICATION: [Marked; 4] = [
    Marked {
        key: KeyCode::ApplicationUpArrow,
        byte: b'A',
    },
    Marked {
        key: KeyCode::ApplicationDownArrow,
        byte: b'B',
    },
    Marked {
        key: KeyCode::ApplicationRightArrow,
        byte: b'C',
    },
    Marked {
        key: KeyCode::ApplicationLeftArrow,
        byte: b'D',
    },
];

const EDITING: [Marked; 8] = [
    Marked {
        key: KeyCode::Insert,
        byte: b'2',
    },
    Marked {
        key: KeyCode::Delete,
        byte: b'3',
    },
    Marked {
        key: KeyCode::Home,
        byte: b'1',
    },
    Marked {
        key: KeyCode::Home,
        byte: b'7',
    },
    Marked {
        key: KeyCode::End,
        byte: b'4',
    },
    Marked {
        key: KeyCode::End,
        byte: b'8',
    },
    Marked {
        key: KeyCode::PageUp,
        byte: b'5',
    },
    Marked {
        key: KeyCode::PageDown,
        byte: b'6',
    },
];

// How many keys a rule has: rows by keys in a row.
#[tactic(auto, using(crate::proofs::Counts::counted))]
pub fn count(rule: Rule) -> usize
    ensures value { result ≡ length (entries_of rule) }
    ensures number { result ≡ count_of rule }
{
    match rule {
        Rule::Letters => 52,
        Rule::CsiU => 1152,
        Rule::OtherKeys => 1024,
        Rule::Cursor => 180,
        Rule::RxvtArrows => 8,
        Rule::ApplicationArrows => 40,
        Rule::Functions => 340,
        Rule::Editing => 32,
        Rule::Single => 10,
    }
}

// The key at a place of a rule: rows of as many keys as a row of the rule has.
pub(crate) fn key_in(rule: Rule, place: usize) -> TableKey
    requires { place < count_of rule }
    ensures { told result ≡ slice_index_or (entries_of rule) place blank }
{
    match rule {
        Rule::Letters => letter_key((place / 2 + 1) as u8, place % 2),
        Rule::CsiU => csi_u_key((place / 9) as u8, (place % 9) as u8),
        Rule::OtherKeys => other_key((place / 8) as u8, (place % 8) as u8),
        Rule::Cursor => cursor_key(CURSOR[place / 18], (place % 18) as u8),
        Rule::RxvtArrows => rxvt_key(RXVT[place / 2], place % 2),
        Rule::ApplicationArrows => application_key(APPLICATION[place / 10], (place % 10) as u8),
        Rule::Functions => function_key((place / 17 + 1) as u8, (place % 17) as u8),
        Rule::Editing => editing_key(EDITING[place / 4], place % 4),
        Rule::Single => single_key(place),
    }
}

// The key at a place of a rule, from 0, if the rule has so many.
pub fn entry_at(rule: Rule, place: usize) -> Option<TableKey>
    ensures value { told_of result ≡ entry_at rule place }
    ensures len { IfSome result (λ k. array_vec_len k.bytes ≤ longest_key) }
{
    if place < count(rule) {
        Some(key_in(rule, place))
    } else {
        None
    }
}
