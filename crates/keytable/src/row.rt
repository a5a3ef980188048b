// The lines of a rule's entries.
ghost use Rattle.std.specs.Prelude.{◌≡◌, ◌+◌, ◌≤◌, ◌∷◌, ◌++◌};
ghost use Rattle.arrayvec.specs.ArrayVec.{array_vec_len};
ghost use Rattle.writer.specs.Numbers.{dec, hex_of};

use crate::totals::Totals;
use arrayvec::ArrayVec;
use keycode::KeyEvent;
use keymap::KeyMap;
use linewriter::key_line;
use std::io;
use std::io::Write;
use table::{Rule, TableKey, count, entry_at};
use words::word;
use writer::{decimal, hex};

// The bytes of the word in front of a line of a press.
const WORD: usize = 3;

// The most bytes of the rule, the place and the key.
const FIELDS: usize = 32;

// A rule, and its place among the rules, from 0.
#[derive(Clone, Copy)]
pub(crate) struct Numbered {
    pub(crate) number: u8,
    pub(crate) rule: Rule,
}

impl Numbered {
    // The entry at a place of the rule, from 0.
    fn entry(self, place: usize) -> Option<Entry> {
        Some(Entry {
            rule: self.number,
            place: u16::try_from(place).ok()?,
            key: entry_at(self.rule, place)?,
        })
    }
}

// An entry: its rule and its place there, from 0, and its key, which has no more bytes than the longest of the table.
#[derive(Drop)]
struct Entry {
    rule: u8,
    place: u16,
    key: TableKey,
    ghost short: { array_vec_len key.bytes ≤ 11 },
}

impl Entry {
    // The rule and the place, from 1, and the key in hexadecimal, with tabs between.
    #[tactic(auto, using(writer::proofs::Digits::dec_most))]
    fn fields(&self) -> ArrayVec<u8, FIELDS>
        ensures { result.items ≡ dec (self.now.rule + 1) ++ (9 ∷ (dec (self.now.place + 1) ++ (9 ∷ hex_of self.now.key.bytes.items))) }
    {
        let mut out = ArrayVec::new();
        decimal(&mut out, self.rule as u32 + 1);
        out.push(b'\t');
        decimal(&mut out, self.place as u32 + 1);
        out.push(b'\t');
        hex(&mut out, self.key.bytes.as_slice());
        out
    }

    // The place, and the press that the bytes mean as a line has it, without the word in front.
    fn print(&self, rt: &HostRuntime) -> io::Result<()> {
        let mut out = rt.stdout();
        out.write_all(self.fields().as_slice())?;
        let line = key_line(self.key.event);
        let text = line.as_slice();
        out.write_all(&text[WORD.min(text.len())..])
    }

    // Whether the map has another press under the key.
    fn is_replaced(&self, map: &KeyMap<KeyEvent>) -> bool {
        word(map, self.key.bytes.as_slice()) != Some(self.key.event)
    }
}

// Prints the entries of a rule, and counts them. The chain stands here and below: a function that gave it would hand out a
// closure.
pub(crate) fn print_rule(
    rt: &HostRuntime,
    map: &KeyMap<KeyEvent>,
    rule: Numbered,
    totals: Totals,
) -> io::Result<Totals> {
    let mut totals = totals;
    for entry in (0..count(rule.rule)).filter_map(|place| rule.entry(place)) {
        entry.print(rt)?;
        totals = totals.with(entry.key.bytes.len(), entry.is_replaced(map));
    }
    Ok(totals)
}

// Prints the entries of a rule that later ones replace.
pub(crate) fn print_replaced(
    rt: &HostRuntime,
    map: &KeyMap<KeyEvent>,
    rule: Numbered,
) -> io::Result<()> {
    for entry in (0..count(rule.rule)).filter_map(|place| rule.entry(place)) {
        if entry.is_replaced(map) {
            let mut out = rt.stdout();
            out.write_all(b"replaced\t")?;
            out.write_all(entry.fields().as_slice())?;
            out.write_all(b"\n")?;
        }
    }
    Ok(())
}
