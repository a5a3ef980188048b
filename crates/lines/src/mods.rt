// Sets of modifiers as a line writes them, both ways, by one table.
ghost use Rattle.std.specs.Prelude.{◌≡◌, ◌<◌, Some, IfSome};
ghost use Rattle.keycode.specs.Modifiers.{unplaced};
ghost use Rattle.keycode.specs.Names.{place_from};
ghost use Rattle.lines.specs.Mods.{mods_text, mods_texts, set_of};

use keycode::Modifiers;

// The texts of the sets from 0 to 15: S for SHIFT, A for ALT, C for CTRL, P for SUPER.
const TEXTS: [&'static str; 16] = [
    "-", "S", "A", "SA", "C", "SC", "AC", "SAC", "P", "SP", "AP", "SAP", "CP", "SCP", "ACP", "SACP",
];

// The text of a set, less the members that name a side of the keyboard; `mods_of` gives that set back.
pub fn mods_text(modifiers: Modifiers) -> &'static str
    ensures value { result.now ≡ mods_text (unplaced modifiers.0) }
    ensures back { set_of result.now ≡ Some (record { 0 = unplaced modifiers.0 }) }
{
    TEXTS[modifiers.0 as usize % 16]
}

// The place of a text in the table.
fn place_of(text: &[u8]) -> Option<usize>
    ensures value { result ≡ place_from 0 mods_texts text.now }
    ensures below { IfSome result (λ i. i < 16) }
{
    TEXTS.iter().position(|letters| letters.as_bytes() == text)
}

// The set whose text this is.
pub(crate) fn mods_of(text: &[u8]) -> Option<Modifiers>
    ensures { result ≡ set_of text.now }
{
    Some(Modifiers(place_of(text)? as u16))
}
