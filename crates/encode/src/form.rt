// The ways of sending a key, and the causes of a refusal.

// The keys by how they are sent: a character, a final letter, a number before `~`, a key of its own, or nothing.
#[derive(Clone, Copy, Debug, PartialEq, Eq)]
pub(crate) enum Form {
    // a character
    Typed(char),
    // a final letter: cursor keys, Home and End, by SS3 where the cursor keys are in application mode
    Cursor(u8),
    // a final letter, by SS3 in every mode
    Application(u8),
    // a final letter, by CSI in every mode
    Keypad(u8),
    // a number before `~`
    Edit(u8),
    // a function key
    Numbered(u8),
    KeyBackspace,
    KeyEnter,
    KeyEscape,
    KeyTab,
    // nothing is sent
    Silent,
}

// Why a press is not encoded, by the number that tells it, in the order in which the causes are looked for.
#[derive(Clone, Copy, Debug, PartialEq, Eq)]
pub enum EncodeFault {
    // modifiers over 2,047
    Modifiers = 7,
    // a Char that is no Unicode scalar value
    NoScalar = 8,
    // Function 0, or over 24
    NoFunction = 9,
    // the output is shorter than the bytes
    OutputShort = 10,
}

// Under which modifiers a key is a plain press.
#[derive(Clone, Copy, Debug, PartialEq, Eq)]
pub(crate) enum Plainness {
    // a character, as its own rule says
    Character(u32),
    // a function key
    Key(u8),
    // under every set of SHIFT, ALT and CTRL
    Everywhere,
    // alone and with SHIFT
    Shifted,
    // alone
    Alone,
    Never,
}
