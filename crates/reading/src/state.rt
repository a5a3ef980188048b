// What the bytes before have led to.

#[derive(Clone, Copy, PartialEq, Eq, Debug)]
pub enum InputState {
    // a key or a character may follow
    Normal,
    // an ESC came before: what follows has ALT
    EscapeMaybeAlt,
    // the text of a paste follows, up to its end marker
    Pasting,
}
