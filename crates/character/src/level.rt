// What the modes say of characters.

// The level of modifyOtherKeys.
#[derive(Clone, Copy, Debug, PartialEq, Eq)]
pub enum Level {
    Off,
    One,
    Two,
    Other,
}

// How a modified character is sent: CSI c ; n u, CSI 27 ; n ; c ~, or as terminals have always sent it.
#[derive(Clone, Copy, Debug, PartialEq, Eq)]
pub enum Route {
    Unicode,
    Numbered,
    Traditional,
}
