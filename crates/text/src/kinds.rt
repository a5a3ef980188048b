// What stands in front of bytes, the rows of well-formed UTF-8, and the cause of a refusal.

// The first character of bytes.
#[derive(Clone, Copy, PartialEq, Eq, Debug)]
pub enum Character {
    // a Unicode scalar value, and the number of its bytes
    Scalar(u32, usize),
    // an ill-formed subpart, and the number of its bytes
    IllFormed(usize),
    // all bytes begin a character that more bytes could complete
    Partial,
    // there are no bytes
    Empty,
}

// What may follow a first byte: how many bytes, and the range of the first of them. The others are from 80 to BF.
#[derive(Clone, Copy, PartialEq, Eq, Debug)]
pub(crate) struct Row {
    pub(crate) more: usize,
    pub(crate) low: u8,
    pub(crate) high: u8,
}

// Why text is not written.
#[derive(Clone, Copy, PartialEq, Eq, Debug)]
pub enum TextFault {
    // the output is shorter than the text
    OutputTooShort = 10,
}
