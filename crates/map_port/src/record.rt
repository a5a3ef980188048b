// A record of a script.

#[derive(Clone, Copy)]
pub enum Request {
    Insert(u32),
    Lookup(bool),
}

// What is asked, with its key, and the rest of the script.
#[derive(Clone, Copy)]
pub struct Record<'a> {
    pub request: Request,
    pub key: &'a [u8],
    pub rest: &'a [u8],
}
