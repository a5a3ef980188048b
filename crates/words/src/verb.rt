// What a line of a script asks for, by its first word.

#[derive(Clone, Copy)]
pub enum Verb {
    Press,
}
