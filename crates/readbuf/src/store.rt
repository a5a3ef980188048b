// Room for the bytes that were read.
ghost use Rattle.std.specs.Prelude.{◌≤◌};

// The most bytes that are held.
pub const CAPACITY: usize = 4096;

// The held bytes are those from `start` to `end`; what lies outside may be anything.
// An array and two places in it: there is no heap, and bytes that are dropped from the front move no others.
// It has no `impl Model`: `extend`, `advance` and `clear` say too where the bytes lie in the array.
#[derive(Drop)]
pub struct ReadBuffer {
    pub(crate) bytes: [u8; CAPACITY],
    pub(crate) start: usize,
    pub(crate) end: usize,
    ghost ordered: { start ≤ end },
    ghost within: { end ≤ 4096 },
}
