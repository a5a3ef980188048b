// Room for lines.
ghost use Rattle.std.specs.Prelude.{◌≤◌};

// The most bytes of all lines.
pub const CAPACITY: usize = 16384;

#[derive(Drop)]
pub struct LineWriter {
    pub(crate) bytes: [u8; 16384],
    pub(crate) len: usize,
    ghost ok: { len ≤ 16384 },
}
