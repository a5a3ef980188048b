// Room for the bytes of texts.
ghost use Rattle.std.specs.Prelude.{◌≡◌, length};

#[derive(Drop)]
pub struct Texts<const T: usize> {
    pub(crate) bytes: [u8; T],
    ghost whole: { length bytes ≡ T },
}
