// Room for events and their texts.
ghost use Rattle.std.specs.Prelude.{◌≡◌, ℕ, ◌<◌, ◌≤◌, length, take, slice_index_or};
ghost use Rattle.events.specs.Records.{none, end_of, total};

use crate::stored::Record;
use crate::texts::Texts;

// The events taken, at most R, and the bytes of their texts, at most T, one text behind the other.
#[derive(Drop)]
pub struct Queue<const R: usize, const T: usize> {
    pub(crate) records: [Record; R],
    pub(crate) count: usize,
    pub(crate) texts: Texts<T>,
    pub(crate) used: usize,
    ghost whole: { length records ≡ R },
    ghost counted: { count ≤ R },
    ghost fits: { used ≤ T },
    ghost within: { (i : ℕ) → i < count → end_of (slice_index_or records i none) ≤ used },
    ghost full: { used ≡ total (take count records) },
}
