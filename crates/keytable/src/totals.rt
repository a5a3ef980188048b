// What is counted.
use std::fmt;

#[derive(Clone, Copy, Default)]
pub(crate) struct Totals {
    pub(crate) inserts: usize,
    pub(crate) replaced: usize,
    pub(crate) longest: usize,
}

impl Totals {
    // One entry more.
    pub(crate) fn with(self, len: usize, replaced: bool) -> Self {
        Totals {
            inserts: self.inserts.saturating_add(1),
            replaced: self.replaced.saturating_add(replaced as usize),
            longest: self.longest.max(len),
        }
    }
}

impl fmt::Display for Totals {
    fn fmt<W: fmt::Write>(&self, f: &mut fmt::Formatter<W>) -> fmt::Result {
        let keys = self.inserts.saturating_sub(self.replaced);
        writeln!(f, "inserts\t{}", self.inserts)?;
        writeln!(f, "keys\t{keys}")?;
        writeln!(f, "longest\t{}", self.longest)
    }
}
