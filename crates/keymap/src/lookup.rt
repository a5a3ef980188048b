// Lookup over the nodes.
ghost use Rattle.std.specs.Prelude.{◌≡◌, ◌<◌, ◌≤◌, true, false, ◌⊎◌, length};
ghost use Rattle.keymap.specs.Finding.{found};
ghost use Rattle.keymap.specs.Held.{HeldIn, ValidIn};
ghost use Rattle.keymap.specs.Stored.{Stored};
ghost use Rattle.keymap.specs.Tree.{kid};

use crate::found::Found;
use crate::trace::Trace;
use crate::walk::Tree;

impl<'a, V: Copy> Tree<'a, V> {
    // Whether a stored key goes on behind the first `len` bytes of the way: the way has another node there,
    // or it ends there with the input and with a child.
    fn goes_on(&self, key: &[u8], t: Trace<V>, len: usize) -> bool
        requires { t.at < self.now.used }
        ensures yes { result ≡ true → (len < t.depth) ⊎ ((length key.now ≤ t.depth) × (0 < kid self.now.nodes.now t.at)) }
        ensures no { result ≡ false → (t.depth ≤ len) × ((t.depth < length key.now) ⊎ ((length key.now ≤ t.depth) × (kid self.now.nodes.now t.at ≡ 0))) }
    {
        if len < t.depth {
            return true;
        }
        if t.depth < key.len() {
            return false;
        }
        self.node(t.at).child != 0
    }

    // What the stored keys say of `key`; `maybe_more` says that more input may come. That there is a root is asked here, since an
    // empty tree is sound too.
    pub(crate) fn lookup(&self, key: &[u8], maybe_more: bool) -> Found<V>
        requires { 0 < self.now.used }
        ensures { (s : Stored V) → HeldIn self.now.nodes.now self.now.used s → result ≡ found s key.now maybe_more }
    {
        let t = self.follow(key);
        if t.depth == 0 && key.len() > 0 {
            return Found::None;
        }
        let last = t.best;
        match last {
            None => Found::NeedData,
            Some(best) => {
                if maybe_more && self.goes_on(key, t, best.len) {
                    Found::Ambiguous(best.len, best.value)
                } else {
                    Found::Exact(best.len, best.value)
                }
            }
        }
    }
}
