// The links of a batch, hung on a tree with its lanes: groups are joined, and each end learns how high its rings reach.
ghost use Rattle.lanes.specs.Hung.{Hangable, Hung, Batched, HungAll};

use crate::groups::unite;
use crate::marks::lower;
use crate::meet::Lanes;
use crate::table::at;

impl Lanes<'_> {
    // One link, from a to b.
    // Kept: groups and depths are written each by a module of its own, so a struct of the two would be taken apart at once.
    fn hang(&self, group: &mut [u16], low: &mut [u16], a: usize, b: usize)
        requires { Hangable self.now.tree.up.now self.now.top.now self.now.kid.now group.old low.old a b }
        ensures { Hung self.now.tree.up.now group.old group.new low.old low.new a b }
    {
        let m = self.meet(a, b);
        let z = self.tree.depth[m.w];
        lower(low, a, z);
        lower(low, b, z);
        if let (Some(c), Some(d)) = (m.c, m.d) {
            unite(group, c, d);
        }
    }

    // All links of a batch that was accepted.
    pub fn hang_all(&self, group: &mut [u16], low: &mut [u16], batch: &[u16])
        requires { Batched self.now.tree.up.now self.now.top.now self.now.kid.now group.old low.old batch.now }
        ensures { HungAll self.now.tree.up.now batch.now group.old group.new low.new }
    {
        for i in 0..batch.len() / 2 {
            let a = at(batch, 2 * i);
            let b = at(batch, 2 * i + 1);
            self.hang(group, low, a, b);
        }
    }
}
