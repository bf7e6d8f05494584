// The machines on the lines of a batch's ends, or more of them: what the batch can change is among them.
ghost use Rattle.std.specs.Prelude.{◌≡◌, length};
ghost use Rattle.lanes.specs.Seen.{Seeable, SeenFrom, Lookable, SeenTo, SeenEvery};

use crate::table::at;
use crate::tree::Tree;

// The entry of a machine that is not seen.
// Kept: 65535 is above every depth, so the `min` of `lower` and the copy of `see_every` need no case for it; with Options they would, in a table twice as large.
pub const NONE: usize = crate::BLANK as usize;

// Where a batch has an end for every so many machines, every machine is seen.
const MACHINES_AN_END: usize = 4;

impl Tree<'_> {
    // From v up to the first machine that is seen. A machine that is seen has its depth as its entry. What is above is read before the entry is written,
    // for the tables lie a multiple of 4 KiB apart, and a processor makes such a read wait for the write (docs/DECISIONS.md).
    // Kept: it goes on to a machine that is seen; there is no count, so it is no plainer as a `for`.
    fn see(&self, low: &mut [u16], v: usize)
        requires { Seeable self.now.up.now low.old v }
        ensures { SeenFrom self.now.up.now low.old low.new v }
    {
        let mut x = v;
        while at(low, x) == NONE {
            let p = at(self.up, x);
            low[x] = self.depth[x];
            x = p;
        }
    }

    // From every end of a batch that was accepted. Gives back how many levels the machines seen have.
    fn see_ends(&self, low: &mut [u16], batch: &[u16]) -> usize
        requires { Lookable self.now.up.now low.old batch.now }
        ensures { SeenTo self.now.up.now batch.now low.new result (length batch.now) }
    {
        let mut levels: usize = 0;
        for i in 0..batch.len() {
            let v = at(batch, i);
            self.see(low, v);
            levels = levels.max(at(self.depth, v) + 1);
        }
        levels
    }

    // Every machine. Gives back how many levels the tree has.
    fn see_every(&self, low: &mut [u16]) -> usize
        requires { length low.old ≡ length self.now.depth.now }
        ensures { SeenEvery self.now.depth.now low.new result }
    {
        low.copy_from_slice(self.depth);
        let mut levels: usize = 0;
        for v in 0..self.depth.len() {
            levels = levels.max(at(self.depth, v) + 1);
        }
        levels
    }

    // The machines on the lines of a batch's ends, or all, where ends are many: that is sooner done than climbing from each.
    pub fn see_all(&self, low: &mut [u16], batch: &[u16]) -> usize
        requires { Lookable self.now.up.now low.old batch.now }
        ensures { SeenTo self.now.up.now batch.now low.new result (length batch.now) }
    {
        if batch.len() < self.up.len() / MACHINES_AN_END {
            return self.see_ends(low, batch);
        }
        self.see_every(low)
    }
}
