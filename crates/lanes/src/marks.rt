// The marks after a batch, from the least depth that its rings reach from under each machine.
ghost use Rattle.std.specs.Prelude.{◌≡◌, ◌<◌, length};
ghost use Rattle.lanes.specs.Laying.{Noted, ListAt};
ghost use Rattle.lanes.specs.Low.{asked, lowered, Lifted, Handed, Sweepable, Swept, LevelSwept};

use crate::lists::Lists;
use crate::table::at;

// The entry of v becomes z, where that is less.
pub fn lower(low: &mut [u16], v: usize, z: u16)
    requires { v < length low.old }
    ensures { low.new ≡ lowered low.old v z }
{
    low[v] = low[v].min(z);
}

// The mark that a ring which reaches depth l asks of a machine at depth d: nothing down to w, 1 (ringed) just below it, 2 (carried) deeper.
fn ask(l: usize, d: usize) -> u8
    ensures { result ≡ asked l d }
{
    d.saturating_sub(l).min(2) as u8
}

// Lifts the mark of v to k: marks only rise. Gives back by how much it rose.
fn lift(mark: &mut [u8], v: usize, k: u8) -> usize
    requires { v < length mark.old }
    ensures { Lifted mark.old mark.new v k result }
{
    let m = mark[v];
    let h = m.max(k);
    mark[v] = h;
    (h - m) as usize
}

// A machine v of depth k is lifted to what its least depth asks, and hands that depth up. Gives back by how much its mark rose.
// Kept: two tables that are written, one that is read: no struct of these is made anywhere else, so one would be made here for each machine.
fn hand_up(up: &[u16], low: &mut [u16], mark: &mut [u8], v: usize, k: usize) -> usize
    requires { Noted up.now low.old mark.old v }
    ensures { Handed up.now low.old low.new mark.old mark.new v k result }
{
    let l = low[v];
    lower(low, at(up, v), l);
    lift(mark, v, ask(l as usize, k))
}

impl Lists<'_> {
    // The machines of depth k. Gives back by how much their marks rose.
    fn sweep_level(&self, low: &mut [u16], mark: &mut [u8], k: usize) -> usize
        requires { ListAt self.now.tree.up.now low.old mark.old k }
        ensures { LevelSwept self.now.tree.up.now self.now.next.now low.old low.new mark.old mark.new k result }
    {
        let mut rise: usize = 0;
        for v in self.on(k) {
            rise += hand_up(self.tree.up, low, mark, v, k);
        }
        rise
    }

    // Every machine on lists, from the deepest list to the highest. Gives back by how much the marks rose.
    pub fn settle(&self, low: &mut [u16], mark: &mut [u8]) -> usize
        requires { Sweepable self.now.tree.up.now self.now.next.now low.old mark.old }
        ensures { Swept self.now.tree.up.now self.now.next.now low.old mark.old mark.new result }
    {
        let mut rise: usize = 0;
        for k in (0..self.levels).rev() {
            rise += self.sweep_level(low, mark, k);
        }
        rise
    }
}
