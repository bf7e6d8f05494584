// Lanes laid over the machines on lists: a machine and its kid are in one lane. A machine's rank is no less than its kid's and greater than that of any
// other child; a rank of r takes 2 to the power of r - 1 machines. So ranks rise from lane to lane, and a line has at most 13 lanes, where links are not
// few. But which child the kid is matters to speed alone: nothing is proved of it.
ghost use Rattle.std.specs.Prelude.{◌+◌};
ghost use Rattle.lanes.specs.Laying.{Noted, Walkable, ListAt, TopFor, LayableAt, LanesTo};

use crate::lists::Lists;
use crate::table::{alone, at};

// Offers v to its up as its kid. The rank of a machine with no kid is noted as 0, and is 1. No rank passes 13: 4,096 machines are too few, so the
// addition never saturates.
// Kept: 0 for no rank yet is less than every rank, so `max(1)` is its only case; ranks stand in the place of the tops, a 16-bit table, so
// Options would need a table more (a rule: fixed memory).
fn offer(up: &[u16], rank: &mut [u16], kid: &mut [u16], v: usize)
    requires { Noted up.now rank.old kid.old v }
{
    let r = rank[v].max(1);
    let p = at(up, v);
    let q = rank[p];
    if q < r {
        rank[p] = r;
        kid[p] = v as u16;
    } else if q == r {
        rank[p] = r.saturating_add(1);
    }
}

// The top of v's lane: that of its up, where v is the kid there.
fn top_for(up: &[u16], kid: &[u16], top: &[u16], v: usize) -> u16
    requires { Noted up.now kid.now top.now v }
    ensures { TopFor up.now kid.now top.now v result }
{
    let p = at(up, v);
    if p != v && at(kid, p) == v {
        top[p]
    } else {
        v as u16
    }
}

// So many links are climbed one by one sooner than lanes are laid.
const FEW_LINKS: usize = 2;

// Kept: `Walkable`, and `Noted` above, speak of tables that are about to be written, so they stand in the contracts and are no part of `Lists`.
impl Lists<'_> {
    // Offers the machines of depth k.
    fn offers(&self, rank: &mut [u16], kid: &mut [u16], k: usize)
        requires { ListAt self.now.tree.up.now rank.old kid.old k }
    {
        for v in self.on(k) {
            offer(self.tree.up, rank, kid, v);
        }
    }

    // The kids of all machines on lists, from the deepest list to the highest.
    fn kids(&self, rank: &mut [u16], kid: &mut [u16])
        requires { Walkable self.now.tree.up.now rank.old kid.old }
    {
        for k in (0..self.levels).rev() {
            self.offers(rank, kid, k);
        }
    }

    // The tops of the machines of depth k.
    fn level(&self, kid: &[u16], top: &mut [u16], k: usize)
        requires { LayableAt self.now.tree.up.now self.now.next.now kid.now top.old k }
        ensures { LanesTo self.now.tree.up.now self.now.next.now kid.now top.new (k + 1) }
    {
        for v in self.on(k) {
            top[v] = top_for(self.tree.up, kid, top, v);
        }
    }

    // The tops of all machines on lists, from the hub down.
    fn tops(&self, kid: &[u16], top: &mut [u16])
        requires { Walkable self.now.tree.up.now kid.now top.old }
        ensures { LanesTo self.now.tree.up.now self.now.next.now kid.now top.new self.now.levels }
    {
        for k in 0..self.levels {
            self.level(kid, top, k);
        }
    }

    // Puts every machine on a list into a lane, for so many links. Until the tops are written, their place has the ranks.
    pub fn lay(&self, links: usize, kid: &mut [u16], top: &mut [u16])
        requires { Walkable self.now.tree.up.now top.old kid.old }
        ensures { LanesTo self.now.tree.up.now self.now.next.now kid.new top.new self.now.levels }
    {
        if links <= FEW_LINKS {
            alone(top);
            return;
        }
        self.kids(top, kid);
        self.tops(kid, top);
    }
}
