// Where two lines meet, found by lanes.
ghost use Rattle.std.specs.Prelude.{◌≡◌, length};
ghost use Rattle.lanes.specs.Lane.{Hops, Stand, Closes, MetAt};

use crate::table::at;
use crate::tree::Tree;
use std::cmp::Ordering;

// A tree with its lanes: the top of each machine's lane, and each machine's kid, the child in the same lane.
#[derive(Clone, Copy)]
pub struct Lanes<'a> {
    pub tree: Tree<'a>,
    pub top: &'a [u16],
    pub kid: &'a [u16],
    ghost top_size: { length top.now ≡ length tree.up.now },
    ghost kid_size: { length kid.now ≡ length tree.up.now },
}

// Where the lines of two machines meet, and the highest machine of each arm below it; none, where the arm is empty.
#[derive(Clone, Copy)]
pub struct Met {
    pub w: usize,
    pub c: Option<usize>,
    pub d: Option<usize>,
}

impl Lanes<'_> {
    // Two climbs that stand in one lane: the higher stands where the lines meet, and the other arm comes there by its kid.
    // Kept: two ends and how each came; a struct for an end would be taken apart at once.
    fn close(&self, x: usize, c: Option<usize>, y: usize, d: Option<usize>) -> Met
        requires { Stand self.now.tree.depth.now self.now.kid.now x y }
        ensures { Closes self.now.tree.depth.now self.now.kid.now x c y d result.w result.c result.d }
    {
        match at(self.tree.depth, x).cmp(&at(self.tree.depth, y)) {
            Ordering::Less => Met {
                w: x,
                c,
                d: Some(at(self.kid, x)),
            },
            Ordering::Greater => Met {
                w: y,
                c: Some(at(self.kid, y)),
                d,
            },
            Ordering::Equal => Met { w: x, c, d },
        }
    }

    // Where the lines of a and b meet. Of two lanes the one with the deeper top is left: what is skipped is not on the other's line.
    // Kept: each turn one end hops, until both stand in one lane; there is no count to go by, so it is no plainer as a `for`.
    pub fn meet(&self, a: usize, b: usize) -> Met
        requires { Hops self.now.tree.up.now self.now.top.now self.now.kid.now a b }
        ensures { MetAt self.now.tree.up.now a b result.w result.c result.d }
    {
        let mut x = a;
        let mut c = None;
        let mut s = at(self.top, a);
        let mut y = b;
        let mut d = None;
        let mut t = at(self.top, b);
        while s != t {
            if at(self.tree.depth, s) < at(self.tree.depth, t) {
                d = Some(t);
                y = at(self.tree.up, t);
                t = at(self.top, y);
            } else {
                c = Some(s);
                x = at(self.tree.up, s);
                s = at(self.top, x);
            }
        }
        self.close(x, c, y, d)
    }
}
