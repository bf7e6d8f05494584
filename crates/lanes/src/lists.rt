// The machines seen, in lists by their depth.
ghost use Rattle.std.specs.Prelude.{◌≡◌, ◌+◌, ◌<◌, length};
ghost use Rattle.std.specs.Iterator.{at_most};
ghost use Rattle.plain.specs.Table.{at as entry};
ghost use Rattle.lanes.specs.Depths.{Listing, Listable, ListableAt, Begins, Falls, Stepped};
ghost use Rattle.lanes.specs.Laying.{Ground, Levels};

use crate::seen::NONE;
use crate::table::at;
use crate::tree::Tree;

// The machines of a tree that are on lists: the head of each depth's list and each machine's next, one more than a machine, or 0 where the list ends.
#[derive(Clone, Copy)]
pub struct Lists<'a> {
    pub tree: Tree<'a>,
    pub head: &'a [u16],
    pub next: &'a [u16],
    pub levels: usize,
    ghost ground: { Ground tree.up.now head.now next.now },
    ghost deep: { Levels tree.up.now next.now levels },
}

impl<'a> Lists<'a> {
    // The machines on the list of depth k.
    pub fn on(&self, k: usize) -> Walk<'a>
        requires { k < length self.now.tree.up.now }
        ensures table { result.next.now ≡ self.now.next.now }
        ensures start { result.x ≡ entry self.now.head.now k }
    {
        Walk {
            next: self.next,
            x: at(self.head, k),
        }
    }
}

// A walk down one list, which goes down in number: x is one more than the machine that comes next, or 0.
// Kept: an Option is no plainer: x is an entry of `head` or `next` as it was read, and `next` makes the Option of it.
#[derive(Drop)]
pub struct Walk<'a> {
    pub next: &'a [u16],
    pub x: usize,
    pub ghost begins: { Begins next.now x },
    pub ghost falls: { Falls next.now },
}

impl<'a> Iterator for Walk<'a> {
    type Item = usize;

    ghost remaining = { λ s. at_most s.x };

    ghost next_gives = { λ s r t. Stepped s.next.now s.x r t.next.now t.x };

    fn next(&mut self) -> Option<usize> {
        let v = self.x.checked_sub(1)?;
        self.x = at(self.next, v);
        Some(v)
    }
}

// Puts v before the head of the list of its depth, if it is seen. An entry is one more than a machine.
// Kept: an entry of `next` says on no list (65535), last (0) or followed by v (v + 1): an Option of an Option is no plainer.
// Kept: a struct is no plainer: `Lists` is of full tables, these are being filled, and one of these would be made for this call alone.
fn list(depth: &[u16], low: &[u16], head: &mut [u16], next: &mut [u16], v: usize)
    requires { ListableAt depth.now low.now head.old next.old v }
    ensures { Listing depth.now low.now (v + 1) head.new next.new }
{
    if at(low, v) == NONE {
        return;
    }
    let d = at(depth, v);
    next[v] = head[d];
    head[d] = (v + 1) as u16;
}

// Every machine in turn.
pub fn fill(depth: &[u16], low: &[u16], head: &mut [u16], next: &mut [u16])
    requires { Listable depth.now low.now head.old next.old }
    ensures { Listing depth.now low.now (length depth.now) head.new next.new }
{
    for v in 0..depth.len() {
        list(depth, low, head, next, v);
    }
}
