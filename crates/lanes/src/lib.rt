// What a batch of links does, in time near the number of machines and links on every tree: the two ends of a link meet by lanes, pieces of lines that
// are passed at one hop, and one sweep over the machines on the lines of the ends raises the marks.
#![tactic(auto)]

ghost use Rattle.lanes.specs.Hung.{Batched};
ghost use Rattle.lanes.specs.Whole.{Applicable, Applied, Bare, Looked, Joined};

mod groups;
mod hang;
mod lay;
mod lists;
mod marks;
mod meet;
mod seen;
mod table;
mod tree;

use crate::lists::Lists;
use crate::meet::Lanes;
pub use crate::table::alone;
use crate::tree::Tree;
use checks::MACHINES;

// What a table has for a machine that is not seen, or on no list.
// Kept: in place of None; `NONE` (seen.rt) and `list` (lists.rt) say why.
const BLANK: u16 = 65535;

// Puts every machine that the batch can change on the list of its depth. Gives back how many lists there are.
// Kept: a struct is no plainer: three tables that are written, of which `Lists` has two once they are full, for reading.
fn look(tree: &Tree, batch: &[u16], low: &mut [u16], head: &mut [u16], next: &mut [u16]) -> usize
    requires { Bare tree.now.up.now batch.now low.old head.old next.old }
    ensures { Looked tree.now.up.now batch.now low.new head.new next.new result }
{
    let levels = tree.see_all(low, batch);
    lists::fill(tree.depth, low, head, next);
    levels
}

// Joins the groups as the links say, and leaves how high their rings reach from each end.
fn join(lanes: &Lanes, group: &mut [u16], low: &mut [u16], batch: &[u16])
    requires { Batched lanes.now.tree.up.now lanes.now.top.now lanes.now.kid.now group.old low.old batch.now }
    ensures { Joined lanes.now.tree.up.now group.old batch.now group.new low.new }
{
    lanes.hang_all(group, low, batch);
    groups::flatten(group);
}

// Applies a batch that was accepted. Gives back the total by which marks rose.
// Kept: the slices one by one; the signature and `Applicable` stay (docs/PROMISES.md).
pub fn apply(up: &[u16], depth: &[u16], group: &mut [u16], mark: &mut [u8], batch: &[u16]) -> usize
    requires { Applicable up.now depth.now group.old mark.old batch.now }
    ensures { Applied up.now depth.now group.old mark.old batch.now group.new mark.new result }
{
    // Kept: arrays as long as a site may be, each cut to this one, side by side: the rules are fixed memory, no heap, and tables of 16-bit numbers.
    let n = up.len();
    let mut low = [BLANK; MACHINES];
    let mut head = [0; MACHINES];
    let mut next = [BLANK; MACHINES];
    let mut kid = [0; MACHINES];
    let mut top = [0; MACHINES];
    let low = &mut low[..n];
    let head = &mut head[..n];
    let next = &mut next[..n];
    let kid = &mut kid[..n];
    let top = &mut top[..n];
    let tree = Tree { up, depth };
    let levels = look(&tree, batch, low, head, next);
    let lists = Lists {
        tree,
        head,
        next,
        levels,
    };
    lists.lay(batch.len() / 2, kid, top);
    join(&Lanes { tree, top, kid }, group, low, batch);
    lists.settle(low, mark)
}
