// Groups joined in their own table: while a batch is applied an entry is a machine of the same group, no greater; in the end its name.
ghost use Rattle.std.specs.Prelude.{◌<◌, length};
ghost use Rattle.lanes.specs.Forest.{Down, Found, Unitable, United, Flattened};

use crate::table::at;

// The name of c's group. The entries on the way are moved nearer to it.
// Kept: it goes on to the entry that names itself; there is no count, so it is no plainer as a `for`. `Down` stands in its contract and in that of `flatten`; a struct of the lent table
// would be taken apart at each call.
fn root(group: &mut [u16], c: usize) -> usize
    requires { Down group.old × (c < length group.old) }
    ensures { Found group.old group.new c result }
{
    let mut x = c;
    let mut g = at(group, c);
    while g != x {
        let h = group[g];
        group[x] = h;
        x = g;
        g = h as usize;
    }
    x
}

// Makes the groups of c and d one: the greater name points to the lesser.
pub fn unite(group: &mut [u16], c: usize, d: usize)
    requires { Unitable group.old c d }
    ensures { United group.old group.new c d }
{
    let g = root(group, c);
    let h = root(group, d);
    group[g.max(h)] = g.min(h) as u16;
}

// Puts each group's name: the entry that an entry leads to has been put before.
pub fn flatten(group: &mut [u16])
    requires { Down group.old }
    ensures { Flattened group.old group.new }
{
    for i in 0..group.len() {
        let g = at(group, i);
        group[i] = group[g];
    }
}
