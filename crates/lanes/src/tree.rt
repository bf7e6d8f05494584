// The tree that a batch is applied to, lent for reading.
ghost use Rattle.std.specs.Prelude.{◌≡◌, ◌≤◌, length};
ghost use Rattle.plain.specs.Table.{tabulate};
ghost use Rattle.tables.specs.declared.Verdict.TheVariants.{Sound};
ghost use Rattle.tables.specs.Tree.{most_machines, depth_of, tree_verdict};

// Where each machine's uplink goes, and each machine's depth: a tree that is accepted, and its depths.
#[derive(Clone, Copy)]
pub struct Tree<'a> {
    pub up: &'a [u16],
    pub depth: &'a [u16],
    ghost few: { length up.now ≤ most_machines },
    ghost sound: { tree_verdict up.now ≡ Sound },
    ghost depths: { depth.now ≡ tabulate (length up.now) (depth_of up.now) },
}
