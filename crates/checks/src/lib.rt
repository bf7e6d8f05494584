// What is refused: the checks of each call, in the order of the codes, and the answer to a verdict; the checks of Start also leave the depths that they
// find. No function that other crates see asks anything of its caller.
// Kept: each check is taken apart by `let .. else` and handed on, the form that document 01 names ("inner checks answer an enum").
// Kept: the public calls take up, depth, group and mark one by one, as the site's calls are lent them: their signatures stay.
#![tactic(auto)]

ghost use Rattle.std.specs.Prelude.{◌≡◌, ◌≤◌, length};
ghost use Rattle.tables.specs.Tree.{most_machines, tree_verdict, alone_verdict};
ghost use Rattle.tables.specs.Tables.{tables_of};
ghost use Rattle.tables.proofs.Lengths.{Lengths};
ghost use Rattle.tables.specs.Batch.{batch_verdict};
ghost use Rattle.tables.specs.Rules.{tables_verdict};
ghost use Rattle.tables.specs.Report.{bytes_of};
ghost use Rattle.tables.specs.Outcome.{outcome, start_verdict, add_verdict, report_verdict};
ghost use Rattle.checks.specs.Started.{started};
ghost use Rattle.checks.specs.TreeCheck.{stray_first, DepthRoom};

mod answers;
mod batches;
mod lengths;
mod rules;
mod table;
mod trees;

pub use crate::answers::{answer, refusal};
pub use crate::lengths::{numbers, size};
use crate::rules::Tables;
pub use crate::table::at;
pub use crate::trees::hub;
use tables::Verdict;

// A site has at most so many machines.
pub const MACHINES: usize = 4096;

// A batch has at most so many links.
pub const LINKS: usize = 1024;

// A tree of not too many machines. The depths that its check finds stay in a local array.
// Kept: of an array for the most machines, here and in `start`, the front is used: no heap.
fn shape(up: &[u16]) -> Verdict
    requires { length up.now ≤ most_machines }
    ensures { result ≡ tree_verdict up.now }
{
    let n = up.len();
    let mut known = [0; MACHINES];
    trees::check(up, &mut known[..n])
}

// A tree by itself.
pub fn tree(up: &[u16]) -> Verdict
    ensures { result ≡ alone_verdict up.now }
{
    let few = lengths::size(up.len());
    let Verdict::Sound = few else {
        return few;
    };
    shape(up)
}

// A batch, over n machines.
pub fn batch(n: usize, batch: &[u16]) -> Verdict
    ensures { result ≡ batch_verdict n batch.now }
{
    let even = lengths::numbers(batch.len());
    let Verdict::Sound = even else {
        return even;
    };
    batches::ends(n, batch)
}

// Where a rule is broken: a machine that never reaches the hub is told of first.
fn stray_first(up: &[u16], broken: Verdict) -> Verdict
    requires { length up.now ≤ most_machines }
    ensures { result ≡ stray_first up.now broken }
{
    let reached = shape(up);
    let Verdict::Sound = reached else {
        return reached;
    };
    broken
}

// The tree and the rules behind code 6, over tables of the right lengths. Depths by which every machine keeps its rule lead to the hub, so where no rule
// is broken nothing is climbed.
fn tables(up: &[u16], depth: &[u16], group: &[u16], mark: &[u8]) -> Verdict
    requires { Lengths up.now (tables_of depth.now group.now mark.now) }
    ensures { result ≡ tables_verdict up.now (tables_of depth.now group.now mark.now) }
{
    let named = trees::ups(up);
    let Verdict::Sound = named else {
        return named;
    };
    let site = Tables {
        up,
        depth,
        group,
        mark,
        top: trees::hub(up),
    };
    let kept = site.check();
    let Verdict::Sound = kept else {
        return stray_first(up, kept);
    };
    kept
}

// A tree whose depths go to `known` first, and to `depth` where all is well.
fn grow(up: &[u16], known: &mut [u16], depth: &mut [u16]) -> Verdict
    requires { DepthRoom up.now known.old × (length depth.old ≡ length up.now) }
    ensures { outcome result depth.new ≡ started (tree_verdict up.now) up.now depth.old }
{
    let grown = trees::check(up, known);
    let Verdict::Sound = grown else {
        return grown;
    };
    depth.copy_from_slice(known);
    Verdict::Sound
}

// All checks of Start. They find the depths, so where all is well `depth` has them; else it is as it came.
pub fn start(up: &[u16], depth: &mut [u16], group: &[u16], mark: &[u8]) -> Verdict
    ensures { outcome result depth.new
        ≡ started (start_verdict up.now (tables_of depth.old group.now mark.now)) up.now depth.old }
{
    let n = up.len();
    let sizes = lengths::sizes(n, depth.len(), group.len(), mark.len());
    let Verdict::Sound = sizes else {
        return sizes;
    };
    let mut known = [0; MACHINES];
    grow(up, &mut known[..n], depth)
}

// All checks of Add.
pub fn add(up: &[u16], depth: &[u16], group: &[u16], mark: &[u8], added: &[u16]) -> Verdict
    ensures { result ≡ add_verdict up.now added.now (tables_of depth.now group.now mark.now) }
{
    let sizes = lengths::sizes(up.len(), depth.len(), group.len(), mark.len());
    let Verdict::Sound = sizes else {
        return sizes;
    };
    let kept = tables(up, depth, group, mark);
    let Verdict::Sound = kept else {
        return kept;
    };
    batch(up.len(), added)
}

// All checks of Report.
pub fn report(
    up: &[u16],
    depth: &[u16],
    group: &[u16],
    mark: &[u8],
    machines: &[u8],
    links: &[u8],
) -> Verdict
    ensures { result ≡ report_verdict up.now (tables_of depth.now group.now mark.now) (bytes_of machines.now links.now) }
{
    let sizes = lengths::sizes(up.len(), depth.len(), group.len(), mark.len());
    let Verdict::Sound = sizes else {
        return sizes;
    };
    let outputs = lengths::outputs(up.len(), machines.len(), links.len());
    let Verdict::Sound = outputs else {
        return outputs;
    };
    tables(up, depth, group, mark)
}
