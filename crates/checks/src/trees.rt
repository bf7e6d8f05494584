// The tree check: every entry a machine, one hub, and every machine reaches it. It leaves the depths behind.
// Kept: `up` and `known` side by side; of the four functions that have both three write `known` and one reads it, so a struct of them would be taken apart at once.
ghost use Rattle.std.specs.Prelude.{◌≡◌, ◌<◌, length};
ghost use Rattle.tables.specs.Tree.{hub, depth_of, entries_verdict, hubs_verdict, reach_verdict, tree_verdict};
ghost use Rattle.checks.specs.TreeCheck.{below, hub_from, ups_verdict, Climbing, Laying, Laid, DepthRoom, Climbable, Reached};

use tables::{Fault, Verdict};

// Stands for a depth that is not known yet: no machine is so deep.
// Kept: an entry of a 16-bit table, which `grow` copies into the lent depths as it stands; Options would be turned into numbers one by one.
const UNKNOWN: u16 = 65535;

// Every entry names a machine.
fn entries(up: &[u16]) -> Verdict
    ensures { result ≡ entries_verdict up.now }
{
    for v in 0..up.len() {
        if up[v] as usize >= up.len() {
            return Verdict::Refused(Fault::Entry, v);
        }
    }
    Verdict::Sound
}

// The least machine, not below `from`, that names itself.
fn hub_from(up: &[u16], from: usize) -> Option<usize>
    ensures { result ≡ below (length up.now) (hub_from up.now from) }
{
    for v in from..up.len() {
        if up[v] as usize == v {
            return Some(v);
        }
    }
    None
}

// The machine that names itself: the least, if there are several; the number of machines, if there is none.
// Kept: a number in place of None is what the definition `hub` says, by which callers take this public function.
pub fn hub(up: &[u16]) -> usize
    ensures { result ≡ hub up.now }
{
    hub_from(up, 0).unwrap_or(up.len())
}

// There is one hub: a first, and none after it.
fn hubs(up: &[u16]) -> Verdict
    ensures { result ≡ hubs_verdict up.now }
{
    let Some(first) = hub_from(up, 0) else {
        return Verdict::Refused(Fault::Hubs, up.len());
    };
    match hub_from(up, first + 1) {
        Some(second) => Verdict::Refused(Fault::Hubs, second),
        None => Verdict::Sound,
    }
}

// The depth of `v`, by a climb to the first machine whose depth is known. There is none where the climb meets no such machine in as many steps
// as there are machines: then it never reaches the hub.
fn depth_of(up: &[u16], known: &[u16], v: usize) -> Option<usize>
    requires { Climbing up.now known.now v }
    ensures { result ≡ below (length up.now) (depth_of up.now v) }
{
    let mut x = v;
    for steps in 0..up.len() {
        if known[x] < UNKNOWN {
            return Some(steps + known[x] as usize);
        }
        x = up[x] as usize;
    }
    None
}

// Writes the depth of `v`, and those of the machines on its way up to the first that is known. No machine is written twice, so the
// climbs of the whole check are as long together as there are machines.
fn lay(up: &[u16], known: &mut [u16], v: usize, depth: usize)
    requires { Laying up.now known.old v depth }
    ensures { Laid up.now known.old v known.new }
{
    let mut x = v;
    let mut d = depth;
    // Kept: a walk that ends at the first known machine; a `for` over the depths would need that test as well. The next machine is read before
    // this one's depth is written (docs/DECISIONS.md).
    while known[x] >= UNKNOWN {
        let p = up[x] as usize;
        known[x] = d as u16;
        x = p;
        d -= 1;
    }
}

// Every machine reaches the hub, and then `known` has the depths. A climb that meets no known depth ends the check.
fn reach(up: &[u16], known: &mut [u16]) -> Verdict
    requires { Climbable up.now known.old }
    ensures { Reached (reach_verdict up.now) up.now known.new result }
{
    known.fill(UNKNOWN);
    let top = hub(up);
    known[top] = 0;
    for v in 0..up.len() {
        let Some(depth) = depth_of(up, known, v) else {
            return Verdict::Refused(Fault::Stray, v);
        };
        lay(up, known, v, depth);
    }
    Verdict::Sound
}

// Every entry names a machine, and there is one hub: what takes no climb.
pub fn ups(up: &[u16]) -> Verdict
    ensures { result ≡ ups_verdict up.now }
{
    let within = entries(up);
    let Verdict::Sound = within else {
        return within;
    };
    hubs(up)
}

// The three checks of a tree in their order. Where all is well, `known` has the depths.
pub fn check(up: &[u16], known: &mut [u16]) -> Verdict
    requires { DepthRoom up.now known.old }
    ensures { Reached (tree_verdict up.now) up.now known.new result }
{
    let named = ups(up);
    let Verdict::Sound = named else {
        return named;
    };
    reach(up, known)
}
