// A site of machines over lent slices: Start, Add and Report.
#![tactic(auto)]

ghost use Rattle.std.specs.Prelude.{◌≡◌};
ghost use Rattle.tables.specs.Tables.{tables_of};
ghost use Rattle.tables.specs.Report.{bytes_of};
ghost use Rattle.tables.specs.Outcome.{outcome, start_of, add_of, report_of};

mod report;

use report::View;
use tables::{Answer, Verdict};

// A site is the slices that its calls are lent; the type has the limits and the calls.
#[derive(Clone, Copy)]
pub struct Site {}

// Kept: each call is lent its slices one by one and answers a code and a value; its checks answer a `Verdict`, taken apart by `let .. else` (document 01).
impl Site {
    // A site has at most so many machines.
    pub const MACHINES: usize = checks::MACHINES;

    // A batch has at most so many links.
    pub const LINKS: usize = checks::LINKS;

    // From a tree to fresh tables. Nothing lent is touched before every check has passed.
    pub fn start(up: &[u16], depth: &mut [u16], group: &mut [u16], mark: &mut [u8]) -> Answer
        ensures { outcome result (tables_of depth.new group.new mark.new)
            ≡ start_of up.now (tables_of depth.old group.old mark.old) }
    {
        let check = checks::start(up, depth, group, mark);
        let Verdict::Sound = check else {
            return checks::answer(check, 0);
        };
        lanes::alone(group);
        mark.fill(0);
        checks::answer(check, up.len())
    }

    // One batch of cross links. Every check comes before the first link is used.
    pub fn add(
        up: &[u16],
        depth: &mut [u16],
        group: &mut [u16],
        mark: &mut [u8],
        batch: &[u16],
    ) -> Answer
        ensures { outcome result (tables_of depth.new group.new mark.new)
            ≡ add_of up.now batch.now (tables_of depth.old group.old mark.old) }
    {
        let check = checks::add(up, depth, group, mark, batch);
        let Verdict::Sound = check else {
            return checks::answer(check, 0);
        };
        let rise = lanes::apply(up, depth, group, mark, batch);
        checks::answer(check, rise)
    }

    // The choke machines and the choke uplinks. What the two outputs held does not matter.
    pub fn report(
        up: &[u16],
        depth: &[u16],
        group: &[u16],
        mark: &[u8],
        machines: &mut [u8],
        links: &mut [u8],
    ) -> Answer
        ensures { outcome result (bytes_of machines.new links.new)
            ≡ report_of up.now (tables_of depth.now group.now mark.now) (bytes_of machines.old links.old) }
    {
        let check = checks::report(up, depth, group, mark, machines, links);
        let Verdict::Sound = check else {
            return checks::answer(check, 0);
        };
        let view = View {
            up,
            group,
            mark,
            top: checks::hub(up),
        };
        let chokes = view.fill(machines, links);
        checks::answer(check, chokes)
    }
}
