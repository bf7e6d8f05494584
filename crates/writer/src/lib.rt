// The writer of site files: a tree, batches of links, and the reports asked after them, as one site file in a lent buffer.
#![tactic(auto)]

ghost use Rattle.std.specs.Prelude.{◌≡◌};
ghost use Rattle.tables.specs.Outcome.{outcome};
ghost use Rattle.writer.specs.Written.{write_of};

mod lengths;
mod plan;
mod records;

use plan::Plan;
use tables::{Answer, Fault, Verdict};

// Writes the site file over the front of `out`, and answers its length. A refusal leaves `out` as it came.
// Kept: the plan comes in three slices, since document 02 lends them so; from `Plan::new` on they are one struct.
// Kept: a check answers a `Verdict`, taken apart by `let .. else` and returned, and no `Result` with `?`: that form is document 01's.
pub fn write(up: &[u16], links: &[u16], lengths: &[u16], reports: &[u8], out: &mut [u8]) -> Answer
    ensures { outcome result out.new ≡ write_of up.now links.now lengths.now reports.now out.old }
{
    let tree = checks::tree(up);
    let Verdict::Sound = tree else {
        return checks::answer(tree, 0);
    };
    let Some(plan) = Plan::new(links, lengths, reports) else {
        return checks::answer(Verdict::Refused(Fault::Parts, lengths.len()), 0);
    };
    let batches = plan.check(up.len());
    let Verdict::Sound = batches else {
        return checks::answer(batches, 0);
    };
    let room = lengths::room(plan.length(up.len()), out.len());
    let Verdict::Sound = room else {
        return checks::answer(room, 0);
    };
    let len = plan.write(up, out);
    checks::answer(room, len)
}
