// How long the file will be, before a byte of it is written.
ghost use Rattle.std.specs.Prelude.{◌≡◌, ◌+◌, ◌*◌, ◌^◌, ◌≤◌, length};
ghost use Rattle.tables.specs.Tree.{most_machines};
ghost use Rattle.writer.specs.Lent.{parts};
ghost use Rattle.writer.specs.Plan.{batch_records, plan_records};
ghost use Rattle.writer.specs.Written.{room_verdict};
ghost use Rattle.writer.specs.Filling.{Measured};

use crate::plan::{Part, Plan};
use tables::{Fault, Verdict};

impl Part<'_> {
    // A batch with its close, and with a report or without.
    fn length(self) -> usize
        ensures is { result ≡ length (batch_records self.entry.batch.now self.entry.report) }
        ensures few { result ≤ 5 * 2 ^ 16 }
    {
        let links = self.batch.len() / 2;
        if self.report {
            5 * links + 2
        } else {
            5 * links + 1
        }
    }
}

impl Plan<'_> {
    // The file of n machines. The sum stops where it has passed the most that a file may have, so that it never wraps.
    // Kept: that there are no more machines than a site has speaks of `up`, which is lent alone, here and in `tree` and `Plan::write`; a struct of one slice is no plainer.
    pub fn length(self, n: usize) -> usize
        requires { n ≤ most_machines }
        ensures { Measured (3 + 3 * n + length (plan_records (parts self.entry))) result }
    {
        let mut sum = 3 + 3 * n;
        for part in self {
            if turns::MOST_BYTES < sum {
                return sum;
            }
            sum += part.length();
        }
        sum
    }
}

// Refuses with 13 a file longer than a site file may be, then with 14 a buffer shorter than the file.
pub fn room(file: usize, room: usize) -> Verdict
    ensures { result ≡ room_verdict file room }
{
    if turns::MOST_BYTES < file {
        return Verdict::Refused(Fault::Long, turns::MOST_BYTES);
    }
    if room < file {
        return Verdict::Refused(Fault::Short, file);
    }
    Verdict::Sound
}
