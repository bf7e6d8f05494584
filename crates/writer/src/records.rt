// The records of the file. Each goes into the part of the buffer that is still free: it is lent on to a function that fills its front and leaves the
// rest. Every function answers how many bytes it wrote.
// Kept: a buffer and a count beside it, since document 01 lends `&mut out[at..]` on, and there is no heap. The kind is the byte that is written, as `record_of` takes it.
ghost use Rattle.std.specs.Prelude.{◌≤◌, length};
ghost use Rattle.tables.specs.Tree.{most_machines};
ghost use Rattle.tables.specs.Batch.{pairs};
ghost use Rattle.sitefile.specs.Record.{record_of};
ghost use Rattle.writer.specs.Lent.{parts};
ghost use Rattle.writer.specs.Plan.{uplink_records, tree_records, link_records, close_records, batch_records, plan_records, file_of};
ghost use Rattle.writer.specs.Filling.{Fills};

use crate::plan::{Part, Plan};

// A record: its kind, then its numbers, of each the low byte first.
fn record<const N: usize>(free: &mut [u8], kind: u8, numbers: [u16; N]) -> usize
    requires { length (record_of kind numbers) ≤ length free.old }
    ensures { Fills (record_of kind numbers.entry) free.old free.new result }
{
    free[0] = kind;
    for i in 0..N {
        let [low, high] = numbers[i].to_le_bytes();
        free[1 + 2 * i] = low;
        free[2 + 2 * i] = high;
    }
    1 + 2 * N
}

// Kind 2 for each machine.
fn uplinks(out: &mut [u8], up: &[u16]) -> usize
    requires { length (uplink_records up.now) ≤ length out.old }
    ensures { Fills (uplink_records up.now) out.old out.new result }
{
    let mut at = 0;
    for v in 0..up.len() {
        at += record(&mut out[at..], 2, [up[v]]);
    }
    at
}

// Kind 1 with n, then the uplinks.
fn tree(out: &mut [u8], up: &[u16]) -> usize
    requires { (length up.now ≤ most_machines) × (length (tree_records up.now) ≤ length out.old) }
    ensures { Fills (tree_records up.now) out.old out.new result }
{
    let k = record(out, 1, [up.len() as u16]);
    k + uplinks(&mut out[k..], up)
}

// Kind 3 for each link of a batch.
fn links(out: &mut [u8], batch: &[u16]) -> usize
    requires { length (link_records (pairs batch.now)) ≤ length out.old }
    ensures { Fills (link_records (pairs batch.now)) out.old out.new result }
{
    let mut at = 0;
    for i in 0..batch.len() / 2 {
        at += record(&mut out[at..], 3, [batch[2 * i], batch[2 * i + 1]]);
    }
    at
}

// Kind 4, and kind 5 where a report is asked.
fn close(out: &mut [u8], report: bool) -> usize
    requires { length (close_records report) ≤ length out.old }
    ensures { Fills (close_records report) out.old out.new result }
{
    let k = record(out, 4, []);
    if !report {
        return k;
    }
    k + record(&mut out[k..], 5, [])
}

impl Part<'_> {
    // A batch: its links, then its close.
    fn write(self, out: &mut [u8]) -> usize
        requires { length (batch_records self.batch.now self.report) ≤ length out.old }
        ensures { Fills (batch_records self.entry.batch.now self.entry.report) out.old out.new result }
    {
        let k = links(out, self.batch);
        k + close(&mut out[k..], self.report)
    }
}

impl Plan<'_> {
    // Batch after batch.
    fn batches(self, out: &mut [u8]) -> usize
        requires { length (plan_records (parts self)) ≤ length out.old }
        ensures { Fills (plan_records (parts self.entry)) out.old out.new result }
    {
        let mut at = 0;
        for part in self {
            at += part.write(&mut out[at..]);
        }
        at
    }

    // The tree, then the batches.
    pub fn write(self, up: &[u16], out: &mut [u8]) -> usize
        requires { (length up.now ≤ most_machines) × (length (file_of up.now (parts self)) ≤ length out.old) }
        ensures { Fills (file_of up.now (parts self.entry)) out.old out.new result }
    {
        let k = tree(out, up);
        k + self.batches(&mut out[k..])
    }
}
