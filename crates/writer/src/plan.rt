// What is lent of a plan, and its batches: cut off the front one by one.
ghost use Rattle.std.specs.Prelude.{◌≡◌, ◌^◌, ◌<◌, length, eqb};
ghost use Rattle.plain.specs.Table.{total};

use tables::Verdict;

// Whether the lengths add up to so many numbers: each is taken off what is left, so that no sum wraps.
fn add_up(lengths: &[u16], numbers: usize) -> bool
    ensures { result ≡ eqb (total lengths.now) numbers }
{
    let mut left = numbers;
    for &k in lengths {
        let k = k as usize;
        if left < k {
            return false;
        }
        left -= k;
    }
    left == 0
}

// A batch, whose length has 16 bits, and whether a report is asked after it, which the byte says where it is not 0.
#[derive(Clone, Copy)]
pub struct Part<'a> {
    pub batch: &'a [u16],
    pub report: bool,
    ghost few: { length batch.now < 2 ^ 16 },
}

// The slices that are lent: a report byte for each length, and lengths that add up to the numbers.
// Kept: lengths and reports stay two slices with one index, as document 02 lends them.
#[derive(Clone, Copy)]
pub struct Plan<'a> {
    links: &'a [u16],
    lengths: &'a [u16],
    reports: &'a [u8],
    ghost bytes: { length reports.now ≡ length lengths.now },
    ghost sum: { total lengths.now ≡ length links.now },
}

impl<'a> Plan<'a> {
    ghost use Rattle.writer.specs.Written.{plan_verdict};
    ghost use Rattle.writer.specs.Lent.{Planned};

    // A plan of these slices; None, to be answered by 27, where they don't go together.
    pub fn new(links: &'a [u16], lengths: &'a [u16], reports: &'a [u8]) -> Option<Plan<'a>>
        ensures { Planned links.now lengths.now reports.now result }
    {
        if reports.len() != lengths.len() {
            return None;
        }
        if !add_up(lengths, links.len()) {
            return None;
        }
        Some(Plan {
            links,
            lengths,
            reports,
        })
    }

    // Refuses the first bad batch, with 7 to 9; 27 is never given here, since the slices go together.
    pub fn check(self, n: usize) -> Verdict
        ensures { result ≡ plan_verdict n self.entry.links.now self.entry.lengths.now self.entry.reports.now }
    {
        for part in self {
            let good = checks::batch(n, part.batch);
            let Verdict::Sound = good else {
                return good;
            };
        }
        Verdict::Sound
    }
}

// The batches that are left, from the first on.
impl<'a> Iterator for Plan<'a> {
    ghost use Rattle.std.specs.Iterator.{YieldsFirstBy, item_count};
    ghost use Rattle.writer.specs.Lent.{parts, part_of};

    type Item = Part<'a>;

    ghost next_gives = { YieldsFirstBy part_of parts };

    ghost remaining = { item_count parts };

    fn next(&mut self) -> Option<Part<'a>> {
        let (k, lengths) = self.lengths.split_first()?;
        let (report, reports) = self.reports.split_first()?;
        let (batch, links) = self.links.split_at(*k as usize);
        *self = Plan {
            links,
            lengths,
            reports,
        };
        Some(Part {
            batch,
            report: *report != 0,
        })
    }
}
