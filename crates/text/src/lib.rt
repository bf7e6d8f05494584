// The text of a refusal and of a report, written into a lent buffer.
#![tactic(auto)]

ghost use Rattle.std.specs.Prelude.{◌≡◌, [], ◌∷◌, ◌+◌, ◌<◌, ◌≤◌, length};
ghost use Rattle.tables.specs.Outcome.{outcome};
ghost use Rattle.tables.specs.Report.{named};
ghost use Rattle.text.specs.Text.{decimal, line, line_for, machine_lines, uplink_lines};
ghost use Rattle.text.specs.Written.{Appends, HasRoom, Lays, refusal_written, report_fits, report_written};

use tables::Answer;

// So many bytes are room for the text of any report, and of any refusal.
pub const MOST_TEXT: usize = 24 * checks::MACHINES + 64;

// How many bytes are not 0.
// Kept: `site` counts its machines by a line of the same form; it has three public calls and no more (docs/DECISIONS.md).
fn named(bytes: &[u8]) -> usize
    ensures { result ≡ named bytes.now }
{
    bytes.iter().filter(|byte| **byte != 0).count()
}

// Whether a report over n machines has its room, by the lengths of its slices.
fn fits(n: usize, machines: usize, links: usize, room: usize) -> bool
    ensures { result ≡ report_fits n machines links room }
{
    n <= checks::MACHINES && machines == n && links == n && 24 * n + 64 <= room
}

// A number in decimal, from a place on: the digits of a tenth of it, then its last one. Answers the place behind it.
// Kept: a buffer and a place, and no method of `Page`: tried, and a report's text took 1.7 to 1.9 times as long, for a page that is lent to a call of itself lies in memory, and
// the place of each byte waits for that of the one before (docs/LOOK-BACK.md).
// Kept: `write!` promises its bytes only where it answers Ok, and `report_written` promises the text wherever there is room; with the crate itoa
// the call and the copy of its digits are no shorter than this, and the line that text/last_digit_wrong makes wrong would be none of ours.
fn decimal(out: &mut [u8], at: usize, n: usize) -> usize
    requires { at + length (decimal n) ≤ length out.old }
    ensures { Lays out.old at (decimal n) out.new result }
{
    if n < 10 {
        out[at] = b'0' + n as u8;
        return at + 1;
    }
    let last = decimal(out, at, n / 10);
    out[last] = b'0' + (n % 10) as u8;
    last + 1
}

// A lent buffer, and the place up to which it is written.
// Kept: a buffer and a place in it: no heap. `HasRoom` stands in the contracts of five of the seven methods, for it speaks of what is about to be written.
#[derive(Drop)]
struct Page<'a> {
    out: &'a mut [u8],
    at: usize,
}

impl Page<'_> {
    // One byte.
    fn put(&mut self, byte: u8)
        requires { self.old.at < length self.old.out.now }
        ensures { Appends self.old (byte ∷ []) self.new }
    {
        self.out[self.at] = byte;
        self.at += 1;
    }

    // A space and a number.
    fn field(&mut self, n: usize)
        requires { HasRoom self.old (32 ∷ decimal n) }
        ensures { Appends self.old (32 ∷ decimal n) self.new }
    {
        self.put(b' ');
        self.at = decimal(self.out, self.at, n);
    }

    // A letter, two numbers and a line end.
    // Kept: the letter is the byte that is printed; an enum would need a match that gives it back.
    fn line(&mut self, letter: u8, a: usize, b: usize)
        requires { HasRoom self.old (line letter a b) }
        ensures { Appends self.old (line letter a b) self.new }
    {
        self.put(letter);
        self.field(a);
        self.field(b);
        self.put(b'\n');
    }

    // A line, but none for the byte 0.
    // Kept: a struct is no plainer: its five are what a line has, and nothing else in the crate has them together.
    fn line_for(&mut self, byte: u8, letter: u8, a: usize, b: usize)
        requires { HasRoom self.old (line_for byte letter a b) }
        ensures { Appends self.old (line_for byte letter a b) self.new }
    {
        if byte != 0 {
            self.line(letter, a, b);
        }
    }

    // `M machine byte` for each nonzero byte.
    fn machine_lines(&mut self, machines: &[u8])
        requires { HasRoom self.old (machine_lines machines.now 0 (length machines.now)) }
        ensures { Appends self.old (machine_lines machines.now 0 (length machines.now)) self.new }
    {
        for (k, &byte) in machines.iter().enumerate() {
            self.line_for(byte, b'M', k, byte as usize);
        }
    }

    // `L machine up` for each nonzero byte.
    fn uplink_lines(&mut self, up: &[u16], links: &[u8])
        requires sizes { length up.now ≡ length links.now }
        requires room { HasRoom self.old (uplink_lines up.now links.now 0 (length links.now)) }
        ensures { Appends self.old (uplink_lines up.now links.now 0 (length links.now)) self.new }
    {
        for (k, &byte) in links.iter().enumerate() {
            self.line_for(byte, b'L', k, up[k] as usize);
        }
    }

    // `T chokes links`: the two totals. Any line has at most 44 bytes.
    fn totals(&mut self, machines: &[u8], links: &[u8])
        requires { self.old.at + 44 ≤ length self.old.out.now }
        ensures { Appends self.old (line 84 (named machines.now) (named links.now)) self.new }
    {
        self.line(b'T', named(machines), named(links));
    }
}

// The text of a refusal over the front of a buffer of at least 64 bytes. Answers its length; else None, and the buffer is not touched.
pub fn refusal(answer: Answer, out: &mut [u8]) -> Option<usize>
    ensures { outcome result out.new ≡ refusal_written answer out.old }
{
    if out.len() < 64 {
        return None;
    }
    let mut page = Page { out, at: 0 };
    page.line(b'R', answer.code as usize, answer.value);
    Some(page.at)
}

// The text of a report over the front of a buffer with room for it. Answers its length; else None, and the buffer is not touched.
// Kept: `up`, `machines` and `links` are lent side by side, as `Site::report` is lent them (document 01).
pub fn report(up: &[u16], machines: &[u8], links: &[u8], out: &mut [u8]) -> Option<usize>
    ensures { outcome result out.new ≡ report_written up.now machines.now links.now out.old }
{
    if !fits(up.len(), machines.len(), links.len(), out.len()) {
        return None;
    }
    let mut page = Page { out, at: 0 };
    page.machine_lines(machines);
    page.uplink_lines(up, links);
    page.totals(machines, links);
    Some(page.at)
}
