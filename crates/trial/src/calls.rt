// What is done with a site, by letters: S, A and R call Start, Add and Report and print the answer, and T prints every table as it is then. A batch
// is a list after its A. W writes a site file: after it come the lists of links, lengths, report bytes and the buffer, which is printed
// as it is left. The end of a line is printed as well, and other bytes say nothing.
use crate::{print, read};
use site::Site;
use std::io;
use std::io::Read;

// A batch may have one link more than Add takes.
const ROOM: usize = 2 * Site::LINKS + 2;

// A list of what is to be written may be as long as a list can say.
const MOST_LIST: usize = 65535;

// A site may have so many letters.
const MOST_LETTERS: usize = 64;

// The slices of a site, as the text has them.
#[derive(Drop)]
pub struct Slices<'a> {
    pub up: &'a [u16],
    pub depth: &'a mut [u16],
    pub group: &'a mut [u16],
    pub mark: &'a mut [u8],
    pub machines: &'a mut [u8],
    pub links: &'a mut [u8],
}

// Kept: `out` and `from` side by side: a struct of both would need two type parameters, and has no fact of its own.
impl Slices<'_> {
    fn start(&mut self, out: &impl Print) -> io::Result<()> {
        let given = Site::start(self.up, self.depth, self.group, self.mark);
        print::answer(out, " start", given)
    }

    fn add(&mut self, out: &impl Print, from: &mut impl Read) -> io::Result<()> {
        let mut batch = [0u16; ROOM];
        let b = read::list(from, &mut batch)?;
        let given = Site::add(self.up, self.depth, self.group, self.mark, &batch[..b]);
        print::answer(out, " add", given)
    }

    fn report(&mut self, out: &impl Print) -> io::Result<()> {
        // Named first, since the prover does not cover shared loans of several `&mut` fields in one call.
        let (depth, group, mark) = (&mut *self.depth, &mut *self.group, &mut *self.mark);
        let given = Site::report(self.up, depth, group, mark, self.machines, self.links);
        print::answer(out, " report", given)
    }

    fn show(&self, out: &impl Print) -> io::Result<()> {
        print::table(out, "; depths", self.depth)?;
        print::table(out, "; groups", self.group)?;
        print::table(out, "; marks", self.mark)?;
        print::table(out, "; machines", self.machines)?;
        print::table(out, "; links", self.links)
    }

    // Kept: arrays as long as their lists may be, here and in `add`; here side by side, for `writer::write` is lent a slice each (document 02): fixed memory, no heap.
    fn write(&self, out: &impl Print, from: &mut impl Read) -> io::Result<()> {
        let mut links = [0u16; MOST_LIST];
        let mut lengths = [0u16; MOST_LIST];
        let mut reports = [0u8; MOST_LIST];
        let mut buffer = [0u8; MOST_LIST];
        let k = read::list(from, &mut links)?;
        let b = read::list(from, &mut lengths)?;
        let r = read::list(from, &mut reports)?;
        let m = read::list(from, &mut buffer)?;
        let buffer = &mut buffer[..m];
        let given = writer::write(self.up, &links[..k], &lengths[..b], &reports[..r], buffer);
        print::answer(out, " write", given)?;
        print::table(out, "; buffer", buffer)
    }

    // Kept: the letter is the byte that was read, and each names a call.
    fn one(&mut self, out: &impl Print, from: &mut impl Read, letter: u8) -> io::Result<()> {
        match letter {
            b'S' => self.start(out),
            b'A' => self.add(out, from),
            b'R' => self.report(out),
            b'T' => self.show(out),
            b'W' => self.write(out, from),
            b'\n' => print::text(out, b"\n"),
            _ => Ok(()),
        }
    }

    // Every letter up to the bracket.
    pub fn all(&mut self, out: &impl Print, from: &mut impl Read) -> io::Result<()> {
        for _ in 0..MOST_LETTERS {
            let letter = read::byte(from)?;
            if letter == b']' {
                break;
            }
            self.one(out, from, letter)?;
        }
        Ok(())
    }
}
