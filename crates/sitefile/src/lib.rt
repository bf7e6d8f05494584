// The site file: its records, and what they do to a site.
#![tactic(auto)]

ghost use Rattle.std.specs.Prelude.{◌≡◌};
ghost use Rattle.tables.specs.Outcome.{outcome};
ghost use Rattle.sitefile.specs.Next.{as_room, empty, next_of};

mod due;
mod kinds;
pub mod read;
pub mod record;

use site::Site;
use tables::Answer;

// How far a site file is read: the place of the next record, the number of machines (0 before kind 1), how many uplinks are read, and how
// many numbers of links that are not closed.
// Kept: the 0 of `n` is what `begin` and `reader_of` of specs/File.antt say, and no site has 0 machines; `opened` is a count into the array `batch`: no heap.
#[derive(Clone, Copy)]
pub struct Reader {
    pub place: usize,
    pub n: usize,
    pub ups: usize,
    pub opened: usize,
}

// What the next record comes to.
// Kept: neither Option nor Result is plainer: two of the five ways go on with a reader, and the other three end differently.
#[derive(Clone, Copy)]
pub enum Step {
    // It is read, and there is more.
    Read(Reader),
    // A report stands in the outputs.
    Report(Reader),
    // The file ends as it may.
    End,
    // A refusal.
    Refused(Answer),
    // The reader is none that a file leads to.
    Unfit,
}

// What a file is read into: the tree and its tables, the numbers of the open links, and the bytes of a report. There is room for any site.
// Kept: arrays side by side, each for the most that a site may have: fixed memory, no heap.
#[derive(Drop)]
pub struct Room {
    pub up: [u16; Site::MACHINES],
    pub depth: [u16; Site::MACHINES],
    pub group: [u16; Site::MACHINES],
    pub mark: [u8; Site::MACHINES],
    pub batch: [u16; 2 * Site::LINKS],
    pub machines: [u8; Site::MACHINES],
    pub links: [u8; Site::MACHINES],
}

impl Room {
    // A room with nothing in it. The first record that needs an array fills what it reads, so one room serves file after file.
    pub fn new() -> Room
        ensures { result ≡ empty }
    {
        Room {
            up: [0; Site::MACHINES],
            depth: [0; Site::MACHINES],
            group: [0; Site::MACHINES],
            mark: [0; Site::MACHINES],
            batch: [0; 2 * Site::LINKS],
            machines: [0; Site::MACHINES],
            links: [0; Site::MACHINES],
        }
    }

    // Reads the next record of a site file into the room. A refusal and the end leave it as it came.
    pub fn next(&mut self, file: &[u8], r: Reader) -> Step
        ensures { outcome result (as_room self.new) ≡ next_of file.now r (as_room self.old) }
    {
        read::next(
            file,
            r,
            &mut self.up,
            &mut self.depth,
            &mut self.group,
            &mut self.mark,
            &mut self.batch,
            &mut self.machines,
            &mut self.links,
        )
    }
}
