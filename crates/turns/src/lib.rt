// One turn of the program: the next record of a site file, and what it prints laid over the front of a lent buffer. A loop that writes, after each
// turn, as many bytes of the buffer as the turn told writes what is printed for the file: `Printing` of specs/Turn.antt.
#![tactic(auto)]

ghost use Rattle.std.specs.Prelude.{◌≡◌, List, ℕ, ◌≤◌};
ghost use Rattle.tables.specs.Tree.{most_machines};
ghost use Rattle.tables.specs.Outcome.{outcome};
ghost use Rattle.text.specs.Text.{refusal_text};
ghost use Rattle.sitefile.specs.File.{begin, reader_of};
ghost use Rattle.sitefile.specs.Next.{Room as Slices, room_of};
ghost use Rattle.turns.specs.Turn.{as_desk, bare, desk, last, more, shown, told_by, turn_of};
ghost use Rattle.turns.specs.Telling.{TellDue};

use site::Site;
use sitefile::{Reader, Room, Step, read};
use tables::{Answer, Fault};

// A site file has at most so many bytes.
pub const MOST_BYTES: usize = 16384;

// What a turn is lent: what the file is read into, and the buffer of the text, with room for any report and any refusal.
// Kept: an array beside the room's: fixed memory, no heap.
#[derive(Drop)]
pub struct Desk {
    pub room: Room,
    pub text: [u8; text::MOST_TEXT],
}

impl Desk {
    // A desk with nothing on it. One serves file after file: a turn fills what it reads.
    pub fn new() -> Desk
        ensures { result ≡ bare }
    {
        Desk {
            room: Room::new(),
            text: [0; text::MOST_TEXT],
        }
    }

    // Takes the next record of a site file, and lays what it prints over the front of the desk's text.
    // Kept: `printer::print_on` lends the same eight arrays, to another function: of a loan of eight at once the language has no value.
    pub fn take(&mut self, file: &[u8], r: Reader) -> Turn
        ensures { outcome result (as_desk self.new) ≡ turn_of file.now r (as_desk self.old) }
    {
        take(
            file,
            r,
            &mut self.room.up,
            &mut self.room.depth,
            &mut self.room.group,
            &mut self.room.mark,
            &mut self.room.batch,
            &mut self.room.machines,
            &mut self.room.links,
            &mut self.text,
        )
    }
}

// What a turn comes to.
// Kept: neither Option nor Result is plainer, since two of the three ways come with a text, and only one of them goes on.
#[derive(Clone, Copy)]
pub enum Turn {
    // So many bytes of text, and there is more, from this reader on.
    More(Reader, usize),
    // So many bytes of text, and the file is done.
    Done(usize),
    // The reader is none that a file leads to.
    Unfit,
}

// The reader of the first turn.
pub fn first() -> Reader
    ensures { result ≡ reader_of begin }
{
    Reader {
        place: 0,
        n: 0,
        ups: 0,
        opened: 0,
    }
}

// The text of the report that stands in the outputs.
// Kept: arrays by themselves, here and in `tell`, as `take` is lent them; their types say how long they are.
fn show(
    next: Reader,
    up: &[u16; Site::MACHINES],
    machines: &[u8; Site::MACHINES],
    links: &[u8; Site::MACHINES],
    text: &mut [u8; text::MOST_TEXT],
) -> Turn
    requires { next.n ≤ most_machines }
    ensures { (depth group mark batch : List ℕ)
        → outcome result (desk (room_of up.now depth group mark batch machines.now links.now) text.new)
        ≡ more (shown next (room_of up.now depth group mark batch machines.now links.now)) next (room_of up.now depth group mark batch machines.now links.now) text.old }
{
    let n = next.n;
    let k = text::report(&up[..n], &machines[..n], &links[..n], text).unwrap();
    Turn::More(next, k)
}

// The text of a refusal, which is the last.
fn refuse(refusal: Answer, text: &mut [u8; text::MOST_TEXT]) -> Turn
    ensures { (room : Slices) → outcome result (desk room text.new) ≡ last (refusal_text refusal) room text.old }
{
    Turn::Done(text::refusal(refusal, text).unwrap())
}

// What the next record came to, with its text.
fn tell(
    step: Step,
    up: &[u16; Site::MACHINES],
    machines: &[u8; Site::MACHINES],
    links: &[u8; Site::MACHINES],
    text: &mut [u8; text::MOST_TEXT],
) -> Turn
    requires { TellDue step }
    ensures { (depth group mark batch : List ℕ)
        → outcome result (desk (room_of up.now depth group mark batch machines.now links.now) text.new)
        ≡ told_by step (room_of up.now depth group mark batch machines.now links.now) text.old }
{
    match step {
        Step::Read(next) => Turn::More(next, 0),
        Step::Report(next) => show(next, up, machines, links, text),
        Step::End => Turn::Done(0),
        Step::Refused(refusal) => refuse(refusal, text),
        Step::Unfit => Turn::Unfit,
    }
}

// Takes the next record of a site file, and lays what it prints over the front of the text.
// Kept: eight arrays, and `Desk::take` beside it: each is lent by itself, so that a caller who was lent them need not copy them (docs/LOOK-BACK.md).
pub fn take(
    file: &[u8],
    r: Reader,
    up: &mut [u16; Site::MACHINES],
    depth: &mut [u16; Site::MACHINES],
    group: &mut [u16; Site::MACHINES],
    mark: &mut [u8; Site::MACHINES],
    batch: &mut [u16; 2 * Site::LINKS],
    machines: &mut [u8; Site::MACHINES],
    links: &mut [u8; Site::MACHINES],
    text: &mut [u8; text::MOST_TEXT],
) -> Turn
    ensures { outcome result (desk (room_of up.new depth.new group.new mark.new batch.new machines.new links.new) text.new)
        ≡ turn_of file.now r (desk (room_of up.old depth.old group.old mark.old batch.old machines.old links.old) text.old) }
{
    if MOST_BYTES < file.len() {
        return refuse(checks::refusal(Fault::Long, MOST_BYTES), text);
    }
    let step = read::next(file, r, up, depth, group, mark, batch, machines, links);
    tell(step, up, machines, links, text)
}
