// What is printed for a site file, written to standard output: after each turn the first bytes of the text, as many as the turn told. The law `Printing`
// of the turns says of such a loop that it writes what is printed for the file.
#![tactic(auto)]

ghost use Rattle.std.specs.Prelude.{◌≤◌, length};

use site::Site;
use std::io;
use turns::{Desk, Turn};

// The first k bytes of a text. Most records have none, and without the test a stream of trees took half as long again.
// Kept: a function of its own: two places write, and the test is said once.
fn write_front(out: &impl Print, text: &[u8], k: usize) -> io::Result<()>
    requires { k ≤ length text.now }
{
    if k == 0 {
        return Ok(());
    }
    out.write_all(&text[..k])
}

// One site file over lent arrays. What they hold does not matter.
// Kept: no plainer as a `for`: there is no count, and the turns end where the file does (`Printing`).
// Kept: eight arrays, and `print_on` beside it: each is lent by itself, so that a caller who was lent them need not copy them (docs/LOOK-BACK.md).
pub fn print_file(
    out: &impl Print,
    file: &[u8],
    up: &mut [u16; Site::MACHINES],
    depth: &mut [u16; Site::MACHINES],
    group: &mut [u16; Site::MACHINES],
    mark: &mut [u8; Site::MACHINES],
    batch: &mut [u16; 2 * Site::LINKS],
    machines: &mut [u8; Site::MACHINES],
    links: &mut [u8; Site::MACHINES],
    text: &mut [u8; text::MOST_TEXT],
) -> io::Result<()> {
    let mut reader = turns::first();
    loop {
        match turns::take(
            file, reader, up, depth, group, mark, batch, machines, links, text,
        ) {
            Turn::More(next, k) => {
                write_front(out, text, k)?;
                reader = next;
            }
            Turn::Done(k) => return write_front(out, text, k),
            Turn::Unfit => return Ok(()),
        }
    }
}

// One site file over a lent desk. What the desk holds does not matter.
// Kept: `Desk::take` lends the same eight arrays, to another function: of a loan of eight at once the language has no value.
pub fn print_on(out: &impl Print, file: &[u8], desk: &mut Desk) -> io::Result<()> {
    print_file(
        out,
        file,
        &mut desk.room.up,
        &mut desk.room.depth,
        &mut desk.room.group,
        &mut desk.room.mark,
        &mut desk.room.batch,
        &mut desk.room.machines,
        &mut desk.room.links,
        &mut desk.text,
    )
}
