// labels: many site files in one run, each preceded by its length in 16 bits, each answered as chokes would and then by a line with a dot.
#![tactic(auto)]

ghost use Rattle.std.specs.Prelude.{◌≡◌, length};

use std::io;
use std::io::Read;
use turns::Desk;

// A stream may have so many files.
const MOST_FILES: usize = 4294967296;

// A file's length is at most so many bytes: it is told in 16 bits.
const MOST_LENGTH: usize = 65535;

// Reads the next file of the stream into the front of `file`, and answers that front; None where the stream ends.
fn read_next<'a>(from: &mut impl Read, file: &'a mut [u8]) -> io::Result<Option<&'a [u8]>>
    requires { length file.old ≡ MOST_LENGTH }
{
    // Kept: a stream is read into a buffer: no heap.
    let mut head = [0u8; 2];
    if intake::read_full(from, &mut head)? < 2 {
        return Ok(None);
    }
    let front = &mut file[..u16::from_le_bytes(head) as usize];
    if intake::read_full(from, front)? < front.len() {
        return Ok(None);
    }
    Ok(Some(front))
}

// Every file of the stream.
fn answer_all(
    out: &impl Print,
    from: &mut impl Read,
    file: &mut [u8],
    desk: &mut Desk,
) -> io::Result<()>
    requires { length file.old ≡ MOST_LENGTH }
{
    for _ in 0..MOST_FILES {
        let Some(front) = read_next(from, file)? else {
            return Ok(());
        };
        printer::print_on(out, front, desk)?;
        out.write_all(b".\n")?;
    }
    Ok(())
}

// Kept: a buffer for any length that can be told, of which the front is used: no heap (docs/DECISIONS.md).
fn main(rt: HostRuntime) -> io::Result<()> {
    let mut file = [0u8; MOST_LENGTH];
    let mut desk = Desk::new();
    answer_all(&rt, &mut rt.reader(), &mut file, &mut desk)
}
