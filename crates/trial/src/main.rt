// Runs the calls on the sites of a text, and prints what came. The text is on standard input: a site stands in brackets, and what is outside
// them is printed as it is.
#![tactic(auto)]

mod calls;
mod print;
mod read;

use calls::Slices;
use site::Site;
use std::io;
use std::io::Read;

// The slices of a site may have one machine more than a site.
const ROOM: usize = Site::MACHINES + 1;

// The text may have so many bytes outside brackets.
const MOST_BYTES: usize = 65536;

// What follows a bracket: the lists of up, depth, group, mark, machine bytes and link bytes, and then the letters of what is done.
// Kept: the six arrays stand side by side, since the calls of `Site` take a lent slice each (document 01), and memory is fixed.
fn site(out: &impl Print, from: &mut impl Read) -> io::Result<()> {
    let mut up = [0u16; ROOM];
    let mut depth = [0u16; ROOM];
    let mut group = [0u16; ROOM];
    let mut mark = [0u8; ROOM];
    let mut machines = [0u8; ROOM];
    let mut links = [0u8; ROOM];
    let u = read::list(from, &mut up)?;
    let d = read::list(from, &mut depth)?;
    let g = read::list(from, &mut group)?;
    let m = read::list(from, &mut mark)?;
    let o = read::list(from, &mut machines)?;
    let l = read::list(from, &mut links)?;
    let mut slices = Slices {
        up: &up[..u],
        depth: &mut depth[..d],
        group: &mut group[..g],
        mark: &mut mark[..m],
        machines: &mut machines[..o],
        links: &mut links[..l],
    };
    slices.all(out, from)
}

// A byte outside brackets, or a whole site.
fn item(out: &impl Print, from: &mut impl Read, byte: u8) -> io::Result<()> {
    match byte {
        b'[' => site(out, from),
        _ => print::text(out, &[byte]),
    }
}

fn main(rt: HostRuntime) -> io::Result<()> {
    let mut from = rt.reader();
    for _ in 0..MOST_BYTES {
        let byte = read::byte(&mut from)?;
        if byte == 0 {
            break;
        }
        item(&rt, &mut from, byte)?;
    }
    Ok(())
}
