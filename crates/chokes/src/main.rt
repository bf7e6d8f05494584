// chokes: a site file on standard input, its chokes on standard output.
#![tactic(auto)]

use std::io;
use turns::Desk;

// Kept: a buffer for a byte more than a file may have, of which the front is used: no heap (docs/DECISIONS.md).
fn main(rt: HostRuntime) -> io::Result<()> {
    let mut file = [0u8; turns::MOST_BYTES + 1];
    let mut desk = Desk::new();
    let k = intake::read_full(&mut rt.reader(), &mut file)?;
    printer::print_on(&rt, &file[..k], &mut desk)
}
