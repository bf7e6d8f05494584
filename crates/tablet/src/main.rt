// tablet: the site file of the shop on standard output. A refusal goes to standard error, as `chokes` prints it.
#![tactic(auto)]

use std::io;

// The shop: one batch with the link of 0 and 2, and a report after it.
fn main(rt: HostRuntime) -> io::Result<()> {
    // The file is laid into a buffer, and its length comes beside it: no heap.
    let mut buffer = [0u8; turns::MOST_BYTES];
    let given = writer::write(&[0, 0, 1, 1], &[0, 2], &[2], &[1], &mut buffer);
    if given.code == 0 {
        rt.write_all(&buffer[..given.value])
    } else {
        eprintln!(rt; "R {} {}", given.code, given.value)
    }
}
