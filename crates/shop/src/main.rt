// shop: a site of four machines, one link, and how many chokes are left.
#![tactic(auto)]

use site::Site;
use std::io;

// The calls are lent a slice each, so the arrays stand side by side.
fn main(rt: HostRuntime) -> io::Result<()> {
    let up = [0u16, 0, 1, 1];
    let mut depth = [0u16; 4];
    let mut group = [0u16; 4];
    let mut mark = [0u8; 4];
    let mut machines = [0u8; 4];
    let mut links = [0u8; 4];
    Site::start(&up, &mut depth, &mut group, &mut mark);
    Site::add(&up, &mut depth, &mut group, &mut mark, &[0, 2]);
    let given = Site::report(&up, &depth, &group, &mark, &mut machines, &mut links);
    println!(rt; "{}", given.value)
}
