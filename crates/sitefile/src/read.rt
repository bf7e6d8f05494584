// The reader of the site file: one record at a time, over lent arrays.
ghost use Rattle.std.specs.Prelude.{◌≡◌};
ghost use Rattle.tables.specs.Outcome.{outcome};
ghost use Rattle.sitefile.specs.Next.{counts_fit, next_of, room_of};

use crate::due::Due;
use crate::{Reader, Step, due, kinds};
use site::Site;

// Whether a reader counts no more than the arrays hold, and whole links: every reader that a file leads to does.
fn counts_fit(r: Reader) -> bool
    ensures { result ≡ counts_fit r }
{
    r.n <= Site::MACHINES && r.ups <= r.n && r.opened <= 2 * Site::LINKS && r.opened % 2 == 0
}

// Reads the next record of a site file. A refusal and the end leave every array as it came.
// Kept: seven arrays, and `Room::next` beside it: each is lent by itself, so that a caller who was lent them need not copy them (docs/LOOK-BACK.md).
pub fn next(
    file: &[u8],
    r: Reader,
    up: &mut [u16; Site::MACHINES],
    depth: &mut [u16; Site::MACHINES],
    group: &mut [u16; Site::MACHINES],
    mark: &mut [u8; Site::MACHINES],
    batch: &mut [u16; 2 * Site::LINKS],
    machines: &mut [u8; Site::MACHINES],
    links: &mut [u8; Site::MACHINES],
) -> Step
    ensures { outcome result (room_of up.new depth.new group.new mark.new batch.new machines.new links.new)
        ≡ next_of file.now r (room_of up.old depth.old group.old mark.old batch.old machines.old links.old) }
{
    if !counts_fit(r) {
        return Step::Unfit;
    }
    match due::look(file, r) {
        Due::End => Step::End,
        Due::Stop(refusal) => Step::Refused(refusal),
        Due::Size => kinds::size(file, r),
        Due::Uplink => kinds::uplink(file, r, up, depth, group, mark),
        Due::Link => kinds::link(file, r, batch),
        Due::Close => kinds::close(r, up, depth, group, mark, batch),
        Due::Report => kinds::report(r, up, depth, group, mark, machines, links),
    }
}
