// One record of each kind, over what it touches of the lent arrays.
ghost use Rattle.std.specs.Prelude.{◌≡◌, List, ℕ, ◌+◌, ◌≤◌, length};
ghost use Rattle.tables.specs.Outcome.{outcome};
ghost use Rattle.tables.specs.Tables.{tables_of};
ghost use Rattle.sitefile.specs.Next.{Room, room_of};
ghost use Rattle.sitefile.specs.Reading.{leads, start_front, StartDue, UplinkDue, LinkDue, CloseDue, ReportDue};

use crate::due::Due;
use crate::{Reader, Step, record};
use site::Site;
use tables::{Answer, Verdict};

// Kind 1: the number of machines.
pub fn size(file: &[u8], r: Reader) -> Step
    requires { r.place + 3 ≤ length file.now }
    ensures { (room : Room) → outcome result room ≡ leads file.now r Due.Size room }
{
    let body = record::body(file, r.place);
    let n = record::word(body, 0) as usize;
    let few = checks::size(n);
    let Verdict::Sound = few else {
        return Step::Refused(checks::answer(few, 0));
    };
    Step::Read(Reader {
        place: r.place + 3,
        n,
        ups: 0,
        opened: 0,
    })
}

// Start over the front parts of the tables.
// Kept: slices, here and for kinds 4 and 5: front parts alone are lent on. Tried as fields of one room, and of a room's array whose part is lent the prover knows no value afterwards.
fn start(up: &[u16], n: usize, depth: &mut [u16], group: &mut [u16], mark: &mut [u8]) -> Answer
    requires { StartDue n (length up.now) (length depth.old) (length group.old) (length mark.old) }
    ensures { outcome result (tables_of depth.new group.new mark.new)
        ≡ start_front n up.now (tables_of depth.old group.old mark.old) }
{
    Site::start(&up[..n], &mut depth[..n], &mut group[..n], &mut mark[..n])
}

// Kind 2: the up of the next machine. Start runs after the last; where it refuses, the entry is put back.
// Kept: slices by themselves, here and for the other kinds: `read::next` is lent its arrays one by one.
pub fn uplink(
    file: &[u8],
    r: Reader,
    up: &mut [u16],
    depth: &mut [u16],
    group: &mut [u16],
    mark: &mut [u8],
) -> Step
    requires { UplinkDue file.now r (length up.old) (length depth.old) (length group.old) (length mark.old) }
    ensures { (batch machines links : List ℕ) → outcome result (room_of up.new depth.new group.new mark.new batch machines links)
        ≡ leads file.now r Due.Uplink (room_of up.old depth.old group.old mark.old batch machines links) }
{
    let ups = r.ups;
    let old = up[ups];
    let body = record::body(file, r.place);
    up[ups] = record::word(body, 0);
    let next = Reader {
        place: r.place + 3,
        ups: ups + 1,
        opened: 0,
        ..r
    };
    if next.ups < r.n {
        return Step::Read(next);
    }
    let a = start(up, r.n, depth, group, mark);
    if a.code == 0 {
        return Step::Read(next);
    }
    up[ups] = old;
    Step::Refused(a)
}

// Kind 3: a link, kept until its batch is closed.
pub fn link(file: &[u8], r: Reader, batch: &mut [u16]) -> Step
    requires { LinkDue file.now r (length batch.old) }
    ensures { (up depth group mark machines links : List ℕ) → r.ups ≤ length up → outcome result (room_of up depth group mark batch.new machines links)
        ≡ leads file.now r Due.Link (room_of up depth group mark batch.old machines links) }
{
    let opened = r.opened;
    let most = checks::numbers(opened + 2);
    let Verdict::Sound = most else {
        return Step::Refused(checks::answer(most, 0));
    };
    let body = record::body(file, r.place);
    batch[opened] = record::word(body, 0);
    batch[opened + 1] = record::word(body, 1);
    Step::Read(Reader {
        place: r.place + 5,
        opened: opened + 2,
        ..r
    })
}

// Kind 4: the open links are added, over the front parts of the tables.
pub fn close(
    r: Reader,
    up: &[u16],
    depth: &mut [u16],
    group: &mut [u16],
    mark: &mut [u8],
    batch: &[u16],
) -> Step
    requires { CloseDue r (length up.now) (length depth.old) (length group.old) (length mark.old) (length batch.now) }
    ensures { (bytes machines links : List ℕ) → outcome result (room_of up.now depth.new group.new mark.new batch.now machines links)
        ≡ leads bytes r Due.Close (room_of up.now depth.old group.old mark.old batch.now machines links) }
{
    let n = r.n;
    let a = Site::add(
        &up[..n],
        &mut depth[..n],
        &mut group[..n],
        &mut mark[..n],
        &batch[..r.opened],
    );
    if a.code == 0 {
        return Step::Read(Reader {
            place: r.place + 1,
            opened: 0,
            ..r
        });
    }
    Step::Refused(a)
}

// Kind 5: a report, over the front parts of the tables and the outputs.
pub fn report(
    r: Reader,
    up: &[u16],
    depth: &[u16],
    group: &[u16],
    mark: &[u8],
    machines: &mut [u8],
    links: &mut [u8],
) -> Step
    requires { ReportDue r (length up.now) (length depth.now) (length group.now) (length mark.now) (length machines.old) (length links.old) }
    ensures { (bytes batch : List ℕ) → outcome result (room_of up.now depth.now group.now mark.now batch machines.new links.new)
        ≡ leads bytes r Due.Report (room_of up.now depth.now group.now mark.now batch machines.old links.old) }
{
    let n = r.n;
    let a = Site::report(
        &up[..n],
        &depth[..n],
        &group[..n],
        &mark[..n],
        &mut machines[..n],
        &mut links[..n],
    );
    if a.code == 0 {
        return Step::Report(Reader {
            place: r.place + 1,
            opened: 0,
            ..r
        });
    }
    Step::Refused(a)
}
