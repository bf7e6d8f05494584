// What a site file asks for next: its end, a refusal, or a record that is known, in place and whole.
ghost use Rattle.std.specs.Prelude.{◌≡◌};
ghost use Rattle.sitefile.specs.Record.{known};
ghost use Rattle.sitefile.specs.File.{grown, closed, in_place, asked, due_of};

use crate::{Reader, record};
use tables::{Answer, Fault};

// What the file asks for next.
// Kept: neither Option nor Result is plainer for seven ways, five of them with a function of its own.
#[derive(Clone, Copy)]
pub enum Due {
    // The file ends as it may.
    End,
    // A refusal.
    Stop(Answer),
    // A record of each kind, known, in place and whole.
    Size,
    Uplink,
    Link,
    Close,
    Report,
}

// Whether there is such a kind of record.
// Kept: a match on the kind byte with a range for the unknown kinds, here, in `in_place` and in `asked`, is document 01's form for a body's length, and `due_of` asks by the byte.
fn known(kind: u8) -> bool
    ensures { result ≡ known kind }
{
    match kind {
        1..=5 => true,
        0 | 6..=255 => false,
    }
}

// Whether every uplink is read.
fn grown(r: Reader) -> bool
    ensures { result ≡ grown r }
{
    r.n > 0 && r.ups == r.n
}

// Whether every uplink is read, and no links are open.
fn closed(r: Reader) -> bool
    ensures { result ≡ closed r }
{
    grown(r) && r.opened == 0
}

// Whether a record of this kind may stand here.
fn in_place(kind: u8, r: Reader) -> bool
    ensures { result ≡ in_place kind r }
{
    match kind {
        1 => r.n == 0,
        2 => r.ups < r.n,
        5 => closed(r),
        0 | 3 | 4 | 6..=255 => grown(r),
    }
}

// What a record of this kind asks for.
fn asked(kind: u8) -> Due
    ensures { result ≡ asked kind }
{
    match kind {
        1 => Due::Size,
        2 => Due::Uplink,
        3 => Due::Link,
        4 => Due::Close,
        0 | 5..=255 => Due::Report,
    }
}

// What the file asks for next: its end, a refusal, or a record to do.
pub fn look(file: &[u8], r: Reader) -> Due
    ensures { result ≡ due_of file.now r }
{
    let len = file.len();
    let place = r.place;
    if len <= place {
        if closed(r) {
            return Due::End;
        }
        return Due::Stop(checks::refusal(Fault::Cut, len));
    }
    let kind = file[place];
    if !known(kind) {
        return Due::Stop(checks::refusal(Fault::Unknown, place));
    }
    if !in_place(kind, r) {
        return Due::Stop(checks::refusal(Fault::Misplaced, place));
    }
    if len - place - 1 < record::body_len(kind) {
        return Due::Stop(checks::refusal(Fault::Cut, len));
    }
    asked(kind)
}
