// The records of a site file: a byte of kind, then a body whose length the kind fixes.
ghost use Rattle.std.specs.Prelude.{◌≡◌};
ghost use Rattle.plain.specs.Table.{at};
ghost use Rattle.sitefile.specs.Record.{body_length, body_of, word};

// How many bytes the body of this kind has. An unknown kind has no body.
// Kept: a match on the kind byte with a range for the unknown kinds is document 01's form.
#[tactic(auto, unfolding(crate::specs::Record::body_length))]
pub fn body_len(kind: u8) -> usize
    ensures { result ≡ body_length kind }
{
    match kind {
        1 | 2 => 2,
        3 => 4,
        4 | 5 => 0,
        0 | 6..=255 => 0,
    }
}

// The body of the record at this place: that part of the file itself. It is empty where the record is not whole.
pub fn body(file: &[u8], place: usize) -> &[u8]
    ensures { result.now ≡ body_of file.now place }
{
    if place >= file.len() {
        return &file[0..0];
    }
    let start = place + 1;
    let len = body_len(file[place]);
    if len <= file.len() - start {
        &file[start..start + len]
    } else {
        &file[start..start]
    }
}

// A byte of a body, 0 past its end.
// Kept: 0 in place of None is what the definition `word` says. `checks::at` is this over 16-bit numbers, one line of the library's: a generic one would be no shorter than its calls.
fn byte(body: &[u8], i: usize) -> u8
    ensures { result ≡ at body.now i }
{
    body.get(i).copied().unwrap_or(0)
}

// Number i of a body, the low byte first; what is past the end counts as 0. A place past the half is not doubled: it might not fit.
pub fn word(body: &[u8], i: usize) -> u16
    ensures { result ≡ word body.now i }
{
    if body.len() / 2 < i {
        return 0;
    }
    u16::from_le_bytes([byte(body, 2 * i), byte(body, 2 * i + 1)])
}
