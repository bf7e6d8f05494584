// The definitions and theorems of a site's tables. Why something is refused, what a check says and what a call answers are types that the
// definitions and the code share; there is no function here.
#![tactic(auto)]

// Why something is refused, with its code: 1 to 9 by the calls of a site, 10 to 13 by the site file, 14 and 27 by its writer.
#[derive(Clone, Copy)]
pub enum Fault {
    // There is no machine, or there are too many.
    Size = 1,
    // Another slice is not as long as up.
    Slice = 2,
    // An up entry is no machine.
    Entry = 3,
    // There is not exactly one hub.
    Hubs = 4,
    // A machine never reaches the hub.
    Stray = 5,
    // A machine breaks a rule: no history leaves these tables.
    Rule = 6,
    // A batch has an odd length, or is too long.
    Length = 7,
    // A link's end is no machine.
    End = 8,
    // A link joins a machine to itself.
    Loop = 9,
    // The file ends inside a record, before the last uplink, or with links not closed.
    Cut = 10,
    // There is no such kind of record.
    Unknown = 11,
    // A record of a known kind is out of place.
    Misplaced = 12,
    // The file is too long.
    Long = 13,
    // The buffer is shorter than the file.
    Short = 14,
    // The batches' lengths don't go with the reports, or don't add up to the numbers lent.
    Parts = 27,
}

// What a check says: all is well, or why it is refused, and where.
// Kept: document 01 names this form ("inner checks answer an enum, sound or refused with place"), and the definitions of the checks are of this type.
#[derive(Clone, Copy)]
pub enum Verdict {
    Sound,
    Refused(Fault, usize),
}

// What a call answers: its code, and the value that goes with it.
// Kept: document 01 names this form ("each call answers with a code and a value"), 0 for done.
#[derive(Clone, Copy)]
pub struct Answer {
    pub code: u16,
    pub value: usize,
}
