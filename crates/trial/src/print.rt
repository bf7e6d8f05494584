// Texts, lists and answers, to standard output.
use std::fmt::Display;
use std::io;
use tables::Answer;

// A text as it stands.
pub fn text(out: &impl Print, bytes: &[u8]) -> io::Result<()> {
    out.write_all(bytes)
}

// A name, and the numbers of a table, with a space before the first and a comma before the others.
pub fn table<T: Display>(out: &impl Print, name: &str, values: &[T]) -> io::Result<()> {
    print!(out; "{name}")?;
    for (v, value) in values.iter().enumerate() {
        let before = if v == 0 { ' ' } else { ',' };
        print!(out; "{before}{value}")?;
    }
    Ok(())
}

// A call's name, its code and its value.
pub fn answer(out: &impl Print, call: &str, given: Answer) -> io::Result<()> {
    print!(out; "{call} {} {}", given.code, given.value)
}
