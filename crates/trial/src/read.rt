// Bytes, numbers and lists, from a stream.
ghost use Rattle.std.specs.Prelude.{◌≡◌, ◌≤◌, length, take, IfOk};

use std::io;
use std::io::Read;

// What a list holds, made of a number of the text.
// Kept: a trait and no `From`, for a byte cuts its number off.
pub trait Cell: Copy {
    fn of(value: u16) -> Self;
}

impl Cell for u16 {
    fn of(value: u16) -> u16 {
        value
    }
}

// A byte is the low half.
impl Cell for u8 {
    fn of(value: u16) -> u8 {
        let [low, _] = value.to_le_bytes();
        low
    }
}

// A number, and the last byte that was read for it.
// Kept: an Option or an enum is no plainer: neither is a flag for the other, and both are always there.
#[derive(Clone, Copy)]
struct Entry {
    value: u16,
    end: u8,
}

// The next byte; 0 where the input has ended.
// Kept: an Option is no plainer, for a zero byte ends a text too: main would have to name both, and the letters of a site would pass over both.
pub fn byte(from: &mut impl Read) -> io::Result<u8> {
    // Kept: a stream is read into a buffer: no heap.
    let mut one = [0u8; 1];
    from.read(&mut one)?;
    Ok(one[0])
}

// A number of at most five digits, as 16 bits have it; a greater one is the greatest.
fn number(from: &mut impl Read) -> io::Result<Entry> {
    let mut value: u32 = 0;
    let mut end = 0;
    for _ in 0..6 {
        end = byte(from)?;
        let digit = end.wrapping_sub(b'0');
        if digit > 9 {
            break;
        }
        value = value % 10000 * 10 + digit as u32;
    }
    Ok(Entry {
        value: u16::try_from(value).unwrap_or(u16::MAX),
        end,
    })
}

// What follows in a list: after a comma a number of the text, after a plus one more, and else the same again.
fn next(from: &mut impl Read, last: Entry) -> io::Result<Entry> {
    match last.end {
        b',' => number(from),
        b'+' => Ok(Entry {
            value: last.value.wrapping_add(1),
            end: last.end,
        }),
        _ => Ok(last),
    }
}

// The length of a list.
// Kept: 0 is neither for None nor a lesser number: a list with no room is empty.
fn length(from: &mut impl Read, room: usize) -> io::Result<usize>
    ensures { IfOk result (λ n. n ≤ room) }
{
    let n = number(from)?.value as usize;
    Ok(if n > room { 0 } else { n })
}

// A list into the front of `to`, and how long it is: its length, a colon, numbers with commas between, and a space. The last number stands for the rest of
// the length, and with a plus for the space they count on: `4:0,5 ` is 0,5,5,5 and `4:0,5+` is 0,5,6,7. An empty list is `0 `.
// Kept: a length and no front of `to`: of a slice whose part is handed back in a `Result` no clause can say that it keeps its length where a read fails.
pub fn list<T: Cell>(from: &mut impl Read, to: &mut [T]) -> io::Result<usize>
    ensures front { IfOk result (λ n. (n ≤ length to.new) × (n ≡ length (take n to.new))) }
    ensures size { length to.new ≡ length to.old }
{
    let n = length(from, to.len())?;
    let mut last = Entry {
        value: 0,
        end: b',',
    };
    for place in to[..n].iter_mut() {
        last = next(from, last)?;
        *place = T::of(last.value);
    }
    Ok(n)
}
