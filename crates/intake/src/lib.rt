// What is read from a stream: bytes up to a length, or up to its end.
#![tactic(auto)]

ghost use Rattle.std.specs.Prelude.{◌≡◌, ℕ, ◌<◌, ◌≤◌, length, take, IfOk, OnErr};
ghost use Rattle.std.specs.Io.KnownBytes.{Consumes, IsAtEnd};

use std::io;
use std::io::Read;

// Reads until `to` is full or the stream ends, and answers how many bytes it put at the front of `to`. Where a read fails, what was read before stands
// there, and nothing that was read is lost.
pub fn read_full<R: Read>(from: &mut R, to: &mut [u8]) -> io::Result<usize>
    ensures front { IfOk result (λ n. n ≤ length to.new) }
    ensures size { length to.new ≡ length to.old }
    ensures bytes { IfOk result (λ n. Consumes (R.remaining from.old) (R.remaining from.new) (take n to.new)) }
    ensures end { IfOk result (λ n. n < length to.new → IsAtEnd (R.remaining from.new)) }
    ensures kept { OnErr result ((n : ℕ) × (n ≤ length to.new) × Consumes (R.remaining from.old) (R.remaining from.new) (take n to.new)) }
{
    let mut done = 0;
    // Kept: `read_exact` doesn't tell how far it came where the stream ends early, and `read_to_end` needs a heap (a rule: fixed memory).
    while done < to.len() {
        let n = from.read(&mut to[done..])?;
        if n == 0 {
            return Ok(done);
        }
        done += n;
    }
    Ok(done)
}
