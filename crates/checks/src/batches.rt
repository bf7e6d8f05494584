// The links of a batch are checked before any is used.
ghost use Rattle.std.specs.Prelude.{◌≡◌, [], ◌∷◌};
ghost use Rattle.tables.specs.Batch.{pairs, ends_verdict};

use tables::{Fault, Verdict};

// Link i joins a and b: both are machines, and differ.
fn link(n: usize, i: usize, a: usize, b: usize) -> Verdict
    ensures { result ≡ ends_verdict n i ((a, b) ∷ []) }
{
    if n <= a || n <= b {
        return Verdict::Refused(Fault::End, i);
    }
    if a == b {
        return Verdict::Refused(Fault::Loop, i);
    }
    Verdict::Sound
}

// Every link in turn, up to the first that is refused.
pub fn ends(n: usize, batch: &[u16]) -> Verdict
    ensures { result ≡ ends_verdict n 0 (pairs batch.now) }
{
    for i in 0..batch.len() / 2 {
        let e = link(n, i, batch[2 * i] as usize, batch[2 * i + 1] as usize);
        let Verdict::Sound = e else {
            return e;
        };
    }
    Verdict::Sound
}
