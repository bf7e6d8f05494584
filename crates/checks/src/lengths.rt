// How long the slices are: code 1 of up, 2 of the other slices, and 7 of a batch.
ghost use Rattle.std.specs.Prelude.{◌≡◌, ◌==◌, ◌+◌, ◌<◌, ◌^◌, not, length, position};
ghost use Rattle.tables.specs.Tree.{size_verdict};
ghost use Rattle.tables.specs.Tables.{sizes_verdict};
ghost use Rattle.tables.specs.Batch.{numbers_verdict};
ghost use Rattle.tables.specs.Outcome.{outputs_verdict};
ghost use Rattle.checks.specs.Fit.{fit_verdict};

use crate::{LINKS, MACHINES};
use tables::{Fault, Verdict};

// So many machines.
pub fn size(n: usize) -> Verdict
    ensures { result ≡ size_verdict n }
{
    if n == 0 || n > MACHINES {
        return Verdict::Refused(Fault::Size, n);
    }
    Verdict::Sound
}

// The first of these lengths that is not n.
fn first_off(n: usize, lengths: &[usize]) -> Option<usize>
    ensures { result ≡ position (λ len. not (len == n)) lengths.now }
{
    lengths.iter().position(|len| *len != n)
}

// Slices of these lengths, whose numbers go on from `first`, for n machines.
fn fit(n: usize, first: usize, lengths: &[usize]) -> Verdict
    requires { first + length lengths.now < 2 ^ 64 }
    ensures { result ≡ fit_verdict n first lengths.now }
{
    match first_off(n, lengths) {
        Some(k) => Verdict::Refused(Fault::Slice, first + k),
        None => Verdict::Sound,
    }
}

// So many machines, and tables of these lengths.
pub fn sizes(n: usize, depth: usize, group: usize, mark: usize) -> Verdict
    ensures { result ≡ sizes_verdict n depth group mark }
{
    let few = size(n);
    let Verdict::Sound = few else {
        return few;
    };
    fit(n, 1, &[depth, group, mark])
}

// The report's two outputs of these lengths.
pub fn outputs(n: usize, machines: usize, links: usize) -> Verdict
    ensures { result ≡ outputs_verdict n machines links }
{
    fit(n, 4, &[machines, links])
}

// A batch of so many numbers: two for each link, and not too many.
pub fn numbers(k: usize) -> Verdict
    ensures { result ≡ numbers_verdict k }
{
    if k % 2 != 0 || 2 * LINKS < k {
        return Verdict::Refused(Fault::Length, k);
    }
    Verdict::Sound
}
