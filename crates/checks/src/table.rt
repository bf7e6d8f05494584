// Tables of machines, read by index.
ghost use Rattle.std.specs.Prelude.{◌≡◌};
ghost use Rattle.plain.specs.Table.{at};

// An entry of a table; 0 past its end.
// Kept: 0 in place of None is what the definition `at` says, over which the contracts of the calls are stated.
pub fn at(table: &[u16], i: usize) -> usize
    ensures { result ≡ at table.now i }
{
    table.get(i).copied().unwrap_or(0) as usize
}
