// Tables of machines, read by index.
ghost use Rattle.std.specs.Prelude.{◌≡◌, ◌<◌, ◌%◌, length};
ghost use Rattle.plain.specs.Table.{at, tabulate};

// How many numbers an entry can hold.
const NUMBERS: usize = 65536;

// An entry of a table.
// Kept: no plainer in one: `checks::at` is public and total, so it tests; here `requires` says that i is in the table, and nothing is left to test.
pub fn at(table: &[u16], i: usize) -> usize
    requires { i < length table.now }
    ensures { result ≡ at table.now i }
{
    table[i] as usize
}

// Each machine by itself: its entry is its own number.
pub fn alone(table: &mut [u16])
    ensures { table.new ≡ tabulate (length table.old) (λ v. v % 65536) }
{
    for v in 0..table.len() {
        table[v] = (v % NUMBERS) as u16;
    }
}
