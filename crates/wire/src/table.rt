// Tables of 32-bit numbers, at any place.
ghost use Rattle.std.specs.Prelude.{◌≡◌, get_or, set};

// The number at a place of a table; 0 past its end.
pub fn number_at(table: &[u32], at: usize) -> u32
    ensures { result ≡ get_or table.now at 0 }
{
    if at < table.len() { table[at] } else { 0 }
}

// Sets one number of a table; past its end nothing.
pub fn put(table: &mut [u32], at: usize, x: u32)
    ensures { table.new ≡ set table.old at x }
{
    if at < table.len() {
        table[at] = x;
    }
}
