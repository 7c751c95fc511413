// Writing bytes of a buffer.
ghost use Rattle.std.specs.Prelude.{◌≡◌, ◌+◌, ◌<◌, ◌≤◌, length, drop, eqb};
ghost use Rattle.wire.specs.Lists.{all_of};
ghost use Rattle.wire.specs.Words.{word_bytes};
ghost use Rattle.store.specs.Internal.Changes.{over, cleared, moved, closed};

// Sets the bytes from a place on to zero.
// One call of std, under the equation that contracts cite.
pub(crate) fn clear(b: &mut [u8], from: usize)
    requires { from ≤ length b.old }
    ensures { b.new ≡ cleared b.old from }
{
    b[from..].fill(0);
}

// Whether all bytes from a place on are zero.
pub(crate) fn is_clear(b: &[u8], from: usize) -> bool
    ensures { result ≡ all_of (λ x. eqb x 0) (drop from b.now) }
{
    b.iter().skip(from).all(|x| *x == 0)
}

// Sets a word, least byte first.
pub(crate) fn put_word(b: &mut [u8], at: usize, n: u32)
    requires { (at + 2 ≤ length b.old) × (n < 65536) }
    ensures { b.new ≡ over b.old at (word_bytes n) }
{
    b[at] = (n % 256) as u8;
    b[at + 1] = (n / 256) as u8;
}

// Kept, like `move_down`: std's copy_from_slice calls memmove of the C library, and the archive calls memcpy and memset alone.
// Copies bytes into a buffer from a place on.
pub(crate) fn copy(b: &mut [u8], at: usize, x: &[u8])
    requires { at + length x.now ≤ length b.old }
    ensures { b.new ≡ over b.old at x.now }
{
    let mut i: usize = 0;
    while i < x.len() {
        b[at + i] = x[i];
        i += 1;
    }
}

// Moves the bytes that stand n after a place, up to the end, to that place. The last n bytes stay.
fn move_down(b: &mut [u8], at: usize, n: usize)
    requires { at + n ≤ length b.old }
    ensures { b.new ≡ moved b.old at n }
{
    let rest = b.len() - n - at;
    let mut i: usize = 0;
    while i < rest {
        b[at + i] = b[at + n + i];
        i += 1;
    }
}

// Takes n bytes out at a place: what follows is moved there, and the bytes freed at the end are zeros.
pub(crate) fn close_gap(b: &mut [u8], at: usize, n: usize)
    requires { at + n ≤ length b.old }
    ensures { b.new ≡ closed b.old at n }
{
    move_down(b, at, n);
    let end = b.len() - n;
    clear(b, end);
}
