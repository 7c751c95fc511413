// Places of a request.
ghost use Rattle.std.specs.Prelude.{◌≡◌, ℕ, ◌+◌, min, length};

// The place after the byte at a place, and no further than the end.
pub(crate) fn place_after(request: &[u8], at: usize) -> usize
    ensures { result ≡ min (at + 1) (length request.now) }
{
    if at < request.len() {
        at + 1
    } else {
        request.len()
    }
}
