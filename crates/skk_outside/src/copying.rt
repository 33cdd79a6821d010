ghost use Rattle.std.specs.Prelude.{◌≡◌, length, take, min};

/// Copies as many bytes as there is room for, and answers how many.
pub fn copy_what_fits(from: &[u8], into: &mut [u8]) -> usize
    ensures count { result ≡ min (length into.old) (length from.now) }
    ensures room { length into.new ≡ length into.old }
    ensures bytes { take result into.new ≡ take result from.now }
{
    let n = from.len().min(into.len());
    into[..n].copy_from_slice(&from[..n]);
    n
}
