ghost use Rattle.std.specs.Prelude.{◌≡◌, ◌≤◌, length};
ghost use Rattle.journal.specs.Common.{common};

/// How many bytes both texts have in common before the first that differs.
pub(crate) fn common(text: &[u8], other: &[u8]) -> usize
    ensures same { result ≡ common text.now other.now }
    ensures within { (result ≤ length text.now) × (result ≤ length other.now) }
{
    let shorter = text.len().min(other.len());
    for n in 0..shorter {
        if text[n] != other[n] {
            return n;
        }
    }
    shorter
}
