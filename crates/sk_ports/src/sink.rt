ghost use Rattle.std.specs.Prelude.{◌≡◌, ℕ, ◌≤◌, ◌<◌, List, length, Option, OnOk, OnErr, IfOk};
ghost use Rattle.sk_ports.specs.Causes.{HasCause};
ghost use Rattle.sk_ports.specs.Pieces.{appended, taken, WrotePrefix};

use crate::fault::Failed;

/// Where bytes are written.
pub trait Sink {
    /// The bytes that it has got, where it tells them.
    ghost written: { Self → Option (List ℕ) };

    /// How often it failed.
    ghost faults: { Self → ℕ };

    /// Writes some first bytes of a piece, and answers how many; a write that takes nothing is a failure.
    fn write(&mut self, piece: &[u8]) -> Result<usize, Failed>
        requires { 0 < length piece.now }
        ensures some { IfOk result (λ n. (0 < n) × (n ≤ length piece.now)) }
        ensures bytes { written self.new ≡ appended (written self.old) (taken result piece.now) }
        ensures cause { HasCause (faults self.old) (faults self.new) result };
}

/// Writes all the bytes, or a prefix of them where the sink failed.
pub fn write_all<S: Sink>(sink: &mut S, bytes: &[u8]) -> Result<(), Failed>
    ensures ok { OnOk result (S.written sink.new ≡ appended (S.written sink.old) bytes.now) }
    ensures err { OnErr result (WrotePrefix (S.written sink.old) (S.written sink.new) bytes.now) }
    ensures cause { HasCause (S.faults sink.old) (S.faults sink.new) result }
{
    let mut done = 0;
    while done < bytes.len() {
        done += sink.write(&bytes[done..])?;
    }
    Ok(())
}
