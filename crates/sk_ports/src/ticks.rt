ghost use Rattle.std.specs.Prelude.{◌≡◌, ℕ, ◌-◌, ◌<◌, IsTrue, ◌↔◌};

/// Where the clock's ticks come from.
pub trait TickSource {
    /// How many are left.
    ghost left: { Self → ℕ };

    /// Whether a tick is left.
    fn more(&self) -> bool
        ensures { IsTrue result ↔ (0 < left self.now) };

    /// Takes a tick, where one is left.
    fn take(&mut self) -> bool
        ensures took { IsTrue result ↔ (0 < left self.old) }
        ensures left { left self.new ≡ left self.old - 1 };
}

/// Ticks that are handed in as a number.
#[derive(Clone, Copy, Debug, PartialEq, Eq)]
pub struct MemoryTicks {
    pub left: u64,
}

impl TickSource for MemoryTicks {
    ghost left = { λ t. t.left };

    fn more(&self) -> bool {
        self.left > 0
    }

    fn take(&mut self) -> bool {
        if self.left == 0 {
            return false;
        }
        self.left -= 1;
        true
    }
}
