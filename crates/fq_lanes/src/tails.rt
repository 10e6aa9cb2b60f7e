//! Where the worked items go.
ghost use Rattle.std.specs.Prelude.{ℕ, OnOk, OnErr};

use crate::faults::Memory;

/// What takes the worked items, by file, then serial, on the caller's thread.
pub trait Tail {
    /// What it takes: the work on an item.
    type Out;

    /// A call that succeeds may take the one state to the other.
    ghost takes: { Self → ℕ → ℕ → Self.Out → Self → Type 0 };

    /// So may a call that is refused.
    ghost refuses: { Self → Self → Type 0 };

    /// Takes a worked item, or answers `Memory` if an allocation failed. Not called again after a refusal.
    fn take(&mut self, file: u16, serial: u32, out: Self::Out) -> Result<(), Memory>
        ensures ok { OnOk result (takes self.old file serial out self.new) }
        ensures err { OnErr result (refuses self.old self.new) };
}
