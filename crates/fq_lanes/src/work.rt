//! What the workers do.
ghost use Rattle.std.specs.Prelude.{ℕ, IfOk};

use crate::faults::Memory;

/// The most workers of a run.
pub const MAX_WORKERS: u16 = 16;

/// The work on an item of a file. A worker calls it, from any thread.
pub trait Work {
    /// What is worked.
    type Item;

    /// What the work on an item makes.
    type Out;

    /// This may be the work on an item of a file.
    ghost gives: { Self → ℕ → Self.Item → Self.Out → Type 0 };

    /// The work on an item of a file, or `Memory` if an allocation failed.
    fn work(&self, file: u16, item: Self::Item) -> Result<Self::Out, Memory>
        ensures { IfOk result (λ o. gives self.now file item o) };
}
