//! Where items come from.
ghost use Rattle.std.specs.Prelude.{◌≡◌, ℕ, ◌+◌, ◌≤◌, List, [], ◌∷◌, IfOk, IfErr, IfSome, MatchOption};
ghost use Rattle.fq_lanes.specs.declared.faults.FeedFault.{FeedFault};
ghost use Rattle.fq_lanes.specs.declared.faults.FeedFault.TheVariants.{Read};

use crate::faults::FeedFault;

/// The most feeds of a run.
pub const MAX_FEEDS: usize = 16;

/// A source of one file's items. If its source tells it, it means the list of items that still come.
pub trait Feed {
    /// What it gives.
    type Item;

    /// These items may be all that still come.
    ghost gives: { Self → List Self.Item → Type 0 };

    /// `next` may be called.
    ghost is_open: { Self → Type 0 };

    /// At most so many items still come.
    ghost most: { Self → ℕ };

    /// The source may fail.
    ghost may_fail: { Self → Type 0 };

    /// The next item; `None` if there are no more. Not called again after `None` or a fault.
    fn next(&mut self) -> Result<Option<Self::Item>, FeedFault>
        requires { is_open self.old }
        ensures gives { IfOk result (λ o. MatchOption o (gives self.old []) (λ x. (xs : List Self.Item) → gives self.new xs → gives self.old (x ∷ xs))) }
        ensures open { IfOk result (λ o. IfSome o (λ _. is_open self.new × (most self.new + 1 ≤ most self.old) × (may_fail self.new → may_fail self.old))) }
        ensures fault { IfErr result (λ e. e ≡ Read → may_fail self.old) };

    /// Something is still to come, if only the end.
    ghost satisfiable: { (s : Self) → (xs : List Self.Item) × gives s xs };

    /// A feed gives at most 2,147,483,648 items.
    ghost few: { (s : Self) → is_open s → most s ≤ 2147483648 };
}
