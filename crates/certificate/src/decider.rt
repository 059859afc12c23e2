//! What decides at the nodes of the choice tree.
ghost use Rattle.std.specs.Prelude.{◌≡◌, ℕ, Bool, true, false};
ghost use Rattle.certificate.specs.declared.decider.Decision.{Decision};
ghost use Rattle.certificate.specs.declared.decider.Decision.TheVariants.{Split};

/// What is decided at a node of the choice tree.
#[derive(Clone, Copy, Debug, PartialEq, Eq)]
pub(crate) enum Decision {
    /// The walk skips all below the node.
    Cut,
    /// The walk goes over the node's children, in order.
    Split,
    /// The walk ends here.
    Stop,
}

/// Decides at each node that a walk over the choice tree reaches.
pub(crate) trait Decider {
    /// What a decision makes of the decider: its value before, the node's bound, whether the node
    /// is a leaf, the decision, and its value after.
    ghost decides: { Self → ℕ → Bool → Decision → Self → Type 0 };

    /// Decides at a node, by its bound, in dollars, and by whether it is a leaf. A bound that
    /// exceeds the greatest amount is given as that amount.
    fn decide(&mut self, bound: u64, is_leaf: bool) -> Decision
        ensures { decides self.old bound is_leaf result self.new };

    /// Returns whether it splits a node that is not a leaf, whatever the node's bound. If it
    /// returns false, nothing is decided yet.
    fn splits(&mut self) -> bool
        ensures split { result ≡ true → (bound : ℕ) →
            decides self.old bound false Split self.new }
        ensures open { result ≡ false → self.new ≡ self.old };
}
