//! What the solver comes to.

use zi_choice::Choice;
use zi_proof::{Certificate, Proof};

/// What the solver comes to.
#[derive(Drop)]
pub enum Answer {
    /// The best choice.
    Best {
        /// The choice.
        choice: Choice,
        /// Why each valid choice that differs is worse.
        certificate: Certificate,
    },
    /// No choice is valid.
    None {
        /// A refutation.
        proof: Proof,
    },
    /// The budget is spent.
    Spent {
        /// The lemmas that were learned, which follow.
        proof: Proof,
        /// How many they are: the budget.
        count: u64,
    },
}
