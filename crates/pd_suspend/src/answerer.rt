//! Who answers a suspension.
ghost use Rattle.std.specs.Prelude.{◌≡◌, ℕ, Bool, if◌then◌else◌, List, [], ◌∷◌, ◌++◌, IfOk};
ghost use Rattle.pd_plan.specs.declared.plan.Answer.{Answer as Given};
ghost use Rattle.pd_suspend.specs.declared.suspension.Suspension.{Suspension as Stop};

use crate::suspension::Suspension;
use pd_plan::Answer;
use std::alloc::{AllocError, Global};

/// Who answers for the sessions. A suspension is handed over before its answer is carried out: `acts` is empty, and
/// `resume` is `Continue`.
pub trait Answerer {
    /// What the answerer is: no call changes it.
    ghost Base: { Type 0 };

    ghost base: { Self → Self.Base };

    /// Whether an answer to a suspension is one that it may give.
    ghost admits: { Self.Base → Stop → Given → Type 0 };

    /// Of which sessions it keeps what it was handed.
    ghost keeps: { Self.Base → ℕ → Bool };

    /// The suspensions of these sessions that it was handed, in order, each with its answer.
    ghost list: { Self → List (Stop × Given) };

    /// Answers a suspension. The only error is `AllocError`, where memory runs out.
    fn answer(&mut self, alloc: Global, s: &Suspension) -> Result<Answer, AllocError>
        ensures admitted { IfOk result (λ a. Self.admits (base self.old) s.now a) }
        ensures kept { IfOk result (λ a. Self.list self.new ≡ (if Self.keeps (base self.old) s.now.session then Self.list self.old ++ (s.now, a) ∷ [] else Self.list self.old)) }
        ensures base { Self.base self.new ≡ Self.base self.old };
}
