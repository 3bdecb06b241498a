//! The bindings that a session attaches before the run.
ghost use Rattle.std.specs.Prelude.{◌≡◌, ℕ, ◌<◌, ◌≤◌, ◌++◌, length, vec_len, IfOk};
ghost use Rattle.std.specs.List.{AllByRecursion};
ghost use Rattle.pd_board.specs.Standing.{bindings};
ghost use Rattle.pd_session.specs.Attaching.{IsAttach, AreAttached, attached_to};

use pd_board::{ActResult, Attach, Board};
use std::alloc::{AllocError, Global};

/// Makes room for one act, and attaches the binding.
fn attach<B: Board>(alloc: Global, b: u32, board: &mut B) -> Result<Attach, AllocError>
    requires binding { b < bindings (B.standing board.old) }
    requires draws { 1 ≤ (B.standing board.old).draw_share }
    requires answers { (s : ℕ) → s < (B.standing board.old).sessions → 1 ≤ (B.standing board.old).answer_share s }
    ensures attached { IfOk result (λ a. IsAttach b a (B.standing board.old) (B.standing board.new)) }
    ensures rest { B.standing board.new ≡ attached_to (B.standing board.new) (B.standing board.old) }
    ensures base { B.base board.new ≡ B.base board.old }
{
    board.reserve(alloc, 1)?;
    Ok(board.attach(b))
}

/// Attaches these bindings, in order, and keeps the answers, one each. The only error is `AllocError`, where memory runs
/// out; the board keeps what was done before.
pub fn run_before<B: Board>(
    alloc: Global,
    before: &[u32],
    board: &mut B,
) -> Result<Vec<ActResult>, AllocError>
    requires bindings { AllByRecursion (λ b. b < bindings (B.standing board.old)) before.now }
    requires draws { 1 ≤ (B.standing board.old).draw_share }
    requires answers { (s : ℕ) → s < (B.standing board.old).sessions → 1 ≤ (B.standing board.old).answer_share s }
    ensures attached { IfOk result (λ answers. AreAttached before.now answers.items (B.standing board.old) (B.standing board.new)) }
    ensures len { IfOk result (λ answers. vec_len answers ≡ length before.now) }
    ensures replies { IfOk result (λ answers. (B.standing board.new).replies ≡ (B.standing board.old).replies ++ answers.items) }
    ensures rest { B.standing board.new ≡ attached_to (B.standing board.new) (B.standing board.old) }
    ensures base { B.base board.new ≡ B.base board.old }
{
    let mut answers = Vec::new(alloc);
    answers.reserve(before.len())?;
    for &b in before {
        let answer = attach(alloc, b, board)?;
        answers.push_reserved(ActResult::Attached(b, answer));
    }
    Ok(answers)
}
