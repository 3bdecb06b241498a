//! Where the board and the answerer of a run stood at first, in data that only clauses see.
ghost use Rattle.std.specs.Prelude.{◌≡◌, List, map};
ghost use Rattle.std.specs.List.{range_with_len};
ghost use Rattle.std.specs.Borrow.{ftrue};
ghost use Rattle.pd_board.specs.Standing.{bindings};
ghost use Rattle.pd_board.specs.declared.answers.Known.{Known as Knowledge};
ghost use Rattle.pd_board.specs.declared.answers.ActResult.{ActResult};
ghost use Rattle.pd_plan.specs.declared.plan.Answer.{Answer as Given};
ghost use Rattle.pd_suspend.specs.declared.suspension.Suspension.{Suspension as Stop};

use pd_board::Board;
use pd_suspend::Answerer;
use std::marker::Model;

/// What the board knew of each binding, and its answers. It takes no bytes.
#[derive(Drop)]
pub struct FirstBoard {
    pub ghost known: { List Knowledge },
    pub ghost replies: { List ActResult },
}

impl Model for FirstBoard {
    ghost also_owns = { λ _. ftrue };
}

impl FirstBoard {
    /// What a board knows and has answered by now.
    pub fn of<B: Board>(_board: &B) -> FirstBoard
        ensures { (result.known ≡ map (B.standing _board.now).known (range_with_len 0 (bindings (B.standing _board.now)))) × (result.replies ≡ (B.standing _board.now).replies) }
    {
        FirstBoard {}
    }
}

/// What the answerer had kept. It takes no bytes.
#[derive(Drop)]
pub struct FirstList {
    pub ghost list: { List (Stop × Given) },
}

impl Model for FirstList {
    ghost also_owns = { λ _. ftrue };
}

impl FirstList {
    /// What an answerer has kept by now.
    pub fn of<A: Answerer>(_answerer: &A) -> FirstList
        ensures { result.list ≡ A.list _answerer.now }
    {
        FirstList {}
    }
}
