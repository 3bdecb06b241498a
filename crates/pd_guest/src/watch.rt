//! The watcher that serves the events of a run.
ghost use Rattle.std.specs.Prelude.{ℕ, List};
ghost use Rattle.pd_board.specs.Standing.{Standing};
ghost use Rattle.pd_board.specs.declared.answers.Known.{Known as Knowledge};
ghost use Rattle.pd_board.specs.declared.answers.ActResult.{ActResult};
ghost use Rattle.pd_tree.specs.Program.{Program as Tree};
ghost use Rattle.pd_plan.specs.declared.plan.Plan.{Plan as Wanted};
ghost use Rattle.pd_plan.specs.declared.plan.Answer.{Answer as Given};
ghost use Rattle.pd_suspend.specs.declared.suspension.Suspension.{Suspension as Stop};
ghost use Rattle.pd_suspend.specs.Answers.{IsLawful};
ghost use Rattle.pd_suspend.specs.Stops.{verdicts_of};
ghost use Rattle.pd_guest.specs.Delivering.{settled_of};
ghost use Rattle.pd_guest.specs.Asking.{IsKept};
ghost use Rattle.pd_guest.specs.Replying.{IsGiven};

use crate::moment::Moment;
use crate::serving::Progress;
use crate::stopping::attend;
use pd_board::Board;
use pd_eval::Watcher;
use pd_machine::{Event, Scene, Verdict};
use pd_outside::Gate;
use pd_plan::Plan;
use pd_suspend::Answerer;
use pd_tree::Program;
use std::alloc::{AllocError, Global};

/// Who serves the events of a run over a board.
pub(crate) struct Guest<'a, 'b, 'p, 'g, B: Board, A: Answerer, G: Gate> {
    pub board: &'a mut B,
    pub answerer: &'b mut A,
    pub plan: &'p Plan,
    pub program: &'p Program,
    pub gate: &'g G,
    pub alloc: Global,
    pub h: Progress,
}

impl<B: Board, A: Answerer, G: Gate> Watcher for Guest<'_, '_, '_, '_, B, A, G> {
    ghost events = { λ w. w.h.history.events };

    ghost kept = { λ w. verdicts_of w.h.stops.items };

    ghost Fixed = { ℕ × ℕ × Standing × List Knowledge × List ActResult × List (Stop × Given) × ℕ × Wanted × Tree × B.Base × A.Base };

    ghost fixed = { λ w. (w.board.ghost_name, w.answerer.ghost_name, settled_of (B.standing w.board.now), w.h.start.known, w.h.start.replies, w.h.first.list, w.h.context, w.plan.now, w.program.now, B.base w.board.now, A.base w.answerer.now) };

    ghost nodes = { λ f. f.2.nodes };

    ghost ready = { λ w. IsKept w.plan.now w.program.now (B.standing w.board.now) w.h
        × IsGiven (A.admits (A.base w.answerer.now)) (A.keeps (A.base w.answerer.now)) w.h.first.list (A.list w.answerer.now) w.h.stops.items
        × ((x : Stop) (a : Given) → A.admits (A.base w.answerer.now) x a → IsLawful w.plan.now a) };

    fn event(&mut self, event: &Event, scene: &Scene<'_>) -> Result<Verdict, AllocError> {
        self.gate.at(self.h.context, event.number);
        let m = Moment {
            plan: self.plan,
            program: self.program,
            event,
            scene,
        };
        attend(self.alloc, self.board, self.answerer, &mut self.h, &m)
    }
}
