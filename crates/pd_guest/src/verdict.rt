//! What a run is told to do by an answer.
ghost use Rattle.std.specs.Prelude.{◌≡◌, IfOk};
ghost use Rattle.pd_eval.specs.Watching.{GivesNoFunction};
ghost use Rattle.pd_guest.specs.Asking.{is_go, verdict_by, HasNoFunction};

use pd_machine::Verdict;
use pd_plan::Resume;
use std::alloc::AllocError;

/// Whether the run goes on as it is.
pub(crate) fn goes_on(verdict: &Verdict) -> bool
    ensures { result ≡ is_go verdict.now }
{
    match verdict {
        Verdict::Go => true,
        Verdict::Reenter(_) | Verdict::Return(_, _) | Verdict::Kill => false,
    }
}

/// What a run is told to do: nothing, where it goes on as it is.
pub(crate) fn verdict_of(resume: &Resume) -> Result<Verdict, AllocError>
    requires value { HasNoFunction resume.now }
    ensures verdict { IfOk result (λ v. v ≡ verdict_by resume.now) }
    ensures value { IfOk result GivesNoFunction }
{
    Ok(match resume {
        Resume::Continue | Resume::Into(_) | Resume::Over(_) | Resume::Out(_) => Verdict::Go,
        Resume::Reenter(k) => Verdict::Reenter(*k),
        Resume::Return(k, value) => Verdict::Return(*k, value.copy()?),
        Resume::Kill => Verdict::Kill,
    })
}
