//! What came of all tasks.
ghost use Rattle.std.specs.Prelude.{◌≡◌, true, map, IfOk};
ghost use Rattle.std.specs.List.{All, filter_map, list_all};
ghost use Rattle.pd_threads.specs.Tasks.{WasBegun};
ghost use Rattle.pd_threads.specs.Returned.{ran_in, acted_in, has_come};

use crate::work::{Outcome, Task};
use pd_seats::Done;
use pd_session::ActionResult;
use pd_shared::Sights;
use pd_suspend::ContextRecord;
use std::alloc::{AllocError, Global};

/// The records of the contexts, the results of the sessions, and what all seats left, each in order.
#[derive(Drop)]
pub struct Outcomes {
    pub records: Vec<ContextRecord>,
    pub results: Vec<Vec<ActionResult>>,
    pub sights: Vec<Sights>,
}

/// Takes the outcomes apart. Condition: no task is left waiting. The only error is `AllocError`, where memory ran out in
/// one of the tasks or does so here.
pub fn outcomes_of(alloc: Global, done: Vec<Done<Task>>) -> Result<Outcomes, AllocError>
    requires begun { All (λ (d : _). WasBegun d.own.outcome) done.items }
    ensures records { IfOk result (λ o. o.records.items ≡ filter_map (λ (d : _). ran_in d.own.outcome) done.items) }
    ensures results { IfOk result (λ o. map (λ (v : _). v.items) o.results.items ≡ filter_map (λ (d : _). acted_in d.own.outcome) done.items) }
    ensures sights { IfOk result (λ o. o.sights.items ≡ map (λ (d : _). d.sights) done.items) }
    ensures come { IfOk result (λ o. list_all (λ (d : _). has_come d.own.outcome) done.items ≡ true) }
{
    let mut records = Vec::new(alloc);
    let mut results = Vec::new(alloc);
    let mut sights = Vec::new(alloc);
    for piece in done {
        let Done { own, sights: left } = piece;
        let Task { outcome, .. } = own;
        sights.push(left)?;
        match outcome {
            Outcome::Ran(record) => records.push(record)?,
            Outcome::Acted(acted) => results.push(acted)?,
            Outcome::Memory => return Err(AllocError),
            Outcome::Waiting => unreachable!(),
        }
    }
    Ok(Outcomes {
        records,
        results,
        sights,
    })
}
