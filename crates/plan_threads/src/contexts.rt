//! How each context of the rounds runs, whatever the others do.
use crate::fault::Fault;
use pd_plan::Resume;
use pd_suspend::{ContextRecord, Reason, Suspension};
use pd_values::{End, Value};

/// The number of the one-shot breakpoint.
pub const ONE_SHOT: u32 = 5;

/// What each context writes.
const OUTPUT: &str = "0\n1\n2\n3\n4\n";

/// The fuel that each context uses.
const FUEL: u32 = 63;

/// How many events each context has.
const EVENTS: u32 = 114;

/// The context's output, end, fuel and number of events are those of its program.
fn runs_by_itself(context: &ContextRecord) -> bool {
    context.output.as_str() == OUTPUT
        && matches!(&context.end, End::Done(Value::Null))
        && context.used == FUEL
        && context.events == EVENTS
}

/// Whether each context ran as it does by itself.
pub fn contexts_agree(contexts: &[ContextRecord]) -> Result<(), Fault> {
    for (number, context) in contexts.iter().enumerate() {
        if !runs_by_itself(context) {
            return Err(Fault::Context { context: number });
        }
    }
    Ok(())
}

/// Whether the one-shot breakpoint took its first place there, and the context went on.
fn is_the_shot(stop: &Suspension) -> bool {
    let hit = Reason::Hit {
        binding: ONE_SHOT,
        place: 0,
        cannot: false,
    };
    let answered = stop.session == 0 && stop.number == 0 && stop.answer == 0;
    answered
        && stop.reasons.as_slice() == [hit].as_slice()
        && stop.acts.is_empty()
        && matches!(&stop.resume, Resume::Continue)
}

/// Whether there is one suspension over all contexts, by the one-shot breakpoint.
pub fn stops_agree(contexts: &[ContextRecord]) -> Result<(), Fault> {
    let mut count = 0usize;
    for context in contexts {
        for stop in context.stops.as_slice() {
            if !is_the_shot(stop) {
                return Err(Fault::Stops);
            }
            count = count.saturating_add(1);
        }
    }
    if count == 1 {
        Ok(())
    } else {
        Err(Fault::Stops)
    }
}
