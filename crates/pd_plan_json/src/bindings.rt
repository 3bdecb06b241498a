//! The tables of bindings.
ghost use Rattle.std.specs.Prelude.{◌≡◌, ◌≤◌, length, IfOk};
ghost use Rattle.serde_json.specs.View.{view, items_view};
ghost use Rattle.pd_plan.specs.declared.refusal.PlanRule.TheVariants.{OutOfRange};
ghost use Rattle.pd_condition.specs.Found.{condition_in};
ghost use Rattle.pd_plan_json.specs.Reading.{Gives, GivesBy, refuse_if, under, entry_step};
ghost use Rattle.pd_plan_json.specs.Shapes.{outside};
ghost use Rattle.pd_plan_json.specs.Tables as table;

use crate::members::{Table, default_of, is_object, list_of, optional_of, required_of};
use crate::program::NAME;
use crate::reader::{Reader, in_entry, refusal};
use crate::shapes::{ListIn, NumberIn, Reference, TextIn, Truth, chars_of, items_of, whole_of};
use pd_plan::{BindingSpec, BreakSpec, Condition, Filter, LineRange, PlanRefusal, PlanRule};
use pd_values::{Stop, Tag, Text};
use serde_json::Value;
use std::alloc::Global;

/// Reads a tag.
#[derive(Drop)]
struct TagWord;

impl Reader for TagWord {
    type Output = Tag;

    ghost reads = { λ _. table.tag };

    #[tactic(auto, unfolding(crate::specs::Tables::tag))]
    fn read(&self, alloc: Global, value: &Value) -> Result<Tag, Stop<PlanRefusal>> {
        match chars_of(alloc, value)? {
            "Statement" => Ok(Tag::Statement),
            "Call" => Ok(Tag::Call),
            "Root" => Ok(Tag::Root),
            "RootBody" => Ok(Tag::RootBody),
            "Expression" => Ok(Tag::Expression),
            "ReadVariable" => Ok(Tag::ReadVariable),
            "WriteVariable" => Ok(Tag::WriteVariable),
            "AlwaysHalt" => Ok(Tag::AlwaysHalt),
            _ => Err(refusal(alloc, PlanRule::UnknownWord)),
        }
    }
}

// The lists of a filter have 1 to 64 entries.
const TAGS: ListIn<TagWord> = ListIn {
    low: 1,
    high: 64,
    entry: TagWord,
};

const NUMBERS: ListIn<Reference> = ListIn {
    low: 1,
    high: 64,
    entry: Reference,
};

const RANGES: ListIn<LinesTable> = ListIn {
    low: 1,
    high: 64,
    entry: LinesTable,
};

const ROOTS: ListIn<TextIn> = ListIn {
    low: 1,
    high: 64,
    entry: NAME,
};

// The range of lines: a source of 2^20 bytes, the most there may be, has at most 2^20 + 1 of them.
const LINE: NumberIn = NumberIn {
    low: 1,
    high: 1_048_577,
};

/// A line of a range, at its index, from 1 to 1,048,577.
fn line_in(alloc: Global, index: usize, n: u64) -> Result<u32, Stop<PlanRefusal>>
    ensures gives { GivesBy (λ _. tt) result (under (entry_step index) (refuse_if (outside 1 1048577 n) OutOfRange)) }
    ensures same { IfOk result (λ m. m ≡ n) }
{
    if n < 1 || n > 1_048_577 {
        return Err(in_entry(alloc, index, refusal(alloc, PlanRule::OutOfRange)));
    }
    Ok(n as u32)
}

/// Just two whole numbers; any other list is of the wrong shape.
#[tactic(auto, using(crate::proofs::Lists::pair_of_others))]
fn pair_of(alloc: Global, values: &[Value]) -> Result<(u64, u64), Stop<PlanRefusal>>
    ensures { Gives result (table.pair (items_view values.now)) }
{
    match values {
        [a, b] => {
            let a = whole_of(alloc, a)?;
            let b = whole_of(alloc, b)?;
            Ok((a, b))
        }
        _ => Err(refusal(alloc, PlanRule::WrongShape)),
    }
}

/// Reads a range of lines: the first may not be above the second.
#[derive(Drop)]
struct LinesTable;

impl Reader for LinesTable {
    type Output = LineRange;

    ghost reads = { λ _. table.lines };

    #[tactic(auto, unfolding(crate::specs::Tables::lines))]
    fn read(&self, alloc: Global, value: &Value) -> Result<LineRange, Stop<PlanRefusal>> {
        let values = items_of(alloc, value)?;
        let (from, to) = pair_of(alloc, values)?;
        if from > to {
            return Err(refusal(alloc, PlanRule::OutOfRange));
        }
        let from = line_in(alloc, 0, from)?;
        let to = line_in(alloc, 1, to)?;
        Ok(LineRange { from, to })
    }
}

/// Reads the members of a filter.
#[derive(Drop)]
struct FilterMembers;

impl Reader for FilterMembers {
    type Output = Filter;

    ghost reads = { λ _. table.filter_members };

    #[tactic(auto, unfolding(crate::specs::Tables::filter_members))]
    fn read(&self, alloc: Global, value: &Value) -> Result<Filter, Stop<PlanRefusal>> {
        let tags = list_of(alloc, value, "tags", &TAGS)?;
        let not_tags = list_of(alloc, value, "not_tags", &TAGS)?;
        let sources = list_of(alloc, value, "sources", &NUMBERS)?;
        let lines = list_of(alloc, value, "lines", &RANGES)?;
        let roots = list_of(alloc, value, "roots", &ROOTS)?;
        Ok(Filter {
            tags,
            not_tags,
            sources,
            lines,
            roots,
        })
    }
}

const FILTER: Table<FilterMembers> = Table {
    names: &["tags", "not_tags", "sources", "lines", "roots"],
    members: FilterMembers,
};

/// The condition that a text is.
fn condition_of(alloc: Global, text: &str) -> Result<Condition, Stop<PlanRefusal>>
    requires { length text.now ≤ 1000 }
    ensures { Gives result (table.or_bad (condition_in text.now)) }
{
    let text = Text::of(String::from_str(alloc, text)?);
    match pd_condition::read(alloc, &text) {
        Ok(condition) => Ok(condition),
        Err(pd_sections::Stop::Memory) => Err(Stop::Memory),
        Err(pd_sections::Stop::Refused(_)) => Err(refusal(alloc, PlanRule::BadCondition)),
    }
}

/// Reads a condition, a text of 1 to 1000 bytes.
#[derive(Drop)]
struct ConditionText;

impl Reader for ConditionText {
    type Output = Condition;

    ghost reads = { λ _. table.condition };

    #[tactic(auto, unfolding(crate::specs::Tables::condition))]
    fn read(&self, alloc: Global, value: &Value) -> Result<Condition, Stop<PlanRefusal>> {
        let text = chars_of(alloc, value)?;
        if text.is_empty() || text.len() > 1000 {
            return Err(refusal(alloc, PlanRule::OutOfRange));
        }
        condition_of(alloc, text)
    }
}

/// What kind of binding it is.
#[derive(Clone, Copy, Drop)]
enum Kind {
    Observe,
    Break,
    Pause,
}

/// Reads the kind of a binding.
#[derive(Drop)]
struct KindWord;

impl Reader for KindWord {
    type Output = Kind;

    ghost reads = { λ _. table.kind };

    #[tactic(auto, unfolding(crate::specs::Tables::kind))]
    fn read(&self, alloc: Global, value: &Value) -> Result<Kind, Stop<PlanRefusal>> {
        match chars_of(alloc, value)? {
            "observe" => Ok(Kind::Observe),
            "break" => Ok(Kind::Break),
            "pause" => Ok(Kind::Pause),
            _ => Err(refusal(alloc, PlanRule::UnknownWord)),
        }
    }
}

/// Reads the members of an observer.
#[derive(Drop)]
struct ObserverMembers;

impl Reader for ObserverMembers {
    type Output = BindingSpec;

    ghost reads = { λ _. table.observer_members };

    #[tactic(auto, unfolding(crate::specs::Tables::observer_members))]
    fn read(&self, alloc: Global, value: &Value) -> Result<BindingSpec, Stop<PlanRefusal>> {
        let filter = required_of(alloc, value, "filter", &FILTER)?;
        Ok(BindingSpec::Observe(filter))
    }
}

const OBSERVER: Table<ObserverMembers> = Table {
    names: &["kind", "filter"],
    members: ObserverMembers,
};

// How many hits of a breakpoint are only counted.
const IGNORED: NumberIn = NumberIn {
    low: 0,
    high: 1_000_000,
};

/// Reads the members of a breakpoint.
#[derive(Drop)]
struct BreakMembers;

impl Reader for BreakMembers {
    type Output = BindingSpec;

    ghost reads = { λ _. table.breakpoint_members };

    #[tactic(auto, unfolding(crate::specs::Tables::breakpoint_members))]
    fn read(&self, alloc: Global, value: &Value) -> Result<BindingSpec, Stop<PlanRefusal>> {
        let session = required_of(alloc, value, "session", &Reference)?;
        let source = required_of(alloc, value, "source", &Reference)?;
        let line = required_of(alloc, value, "line", &LINE)?;
        let condition = optional_of(alloc, value, "condition", &ConditionText)?;
        let ignore = default_of(alloc, value, "ignore", 0, &IGNORED)?;
        let one_shot = default_of(alloc, value, "one_shot", false, &Truth)?;
        Ok(BindingSpec::Break(BreakSpec {
            session,
            source,
            line,
            condition,
            ignore,
            one_shot,
        }))
    }
}

const BREAK: Table<BreakMembers> = Table {
    names: &[
        "kind",
        "session",
        "source",
        "line",
        "condition",
        "ignore",
        "one_shot",
    ],
    members: BreakMembers,
};

/// A breakpoint.
fn breakpoint_of(alloc: Global, value: &Value) -> Result<BindingSpec, Stop<PlanRefusal>>
    ensures { Gives result (table.breakpoint (view value.now)) }
{
    BREAK.read(alloc, value)
}

/// Reads the members of a pause.
#[derive(Drop)]
struct PauseMembers;

impl Reader for PauseMembers {
    type Output = BindingSpec;

    ghost reads = { λ _. table.pause_members };

    #[tactic(auto, unfolding(crate::specs::Tables::pause_members))]
    fn read(&self, alloc: Global, value: &Value) -> Result<BindingSpec, Stop<PlanRefusal>> {
        let session = required_of(alloc, value, "session", &Reference)?;
        Ok(BindingSpec::Pause { session })
    }
}

const PAUSE: Table<PauseMembers> = Table {
    names: &["kind", "session"],
    members: PauseMembers,
};

/// Reads a binding, its kind first.
#[derive(Drop)]
pub(crate) struct BindingTable;

impl Reader for BindingTable {
    type Output = BindingSpec;

    ghost reads = { λ _. table.binding };

    #[tactic(auto, unfolding(crate::specs::Tables::binding))]
    fn read(&self, alloc: Global, value: &Value) -> Result<BindingSpec, Stop<PlanRefusal>> {
        is_object(alloc, value)?;
        match required_of(alloc, value, "kind", &KindWord)? {
            Kind::Observe => OBSERVER.read(alloc, value),
            Kind::Break => breakpoint_of(alloc, value),
            Kind::Pause => PAUSE.read(alloc, value),
        }
    }
}
