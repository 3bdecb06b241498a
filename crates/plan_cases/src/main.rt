//! Says of each line of the input whether it is a plan, and what the plan has, or else the first
//! broken rule and its path. What it must print for the lines of `stdin` stands in `stdout`,
//! written by hand from the rules of the format.
#![tactic(auto)]

use pd_plan::{
    Act, Action, Answer, BindingSpec, BreakSpec, Filter, Language, Plan, PlanRule, Resume, Script,
};
use pd_plan_json::read_plan;
use pd_values::{Stop, Value};
use std::io::{self, BufRead, BufReader};

/// The name of a rule.
fn name_of(rule: PlanRule) -> &'static str {
    match rule {
        PlanRule::NotJson => "NotJson",
        PlanRule::Missing => "Missing",
        PlanRule::WrongShape => "WrongShape",
        PlanRule::OutOfRange => "OutOfRange",
        PlanRule::UnknownWord => "UnknownWord",
        PlanRule::UnknownMember => "UnknownMember",
        PlanRule::NoSuch => "NoSuch",
        PlanRule::BadCondition => "BadCondition",
        PlanRule::NotAnObserver => "NotAnObserver",
        PlanRule::NotBuilt => "NotBuilt",
    }
}

/// The word of a language.
fn word_of(language: Language) -> &'static str {
    match language {
        Language::Sl => "sl",
        Language::Pl0 => "pl0",
    }
}

/// Prints the lengths of a filter's lists.
fn print_filter(rt: &HostRuntime, filter: &Filter) -> io::Result<()> {
    let tags = filter.tags.as_slice().len();
    let not_tags = filter.not_tags.as_slice().len();
    let sources = filter.sources.as_slice().len();
    let lines = filter.lines.as_slice().len();
    let roots = filter.roots.as_slice().len();
    print!(rt; " [{tags} {not_tags} {sources} {lines} {roots}]")
}

/// Prints numbers in parentheses.
fn print_numbers(rt: &HostRuntime, numbers: &[u32]) -> io::Result<()> {
    print!(rt; " (")?;
    for (i, n) in numbers.iter().enumerate() {
        if i > 0 {
            print!(rt; " ")?;
        }
        print!(rt; "{n}")?;
    }
    print!(rt; ")")
}

/// Prints where a breakpoint stands, and its members that a plan needn't have.
fn print_break(rt: &HostRuntime, spec: &BreakSpec) -> io::Result<()> {
    print!(rt; " break {}:{}:{}", spec.session, spec.source, spec.line)?;
    if spec.condition.is_some() {
        print!(rt; " if")?;
    }
    if spec.ignore > 0 {
        print!(rt; " ignore {}", spec.ignore)?;
    }
    if spec.one_shot {
        print!(rt; " once")?;
    }
    Ok(())
}

fn print_binding(rt: &HostRuntime, binding: &BindingSpec) -> io::Result<()> {
    match binding {
        BindingSpec::Observe(filter) => print_filter(rt, filter),
        BindingSpec::Break(spec) => print_break(rt, spec),
        BindingSpec::Pause { session } => print!(rt; " pause {session}"),
    }
}

fn print_act(rt: &HostRuntime, act: Act) -> io::Result<()> {
    match act {
        Act::Attach(binding) => print!(rt; " attach {binding}"),
        Act::Dispose(binding) => print!(rt; " dispose {binding}"),
        Act::Enable(binding) => print!(rt; " enable {binding}"),
        Act::Disable(binding) => print!(rt; " disable {binding}"),
    }
}

fn print_action(rt: &HostRuntime, action: Action) -> io::Result<()> {
    match action {
        Action::Act(act) => print_act(rt, act),
        Action::Await { count, turns } => print!(rt; " await {count} {turns}"),
    }
}

/// Prints the value that a call is to give.
fn print_value(rt: &HostRuntime, value: &Value) -> io::Result<()> {
    match value {
        Value::Number(n) => print!(rt; " {n}"),
        Value::Bool(b) => print!(rt; " {b}"),
        Value::Text(text) => print!(rt; " '{}'", text.as_str()),
        Value::Null => print!(rt; " null"),
        Value::Func(item) => print!(rt; " function {item}"),
    }
}

fn print_resume(rt: &HostRuntime, resume: &Resume) -> io::Result<()> {
    match resume {
        Resume::Continue => print!(rt; " continue"),
        Resume::Into(count) => print!(rt; " into {count}"),
        Resume::Over(count) => print!(rt; " over {count}"),
        Resume::Out(count) => print!(rt; " out {count}"),
        Resume::Reenter(frame) => print!(rt; " reenter {frame}"),
        Resume::Return(frame, value) => {
            print!(rt; " return {frame}")?;
            print_value(rt, value)
        }
        Resume::Kill => print!(rt; " kill"),
    }
}

/// Prints an answer in angle brackets: its acts, and how the run goes on.
fn print_answer(rt: &HostRuntime, answer: &Answer) -> io::Result<()> {
    print!(rt; " <")?;
    for act in answer.first.as_slice() {
        print_act(rt, *act)?;
    }
    print_resume(rt, &answer.resume)?;
    print!(rt; " >")
}

/// Prints a session: its `before` list in parentheses, its actions, and its answers.
fn print_session(rt: &HostRuntime, session: &Script) -> io::Result<()> {
    print_numbers(rt, session.before.as_slice())?;
    for action in session.actions.as_slice() {
        print_action(rt, *action)?;
    }
    for answer in session.answers.as_slice() {
        print_answer(rt, answer)?;
    }
    Ok(())
}

/// Prints what a plan has.
fn print_plan(rt: &HostRuntime, plan: &Plan) -> io::Result<()> {
    print!(rt; "ok")?;
    for source in plan.sources.as_slice() {
        let name = source.name.as_str();
        print!(rt; " {name}:{}", word_of(source.language))?;
    }
    for export in plan.exports.as_slice() {
        let name = export.name.as_str();
        let item = export.item.as_str();
        print!(rt; " {name}={}.{item}", export.source)?;
    }
    for context in plan.contexts.as_slice() {
        let entry = context.entry.as_str();
        print!(rt; " {}:{entry}:{}", context.source, context.fuel)?;
    }
    for binding in plan.bindings.as_slice() {
        print_binding(rt, binding)?;
    }
    for session in plan.sessions.as_slice() {
        print_session(rt, session)?;
    }
    println!(rt)
}

fn main(rt: HostRuntime) -> io::Result<()> {
    let alloc = rt.alloc();
    for line in BufReader::new(alloc, rt.reader())?.split(alloc, b'\n') {
        match read_plan(alloc, line?.as_slice()) {
            Ok(plan) => print_plan(&rt, &plan)?,
            Err(Stop::Refused(refusal)) => {
                let path = refusal.path.as_str();
                println!(rt; "{} at {path}", name_of(refusal.rule))?;
            }
            Err(Stop::Memory) => println!(rt; "out of memory")?,
        }
    }
    Ok(())
}
