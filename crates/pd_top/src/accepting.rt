//! From a command to its plan and program.
ghost use Rattle.std.specs.Prelude.{◌≡◌, ◌≤◌, if◌then◌else◌, length, None, Some, Ok, IfOk, IfErr, IfSome};
ghost use Rattle.pd_plan.specs.Sound.{IsSound};
ghost use Rattle.pd_gen.specs.Workload.{workload_plan, workload_sources};
ghost use Rattle.pd_nesting.specs.Nesting.{AreRooted};
ghost use Rattle.pd_words.specs.Words.{HasNumbersInRange, IsFuel};
ghost use Rattle.pd_top.specs.Files.{read_between, IsGrown};
ghost use Rattle.pd_top.specs.Causes.{IsPlanRead, IsPlanIn, IsPlanOf, IsFitPlan, unfit_binding, made_sources, IsCause, accepted};
ghost use Rattle.pd_top.specs.Stops.{AreFit, StopsPlan, StopsAccepting};

use crate::files::fetched;
use crate::loading::sources_for;
use crate::outcome::Outcome;
use crate::plans::trace_plan;
use pd_calltree::is_for_tree;
use pd_coverage::watches;
use pd_gen::{Generated, make};
use pd_load::load;
use pd_outside::Library;
use pd_plan::Plan;
use pd_plan_json::read_plan;
use pd_sections::{Source, Stop};
use pd_tree::Program;
use pd_values::{Items, Stop as PlanStop};
use pd_words::{Command, with_fuel};
use std::alloc::{AllocError, Global};

/// What a command is about: its plan, and the program of its sources.
#[derive(Drop)]
pub(crate) struct Accepted {
    pub(crate) plan: Plan,
    pub(crate) program: Program,
}

// A plan, and its sources where they are made and not read from files.
#[derive(Drop)]
struct Planned {
    plan: Plan,
    made: Option<Items<Source>>,
}

// The plan in the file of this name.
fn plan_in<L: Library>(alloc: Global, name: &str, files: &mut L) -> Result<Plan, Outcome>
    ensures plan { IfOk result (λ plan. IsPlanRead (read_between L.held L.given files.old files.new) name.now (Ok plan)) }
    ensures sound { IfOk result IsSound }
    ensures stopped { IfErr result (StopsPlan (read_between L.held L.given files.old files.new) name.now (L.faults files.old) (L.faults files.new) (L.last_fault files.new)) }
    ensures held { L.held files.new ≡ L.held files.old }
    ensures given { IsGrown (L.given files.old) (L.given files.new) }
    ensures count { L.faults files.old ≤ L.faults files.new }
{
    let bytes = fetched(alloc, name, files)?;
    match read_plan(alloc, bytes.as_slice()) {
        Ok(plan) => Ok(plan),
        Err(PlanStop::Refused(refusal)) => Err(Outcome::PlanRefused(refusal)),
        Err(PlanStop::Memory) => Err(Outcome::Memory),
    }
}

// The plan in the file of this name, with the fuel that is asked for. Its sources are read.
fn planned_in<L: Library>(
    alloc: Global,
    name: &str,
    fuel: Option<u32>,
    files: &mut L,
) -> Result<Planned, Outcome>
    requires fuel { IfSome fuel IsFuel }
    ensures plan { IfOk result (λ planned. IsPlanIn (read_between L.held L.given files.old files.new) name.now fuel planned.plan) }
    ensures made { IfOk result (λ planned. planned.made ≡ None) }
    ensures fit { IfOk result (λ planned. AreFit planned.plan planned.made) }
    ensures sound { IfOk result (λ planned. IsSound planned.plan) }
    ensures stopped { IfErr result (StopsPlan (read_between L.held L.given files.old files.new) name.now (L.faults files.old) (L.faults files.new) (L.last_fault files.new)) }
    ensures held { L.held files.new ≡ L.held files.old }
    ensures given { IsGrown (L.given files.old) (L.given files.new) }
    ensures count { L.faults files.old ≤ L.faults files.new }
{
    let read = plan_in(alloc, name, files)?;
    let plan = with_fuel(alloc, read, fuel)?;
    Ok(Planned { plan, made: None })
}

// The workload of this number, whose sources are made.
fn workload(alloc: Global, number: u32) -> Result<Planned, AllocError>
    ensures plan { IfOk result (λ planned. planned.plan ≡ workload_plan) }
    ensures made { IfOk result (λ planned. planned.made ≡ Some (workload_sources number)) }
    ensures fit { IfOk result (λ planned. AreFit planned.plan planned.made) }
    ensures sound { IfOk result (λ planned. IsSound planned.plan) }
{
    let Generated { plan, sources } = make(alloc, number)?;
    Ok(Planned {
        plan,
        made: Some(sources),
    })
}

// The plan of a command, and its sources where the command makes them.
fn plan_of<L: Library>(alloc: Global, command: &Command, files: &mut L) -> Result<Planned, Outcome>
    requires numbers { HasNumbersInRange command.now }
    ensures plan { IfOk result (λ planned. IsPlanOf (read_between L.held L.given files.old files.new) command.now planned.plan) }
    ensures made { IfOk result (λ planned. planned.made ≡ made_sources command.now) }
    ensures fit { IfOk result (λ planned. AreFit planned.plan planned.made) }
    ensures sound { IfOk result (λ planned. IsSound planned.plan) }
    ensures stopped { IfErr result (StopsAccepting (read_between L.held L.given files.old files.new) command.now (L.faults files.old) (L.faults files.new) (L.last_fault files.new)) }
    ensures held { L.held files.new ≡ L.held files.old }
    ensures given { IsGrown (L.given files.old) (L.given files.new) }
    ensures count { L.faults files.old ≤ L.faults files.new }
{
    match command {
        Command::Trace(file) => Ok(Planned {
            plan: trace_plan(alloc, file.as_str())?,
            made: None,
        }),
        Command::Run(words) => planned_in(alloc, words.plan.as_str(), words.fuel, files),
        Command::Check(file) => planned_in(alloc, file.as_str(), None, files),
        Command::Gen(number) => Ok(workload(alloc, *number)?),
        Command::Coverage(words) => planned_in(alloc, words.plan.as_str(), words.fuel, files),
        Command::CallTree(words) => planned_in(alloc, words.plan.as_str(), words.fuel, files),
    }
}

// The number of a binding that doesn't fit.
fn unless(fits: bool, binding: u32) -> Option<u32>
    ensures { result ≡ (if fits then None else Some binding) }
{
    if fits { None } else { Some(binding) }
}

// The binding that the command asks for, where it isn't one as the command needs.
fn unfit_binding(command: &Command, plan: &Plan) -> Option<u32>
    ensures { result ≡ unfit_binding command.now plan.now }
{
    match command {
        Command::Trace(_) | Command::Run(_) | Command::Check(_) | Command::Gen(_) => None,
        Command::Coverage(words) => unless(watches(plan, words.binding), words.binding),
        Command::CallTree(words) => unless(is_for_tree(plan, words.binding), words.binding),
    }
}

// The plan of a command with the binding that it needs, and its sources where the command makes them.
fn fit_plan_of<L: Library>(
    alloc: Global,
    command: &Command,
    files: &mut L,
) -> Result<Planned, Outcome>
    requires numbers { HasNumbersInRange command.now }
    ensures plan { IfOk result (λ planned. IsFitPlan (read_between L.held L.given files.old files.new) command.now planned.plan) }
    ensures made { IfOk result (λ planned. planned.made ≡ made_sources command.now) }
    ensures fit { IfOk result (λ planned. AreFit planned.plan planned.made) }
    ensures sound { IfOk result (λ planned. IsSound planned.plan) }
    ensures stopped { IfErr result (StopsAccepting (read_between L.held L.given files.old files.new) command.now (L.faults files.old) (L.faults files.new) (L.last_fault files.new)) }
    ensures held { L.held files.new ≡ L.held files.old }
    ensures given { IsGrown (L.given files.old) (L.given files.new) }
    ensures count { L.faults files.old ≤ L.faults files.new }
{
    let planned = plan_of(alloc, command, files)?;
    match unfit_binding(command, &planned.plan) {
        Some(binding) => Err(Outcome::NoObserver { binding }),
        None => Ok(planned),
    }
}

/// The plan and the program of a command, or the answer where a file, the plan, its binding or a source is refused.
pub(crate) fn accept<L: Library>(
    alloc: Global,
    command: &Command,
    files: &mut L,
) -> Result<Accepted, Outcome>
    requires numbers { HasNumbersInRange command.now }
    ensures accepted { IfOk result (λ both. IsCause (read_between L.held L.given files.old files.new) command.now (accepted both.plan both.program)) }
    ensures fit { IfOk result (λ both. unfit_binding command.now both.plan ≡ None) }
    ensures sound { IfOk result (λ both. IsSound both.plan) }
    ensures entries { IfOk result (λ both. length both.program.entries ≡ length both.plan.contexts) }
    ensures rooted { IfOk result (λ both. AreRooted both.program) }
    ensures stopped { IfErr result (StopsAccepting (read_between L.held L.given files.old files.new) command.now (L.faults files.old) (L.faults files.new) (L.last_fault files.new)) }
    ensures held { L.held files.new ≡ L.held files.old }
    ensures given { IsGrown (L.given files.old) (L.given files.new) }
    ensures count { L.faults files.old ≤ L.faults files.new }
{
    let planned = fit_plan_of(alloc, command, files)?;
    let Planned { plan, made } = planned;
    let sources = sources_for(alloc, &plan, made, files)?;
    match load(alloc, sources.as_slice(), &plan) {
        Ok(program) => Ok(Accepted { plan, program }),
        Err(Stop::Refused(refusal)) => Err(Outcome::SourceRefused(refusal)),
        Err(Stop::Memory) => Err(Outcome::Memory),
    }
}
