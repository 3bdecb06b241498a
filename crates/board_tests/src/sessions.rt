//! Scripts of sessions, on a board of one thread and on a seat.
ghost use Rattle.std.specs.Prelude.{◌≡◌, ◌<◌, IfOk, OnOk, length, vec_len};
ghost use Rattle.std.specs.List.{AllByRecursion};
ghost use Rattle.board_tests.specs.Scripts.{MayScript, IsOpen};
ghost use Rattle.pd_board.specs.Plain.{standing_of};
ghost use Rattle.pd_board.specs.Standing.{IsNew};
ghost use Rattle.pd_core.specs.Examples.{one_binding};
ghost use Rattle.pd_session.specs.Doing.{MayDo, turns_in};
ghost use Rattle.pd_shared.specs.Sitting.{IsOf, standing_of as seat_standing};

use crate::plain::one_binding as one_row;
use crate::watched::Watched;
use pd_board::{ActResult, Attach, Board, Dispose, PlainBoard, Toggle, Waited};
use pd_outside::{Gate, OpenGate};
use pd_plan::{Act, Action, Script};
use pd_session::{ActionResult, SessionRecord, run_before, run_script};
use pd_shared::{Seat, SharedBoard, Sights, Token};
use pd_values::Items;
use std::alloc::{AllocError, Global};
use std::process::Abort;
use std::sync::atomic::{AtomicU32, Ordering};
use std::test::Fail;

// Does these actions of session 0, and compares what they gave.
fn check_script<B: Board, G: Gate>(
    rt: &impl Abort,
    alloc: Global,
    board: &mut B,
    gate: &G,
    actions: &[Action],
    wanted: &[ActionResult],
) -> Result<(), AllocError>
    requires can { MayScript 1 (B.standing board.old) }
    requires may { AllByRecursion (MayDo 1) actions.now }
    requires few { length actions.now < 100 }
    requires turns { turns_in actions.now < 100 }
    ensures base { B.base board.new ≡ B.base board.old }
{
    let script = Script {
        before: Items::of(Vec::new(alloc)),
        actions: Items::of(Vec::from_slice(alloc, actions)?),
        answers: Items::of(Vec::new(alloc)),
    };
    let results = run_script(alloc, &script, 0, board, gate)?;
    assert_eq!(rt; results.as_slice(), wanted);
    Ok(())
}

fn gave(answer: ActResult) -> ActionResult {
    ActionResult::Act(answer)
}

// Switches off and on, each twice.
fn check_toggles<B: Board>(rt: &impl Abort, alloc: Global, board: &mut B) -> Result<(), AllocError>
    requires { MayScript 2 (B.standing board.old) }
    ensures base { B.base board.new ≡ B.base board.old }
{
    let acts = [
        Action::Act(Act::Disable(0)),
        Action::Act(Act::Disable(0)),
        Action::Act(Act::Enable(0)),
        Action::Act(Act::Enable(0)),
    ];
    let wanted = [
        gave(ActResult::Disabled(0, Toggle::At { count: 0 })),
        gave(ActResult::Disabled(0, Toggle::Already)),
        gave(ActResult::Enabled(0, Toggle::At { count: 0 })),
        gave(ActResult::Enabled(0, Toggle::Already)),
    ];
    check_script(
        rt,
        alloc,
        board,
        &OpenGate,
        acts.as_slice(),
        wanted.as_slice(),
    )
}

// Attaches, disposes twice, and tries to switch off what is gone.
fn check_disposed_last<B: Board>(
    rt: &impl Abort,
    alloc: Global,
    board: &mut B,
) -> Result<(), AllocError>
    requires { MayScript 2 (B.standing board.old) }
    ensures base { B.base board.new ≡ B.base board.old }
{
    let acts = [
        Action::Act(Act::Attach(0)),
        Action::Act(Act::Dispose(0)),
        Action::Act(Act::Dispose(0)),
        Action::Act(Act::Disable(0)),
    ];
    let wanted = [
        gave(ActResult::Attached(0, Attach::Attached)),
        gave(ActResult::Disposed(0, Dispose::Disposed { count: 0 })),
        gave(ActResult::Disposed(0, Dispose::Already)),
        gave(ActResult::Disabled(0, Toggle::Gone)),
    ];
    check_script(
        rt,
        alloc,
        board,
        &OpenGate,
        acts.as_slice(),
        wanted.as_slice(),
    )
}

// Disposes before the first attach.
fn check_disposed_first<B: Board>(
    rt: &impl Abort,
    alloc: Global,
    board: &mut B,
) -> Result<(), AllocError>
    requires { MayScript 2 (B.standing board.old) }
    ensures base { B.base board.new ≡ B.base board.old }
{
    let acts = [
        Action::Act(Act::Dispose(0)),
        Action::Act(Act::Attach(0)),
        Action::Act(Act::Attach(0)),
        Action::Act(Act::Enable(0)),
    ];
    let wanted = [
        gave(ActResult::Disposed(0, Dispose::Disposed { count: 0 })),
        gave(ActResult::Attached(0, Attach::Gone)),
        gave(ActResult::Attached(0, Attach::Already)),
        gave(ActResult::Enabled(0, Toggle::Gone)),
    ];
    check_script(
        rt,
        alloc,
        board,
        &OpenGate,
        acts.as_slice(),
        wanted.as_slice(),
    )
}

// No answer was taken: a wait is late after all its turns.
fn check_late<B: Board>(rt: &impl Abort, alloc: Global, board: &mut B) -> Result<(), AllocError>
    requires { MayScript 2 (B.standing board.old) }
    ensures base { B.base board.new ≡ B.base board.old }
{
    let waits = [Action::Await { count: 1, turns: 3 }];
    let wanted = [ActionResult::Awaited(1, Waited::Late { n: 0 })];
    check_script(
        rt,
        alloc,
        board,
        &OpenGate,
        waits.as_slice(),
        wanted.as_slice(),
    )
}

// One answer was taken: a wait for one is over at once, and one for two is late.
fn check_reached<B: Board>(rt: &impl Abort, alloc: Global, board: &mut B) -> Result<(), AllocError>
    requires may { MayScript 2 (B.standing board.old) }
    requires open { IsOpen (B.standing board.old) }
    ensures base { B.base board.new ≡ B.base board.old }
{
    board.reserve(alloc, 1)?;
    assert_eq!(rt; board.take_answer(0), 0);
    let waits = [
        Action::Await { count: 1, turns: 3 },
        Action::Await { count: 2, turns: 2 },
        Action::Act(Act::Attach(0)),
    ];
    let wanted = [
        ActionResult::Awaited(1, Waited::Reached { n: 1 }),
        ActionResult::Awaited(2, Waited::Late { n: 1 }),
        gave(ActResult::Attached(0, Attach::Attached)),
    ];
    check_script(
        rt,
        alloc,
        board,
        &OpenGate,
        waits.as_slice(),
        wanted.as_slice(),
    )
}

// The one context has ended: no wait for more answers goes on.
fn check_ended<B: Board>(rt: &impl Abort, alloc: Global, board: &mut B) -> Result<(), AllocError>
    requires may { MayScript 2 (B.standing board.old) }
    requires open { IsOpen (B.standing board.old) }
    ensures base { B.base board.new ≡ B.base board.old }
{
    board.ended();
    let waits = [
        Action::Await { count: 1, turns: 3 },
        Action::Await { count: 5, turns: 1 },
    ];
    let wanted = [
        ActionResult::Awaited(1, Waited::AllEnded),
        ActionResult::Awaited(5, Waited::AllEnded),
    ];
    check_script(
        rt,
        alloc,
        board,
        &OpenGate,
        waits.as_slice(),
        wanted.as_slice(),
    )
}

// A board of one thread, with one session and one context.
fn plain_board(alloc: Global) -> Result<PlainBoard, AllocError>
    ensures may { IfOk result (λ board. MayScript 2 (standing_of board)) }
    ensures open { IfOk result (λ board. IsOpen (standing_of board)) }
{
    let table = one_row(alloc, true)?;
    PlainBoard::new(alloc, &table, 8, 1, 1)
}

#[test]
fn scripts_on_a_board_of_one_thread(rt: HostRuntime) -> Result<(), Fail> {
    let alloc = rt.alloc();
    for what in [
        Try::Toggles,
        Try::DisposedLast,
        Try::DisposedFirst,
        Try::Late,
        Try::Reached,
        Try::Ended,
    ] {
        check(&rt, alloc, &mut plain_board(alloc)?, what)?;
    }
    Ok(())
}

// Attaches the binding twice before the run.
fn check_before<B: Board>(
    rt: &impl Abort,
    alloc: Global,
    board: &mut B,
) -> Result<SessionRecord, AllocError>
    requires { MayScript 2 (B.standing board.old) }
{
    let before = run_before(alloc, &[0, 0], board)?;
    let wanted = [
        ActResult::Attached(0, Attach::Attached),
        ActResult::Attached(0, Attach::Already),
    ];
    assert_eq!(rt; before.as_slice(), wanted.as_slice());
    Ok(SessionRecord {
        before: Items::of(before),
        actions: Items::of(Vec::new(alloc)),
    })
}

#[test]
fn bindings_attached_before_the_run(rt: HostRuntime) -> Result<(), Fail> {
    let alloc = rt.alloc();
    let mut board = plain_board(alloc)?;
    let record = check_before(&rt, alloc, &mut board)?;
    let counts = (
        record.before.as_slice().len(),
        record.actions.as_slice().len(),
    );
    assert_eq!(rt; counts, (2, 0));
    Ok(())
}

// What a gate was told, by the positions that session 0 should tell it.
#[derive(Drop)]
struct Told {
    next: AtomicU32,
    wrong: AtomicU32,
}

impl Gate for Told {
    fn at(&self, _context: u32, _event: u32) {
        self.wrong.fetch_add(1, Ordering::SeqCst);
    }

    fn act(&self, session: u32, action: u32) {
        let next = self.next.fetch_add(1, Ordering::SeqCst);
        if (session, action) != (0, next) {
            self.wrong.fetch_add(1, Ordering::SeqCst);
        }
    }
}

#[test]
fn a_gate_is_told_of_each_action_before_it_is_done(rt: HostRuntime) -> Result<(), Fail> {
    let alloc = rt.alloc();
    let gate = Told {
        next: AtomicU32::new(0),
        wrong: AtomicU32::new(0),
    };
    let acts = [
        Action::Act(Act::Attach(0)),
        Action::Await { count: 1, turns: 1 },
        Action::Act(Act::Dispose(0)),
    ];
    let wanted = [
        gave(ActResult::Attached(0, Attach::Attached)),
        ActionResult::Awaited(1, Waited::Late { n: 0 }),
        gave(ActResult::Disposed(0, Dispose::Disposed { count: 0 })),
    ];
    let mut watched = Watched {
        board: plain_board(alloc)?,
        told: &gate.next,
        came: 0,
        early: false,
    };
    check_script(
        &rt,
        alloc,
        &mut watched,
        &gate,
        acts.as_slice(),
        wanted.as_slice(),
    )?;
    assert_eq!(rt; gate.wrong.load(Ordering::SeqCst), 0);
    assert_eq!(rt; (gate.next.load(Ordering::SeqCst), watched.came), (3, 3));
    assert!(rt; !watched.early);
    Ok(())
}

// A seat that was split from the first one of a board with one session and one context.
fn split_seat<'b>(
    rt: &impl Abort,
    alloc: Global,
    first: &mut Seat<'b>,
) -> Result<Seat<'b>, AllocError>
    requires new { IsNew first.old.table 8 1 1 (seat_standing first.old) }
    requires rows { first.old.table.rows ≡ one_binding.rows }
    ensures hub { first.new.hub ≡ first.old.hub }
    ensures second { IfOk result (λ s. (s.hub ≡ first.old.hub) × MayScript 2 (seat_standing s) × IsOpen (seat_standing s)) }
{
    assert!(rt; first.can_split());
    first.split(alloc)
}

// A board of many threads with one binding, one session and one context, and its first token.
fn shared_board(alloc: Global) -> Result<(SharedBoard, Token), AllocError>
    ensures of { IfOk result (λ r. IsOf r.0.core r.1) }
    ensures rows { IfOk result (λ r. r.0.table.rows ≡ one_binding.rows) }
    ensures new { IfOk result (λ r. IsNew r.0.table 8 1 1 (seat_standing (record { hub = r.0.core; table = r.0.table; token = r.1 }))) }
{
    let table = one_row(alloc, true)?;
    SharedBoard::new(alloc, &table, 8, 1, 1)
}

// What is tried on a seat.
#[derive(Clone, Copy)]
enum Try {
    Toggles,
    DisposedLast,
    DisposedFirst,
    Late,
    Reached,
    Ended,
}

// Tries it on a board of which nothing was read.
fn check<B: Board>(
    rt: &impl Abort,
    alloc: Global,
    board: &mut B,
    what: Try,
) -> Result<(), AllocError>
    requires may { MayScript 2 (B.standing board.old) }
    requires open { IsOpen (B.standing board.old) }
    ensures base { B.base board.new ≡ B.base board.old }
{
    match what {
        Try::Toggles => check_toggles(rt, alloc, board),
        Try::DisposedLast => check_disposed_last(rt, alloc, board),
        Try::DisposedFirst => check_disposed_first(rt, alloc, board),
        Try::Late => check_late(rt, alloc, board),
        Try::Reached => check_reached(rt, alloc, board),
        Try::Ended => check_ended(rt, alloc, board),
    }
}

// The same on a seat, which stays one of its board.
fn check_seat(
    rt: &impl Abort,
    alloc: Global,
    seat: &mut Seat<'_>,
    what: Try,
) -> Result<(), AllocError>
    requires may { MayScript 2 (seat_standing seat.old) }
    requires open { IsOpen (seat_standing seat.old) }
    ensures hub { seat.new.hub ≡ seat.old.hub }
{
    check(rt, alloc, seat, what)
}

// Tries it on a second seat of a new board, and gives what that seat left.
fn on_a_seat(rt: &impl Abort, alloc: Global, what: Try) -> Result<Sights, AllocError>
    ensures { IfOk result (λ s. vec_len s.sessions ≡ 1) }
{
    let (board, token) = shared_board(alloc)?;
    let mut first = board.sit(token);
    let mut seat = split_seat(rt, alloc, &mut first)?;
    check_seat(rt, alloc, &mut seat, what)?;
    Ok(seat.retire(&mut first))
}

#[test]
fn scripts_on_a_seat(rt: HostRuntime) -> Result<(), Fail> {
    // How many answers it kept, how often it read the session's word and the word of ended contexts, and what of them last.
    for (what, wanted) in [
        (Try::Toggles, (4, (0, 0), (0, 0))),
        (Try::DisposedLast, (4, (0, 0), (0, 0))),
        (Try::DisposedFirst, (4, (0, 0), (0, 0))),
        (Try::Late, (0, (3, 3), (0, 0))),
        (Try::Reached, (1, (3, 2), (1, 0))),
        (Try::Ended, (0, (2, 2), (0, 1))),
    ] {
        let left = on_a_seat(&rt, rt.alloc(), what)?;
        let loads = (left.answer_loads(0), left.end_loads());
        let last = (left.last_answers(0), left.last_ends());
        assert_eq!(rt; (left.replies().len(), loads, last), wanted);
    }
    Ok(())
}
