//! A worked sequence of calls.
ghost use Rattle.std.specs.Prelude.{◌≡◌, ◌+◌, ◌<◌, ◌≤◌, ◌^◌, IfOk, vec_len};
ghost use Rattle.pd_board.specs.Standing.{bindings};
ghost use Rattle.pd_core.specs.Examples.{one_binding};
ghost use Rattle.pd_core.specs.Views.{first_view};
ghost use Rattle.pd_shared.specs.Sitting.{IsOf, standing_of};

use pd_board::{
    ActResult, Attach, BindingTally, Board, Dispose, Drawn, Known, Passed, Sight, State, Toggle,
};
use pd_plan::MatchTable;
use pd_shared::{Seat, SharedBoard, Sights, Tally, Token};
use pd_values::{Items, NodeId};
use std::alloc::{AllocError, Global};
use std::process::Abort;

// One binding, whose row has node 3 of 8.
fn one_row(alloc: Global) -> Result<MatchTable, AllocError>
    ensures { IfOk result (λ t. t.rows ≡ one_binding.rows) }
{
    let mut row = Vec::new(alloc);
    row.push(NodeId(3))?;
    let mut rows = Vec::new(alloc);
    rows.push(Items::of(row))?;
    let mut always = Vec::new(alloc);
    always.push(true)?;
    Ok(MatchTable {
        rows: Items::of(rows),
        always: Items::of(always),
    })
}

// A board with that binding, one session and two contexts, and its first token.
fn new_board(alloc: Global) -> Result<(SharedBoard, Token), AllocError>
    ensures layout { IfOk result (λ r. r.0.core.layout ≡ one_binding) }
    ensures rows { IfOk result (λ r. r.0.table.rows ≡ one_binding.rows) }
    ensures of { IfOk result (λ r. IsOf r.0.core r.1) }
    ensures first { IfOk result (λ r. r.1.pass.view ≡ first_view) }
{
    let table = one_row(alloc)?;
    SharedBoard::new(alloc, &table, 8, 1, 2)
}

fn sight(event: u32, drawn: Drawn) -> Sight {
    Sight {
        event,
        binding: 0,
        drawn,
    }
}

fn attach(rt: &impl Abort, seat: &mut Seat<'_>, wanted: Attach)
    requires { bindings (standing_of seat.old) ≡ 1 }
    ensures hub { seat.new.hub ≡ seat.old.hub }
    ensures table { seat.new.table ≡ seat.old.table }
    ensures draws { (standing_of seat.new).draw_share ≡ (standing_of seat.old).draw_share }
    ensures answers { (standing_of seat.new).answer_share ≡ (standing_of seat.old).answer_share }
    ensures ends { (standing_of seat.new).end_share ≡ (standing_of seat.old).end_share }
{
    assert!(rt; seat.spare() > 0);
    assert_eq!(rt; seat.attach(0), wanted);
}

fn draw(rt: &impl Abort, seat: &mut Seat<'_>, event: u32, wanted: Drawn)
    requires binding { bindings (standing_of seat.old) ≡ 1 }
    requires draws { 0 < (standing_of seat.old).draw_share }
    ensures hub { seat.new.hub ≡ seat.old.hub }
    ensures table { seat.new.table ≡ seat.old.table }
    ensures draws { (standing_of seat.old).draw_share ≤ (standing_of seat.new).draw_share + 1 }
{
    assert!(rt; seat.spare() > 0 && !seat.has_ended());
    assert_eq!(rt; seat.known(0), Known::Attached);
    assert_eq!(rt; seat.draw(event, 0), wanted);
}

fn dispose(rt: &impl Abort, seat: &mut Seat<'_>, wanted: Dispose)
    requires { bindings (standing_of seat.old) ≡ 1 }
    ensures hub { seat.new.hub ≡ seat.old.hub }
    ensures table { seat.new.table ≡ seat.old.table }
    ensures draws { (standing_of seat.new).draw_share ≡ (standing_of seat.old).draw_share }
{
    assert!(rt; seat.spare() > 0);
    assert_eq!(rt; seat.dispose(0), wanted);
}

fn disable(rt: &impl Abort, seat: &mut Seat<'_>, wanted: Toggle)
    requires { bindings (standing_of seat.old) ≡ 1 }
    ensures hub { seat.new.hub ≡ seat.old.hub }
    ensures table { seat.new.table ≡ seat.old.table }
    ensures draws { (standing_of seat.new).draw_share ≡ (standing_of seat.old).draw_share }
{
    assert!(rt; seat.spare() > 0);
    assert_eq!(rt; seat.disable(0), wanted);
}

fn enable(rt: &impl Abort, seat: &mut Seat<'_>, wanted: Toggle)
    requires { bindings (standing_of seat.old) ≡ 1 }
    ensures hub { seat.new.hub ≡ seat.old.hub }
    ensures table { seat.new.table ≡ seat.old.table }
    ensures draws { (standing_of seat.new).draw_share ≡ (standing_of seat.old).draw_share }
{
    assert!(rt; seat.spare() > 0);
    assert_eq!(rt; seat.enable(0), wanted);
}

// Meets the binding, which is known as disposed, at a Return or a Leave.
fn pass(rt: &impl Abort, seat: &mut Seat<'_>, event: u32)
    requires { bindings (standing_of seat.old) ≡ 1 }
    ensures hub { seat.new.hub ≡ seat.old.hub }
    ensures table { seat.new.table ≡ seat.old.table }
{
    assert!(rt; seat.spare() > 0 && !seat.has_ended());
    assert_eq!(rt; seat.known(0), Known::Disposed);
    seat.pass(event, 0);
}

// Loads node 3, and sweeps binding 0 if it is there: whether it was.
fn load_and_sweep(rt: &impl Abort, seat: &mut Seat<'_>) -> bool
    requires { (bindings (standing_of seat.old) ≡ 1) × ((standing_of seat.old).nodes ≡ 8) }
    ensures hub { seat.new.hub ≡ seat.old.hub }
    ensures table { seat.new.table ≡ seat.old.table }
{
    assert!(rt; !seat.has_ended() && seat.nothing_due() && seat.all_loads() < 100);
    let chain = seat.chain(NodeId(3));
    let is_there = chain.contains(0);
    if is_there {
        assert_eq!(rt; seat.known(0), Known::Disposed);
        assert!(rt; seat.cleared() < 100);
        seat.sweep(NodeId(3), 0);
    }
    is_there
}

// The seat attaches, and then splits another.
fn split_attached<'b>(
    rt: &impl Abort,
    alloc: Global,
    first: &mut Seat<'b>,
) -> Result<Seat<'b>, AllocError>
    requires layout { (first.old.hub.layout ≡ one_binding) × (first.old.table.rows ≡ one_binding.rows) }
    requires view { first.old.token.pass.view ≡ first_view }
    ensures hub { first.new.hub ≡ first.old.hub }
    ensures table { first.new.table ≡ first.old.table }
    ensures draws { 2 ^ 50 ≤ (standing_of first.new).draw_share }
    ensures second { IfOk result (λ s. (s.hub ≡ first.old.hub) × (s.table ≡ first.old.table) × ((standing_of s).draw_share ≡ 2 ^ 38)) }
{
    first.reserve(alloc, 8)?;
    attach(rt, first, Attach::Attached);
    assert!(rt; first.can_split());
    let mut second = first.split(alloc)?;
    second.reserve(alloc, 8)?;
    Ok(second)
}

// The first seat attaches and splits a second, both draw, and the first disposes of the binding and takes the second in.
fn worked(rt: &impl Abort, alloc: Global, first: &mut Seat<'_>) -> Result<Sights, AllocError>
    requires layout { (first.old.hub.layout ≡ one_binding) × (first.old.table.rows ≡ one_binding.rows) }
    requires view { first.old.token.pass.view ≡ first_view }
    ensures hub { first.new.hub ≡ first.old.hub }
    ensures over { IfOk result (λ s. vec_len s.loads ≡ 8) }
{
    let mut second = split_attached(rt, alloc, first)?;
    draw(rt, &mut second, 0, Drawn::On { place: 0 });
    draw(rt, first, 4, Drawn::On { place: 1 });
    dispose(rt, first, Dispose::Disposed { count: 2 });
    draw(rt, &mut second, 5, Drawn::Off);
    dispose(rt, &mut second, Dispose::Already);
    assert!(rt; load_and_sweep(rt, &mut second));
    assert!(rt; !load_and_sweep(rt, &mut second));
    pass(rt, &mut second, 7);
    attach(rt, first, Attach::Already);
    Ok(second.retire(first))
}

// What the second seat left.
fn check_left(rt: &impl Abort, left: &Sights)
    requires { vec_len left.now.loads ≡ 8 }
{
    assert_eq!(rt;
        left.list(),
        [sight(0, Drawn::On { place: 0 }), sight(5, Drawn::Off)].as_slice()
    );
    assert_eq!(rt;
        left.passes(),
        [Passed {
            event: 7,
            binding: 0,
            disposed: true,
            before: 2
        }]
        .as_slice()
    );
    assert_eq!(rt;
        left.replies(),
        [ActResult::Disposed(0, Dispose::Already)].as_slice()
    );
    assert!(rt; left.list().len() == 2);
    assert_eq!(rt; left.before(1), 0);
    assert_eq!(rt; left.node_loads(3), 2);
    assert_eq!(rt; left.node_loads(4), 0);
    assert_eq!(rt; (left.end_loads(), left.last_ends()), (0, 0));
}

// How the one binding ended up, and that no answer was taken.
fn check_tally(rt: &impl Abort, tally: &Tally, state: State, count: u64) {
    assert_eq!(rt;
        tally.bindings(),
        [BindingTally { state, count }].as_slice()
    );
    assert_eq!(rt; tally.answers(), [0].as_slice());
}

#[test]
fn worked_calls(rt: HostRuntime) -> Result<(), AllocError> {
    let (board, token) = new_board(rt.alloc())?;
    let mut first = board.sit(token);
    let left = worked(&rt, rt.alloc(), &mut first)?;
    check_left(&rt, &left);
    assert!(rt; first.is_whole());
    let last = first.rise();
    let tally = board.close(rt.alloc(), last)?;
    check_tally(&rt, &tally, State::Disposed, 2);
    Ok(())
}

// The seat's numbers are missed while the binding is off.
fn toggled(rt: &impl Abort, alloc: Global, seat: &mut Seat<'_>) -> Result<(), AllocError>
    requires layout { (seat.old.hub.layout ≡ one_binding) × (seat.old.table.rows ≡ one_binding.rows) }
    requires view { seat.old.token.pass.view ≡ first_view }
    ensures hub { seat.new.hub ≡ seat.old.hub }
{
    seat.reserve(alloc, 16)?;
    attach(rt, seat, Attach::Attached);
    draw(rt, seat, 0, Drawn::On { place: 0 });
    disable(rt, seat, Toggle::At { count: 1 });
    draw(rt, seat, 2, Drawn::Missed { number: 1 });
    disable(rt, seat, Toggle::Already);
    enable(rt, seat, Toggle::At { count: 2 });
    draw(rt, seat, 4, Drawn::On { place: 2 });
    enable(rt, seat, Toggle::Already);
    dispose(rt, seat, Dispose::Disposed { count: 3 });
    enable(rt, seat, Toggle::Gone);
    disable(rt, seat, Toggle::Gone);
    Ok(())
}

#[test]
fn toggled_calls(rt: HostRuntime) -> Result<(), AllocError> {
    let (board, token) = new_board(rt.alloc())?;
    let mut seat = board.sit(token);
    toggled(&rt, rt.alloc(), &mut seat)?;
    let last = seat.rise();
    let tally = board.close(rt.alloc(), last)?;
    check_tally(&rt, &tally, State::Disposed, 3);
    Ok(())
}
