//! Worked sequences of calls.
ghost use Rattle.std.specs.Prelude.{◌≡◌, ℕ, ◌==◌, ◌&&◌, not, ◌<◌, ◌≤◌, [], ◌∷◌, true, false, IfOk, IfSome, Some};
ghost use Rattle.pd_board.specs.Answers.{has_attachment, has_disposal};
ghost use Rattle.board_tests.specs.Examples.{worked_sights, worked_replies, toggled_sights, toggled_replies};
ghost use Rattle.pd_board.specs.Kept.{numbers_of, IsMissed, follows};
ghost use Rattle.pd_board.specs.Plain.{standing_of};
ghost use Rattle.pd_board.specs.Standing.{bindings};
ghost use Rattle.pd_board.specs.Tally.{state_by};

use pd_board::{
    ActResult, Attach, BindingTally, Board, Chain, Dispose, Drawn, Known, PlainBoard, Sight, State,
    Toggle,
};
use pd_plan::MatchTable;
use pd_values::{Items, NodeId};
use std::alloc::{AllocError, Global};
use std::process::Abort;
use std::test::Fail;

// What the definitions say of the worked sequences.
fn definitions()
    ensures numbers { numbers_of 0 worked_sights ≡ 0 ∷ 1 ∷ [] }
    ensures other { numbers_of 1 worked_sights ≡ [] }
    ensures state { state_by (has_disposal 0 worked_replies) (has_attachment 0 worked_replies) ≡ State.Disposed }
    ensures untouched { state_by (has_disposal 1 worked_replies) (has_attachment 1 worked_replies) ≡ State.Unattached }
    ensures toggled { numbers_of 0 toggled_sights ≡ 0 ∷ 1 ∷ 2 ∷ [] }
    ensures place { IsMissed 0 0 false toggled_replies }
    ensures missed { IsMissed 0 1 true toggled_replies }
    ensures later { IsMissed 0 2 false toggled_replies }
    ensures again { follows 0 worked_replies (ActResult.Attached 0 Attach.Already) ≡ true }
    ensures never { follows 0 worked_replies (ActResult.Attached 0 Attach.Attached) ≡ false }
    ensures on { follows 0 toggled_replies (ActResult.Enabled 0 Toggle.Already) ≡ true }
{}

// One binding, whose row has node 3 of 8.
pub(crate) fn one_binding(alloc: Global, always: bool) -> Result<MatchTable, AllocError>
    ensures rows { IfOk result (λ t. t.rows ≡ (3 ∷ []) ∷ []) }
    ensures always { IfOk result (λ t. t.always ≡ always ∷ []) }
{
    let mut row = Vec::new(alloc);
    row.push(NodeId(3))?;
    let mut rows = Vec::new(alloc);
    rows.push(Items::of(row))?;
    let mut drawn = Vec::new(alloc);
    drawn.push(always)?;
    Ok(MatchTable {
        rows: Items::of(rows),
        always: Items::of(drawn),
    })
}

// A board with one session and two contexts, and room for 32 steps.
fn new_board(alloc: Global, always: bool) -> Result<PlainBoard, AllocError>
    ensures rows { IfOk result (λ board. (standing_of board).table.rows ≡ (3 ∷ []) ∷ []) }
    ensures always { IfOk result (λ board. (standing_of board).table.always ≡ always ∷ []) }
    ensures nodes { IfOk result (λ board. (standing_of board).nodes ≡ 8) }
    ensures sessions { IfOk result (λ board. (standing_of board).sessions ≡ 1) }
{
    let table = one_binding(alloc, always)?;
    let mut board = PlainBoard::new(alloc, &table, 8, 1, 2)?;
    board.reserve(alloc, 32)?;
    Ok(board)
}

#[test]
fn definitions_agree_with_the_worked_sequences() {
    definitions();
}

// Draws binding 0, which is known as attached.
fn draw(rt: &impl Abort, board: &mut PlainBoard, event: u32, wanted: Drawn)
    requires { bindings (standing_of board.old) ≡ 1 }
    ensures table { (standing_of board.new).table ≡ (standing_of board.old).table }
    ensures nodes { (standing_of board.new).nodes ≡ (standing_of board.old).nodes }
{
    assert!(rt; !board.has_ended() && board.spare() > 0 && board.draw_share() > 0);
    assert_eq!(rt; board.known(0), Known::Attached);
    assert_eq!(rt; board.draw(event, 0), wanted);
}

// Loads node 3, and gives the first binding there.
fn load(rt: &impl Abort, board: &mut PlainBoard) -> Option<u32>
    requires { (standing_of board.old).nodes ≡ 8 }
    ensures table { (standing_of board.new).table ≡ (standing_of board.old).table }
    ensures nodes { (standing_of board.new).nodes ≡ (standing_of board.old).nodes }
    ensures last_node { (standing_of board.new).last_node ≡ Some 3 }
    ensures held { IfSome result (λ b. (standing_of board.new).held b ≡ true) }
{
    assert!(rt; !board.has_ended() && board.nothing_due() && board.all_loads() < 100);
    board.chain(NodeId(3)).next_from(0)
}

// Sweeps binding 0, which is known as disposed, from node 3.
fn sweep(rt: &impl Abort, board: &mut PlainBoard)
    requires bindings { bindings (standing_of board.old) ≡ 1 }
    requires nodes { (standing_of board.old).nodes ≡ 8 }
    requires last_node { (standing_of board.old).last_node ≡ Some 3 }
    ensures table { (standing_of board.new).table ≡ (standing_of board.old).table }
    ensures nodes { (standing_of board.new).nodes ≡ (standing_of board.old).nodes }
{
    assert_eq!(rt; board.known(0), Known::Disposed);
    assert!(rt; board.is_due(0) && board.cleared() < 100);
    board.sweep(NodeId(3), 0);
}

// An act on binding 0, and what it answers.
fn act(rt: &impl Abort, board: &mut PlainBoard, wanted: ActResult)
    requires { bindings (standing_of board.old) ≡ 1 }
    ensures table { (standing_of board.new).table ≡ (standing_of board.old).table }
    ensures nodes { (standing_of board.new).nodes ≡ (standing_of board.old).nodes }
{
    assert!(rt; board.spare() > 0);
    match wanted {
        ActResult::Attached(_, answer) => assert_eq!(rt; board.attach(0), answer),
        ActResult::Disposed(_, answer) => assert_eq!(rt; board.dispose(0), answer),
        ActResult::Enabled(_, answer) => assert_eq!(rt; board.enable(0), answer),
        ActResult::Disabled(_, answer) => assert_eq!(rt; board.disable(0), answer),
    }
}

#[test]
fn a_binding_from_its_attach_to_its_sweep(rt: HostRuntime) -> Result<(), Fail> {
    let mut board = new_board(rt.alloc(), true)?;
    act(&rt, &mut board, ActResult::Attached(0, Attach::Attached));
    assert_eq!(rt; load(&rt, &mut board), Some(0));
    draw(&rt, &mut board, 0, Drawn::On { place: 0 });
    assert_eq!(rt; load(&rt, &mut board), Some(0));
    draw(&rt, &mut board, 4, Drawn::On { place: 1 });
    act(
        &rt,
        &mut board,
        ActResult::Disposed(0, Dispose::Disposed { count: 2 }),
    );
    assert_eq!(rt; load(&rt, &mut board), Some(0));
    sweep(&rt, &mut board);
    assert_eq!(rt; load(&rt, &mut board), None);
    act(&rt, &mut board, ActResult::Disposed(0, Dispose::Already));
    act(&rt, &mut board, ActResult::Attached(0, Attach::Already));
    let sight = Sight {
        event: 4,
        binding: 0,
        drawn: Drawn::On { place: 1 },
    };
    assert_eq!(rt; board.sights().last().copied(), Some(sight));
    let tally = board.tally(rt.alloc())?;
    let disposed = BindingTally {
        state: State::Disposed,
        count: 2,
    };
    assert_eq!(rt; tally.bindings.as_slice(), [disposed].as_slice());
    assert_eq!(rt; tally.answers.as_slice(), [0].as_slice());
    Ok(())
}

#[test]
fn a_binding_that_is_switched_off_and_on(rt: HostRuntime) -> Result<(), Fail> {
    let mut board = new_board(rt.alloc(), true)?;
    act(&rt, &mut board, ActResult::Attached(0, Attach::Attached));
    draw(&rt, &mut board, 0, Drawn::On { place: 0 });
    act(
        &rt,
        &mut board,
        ActResult::Disabled(0, Toggle::At { count: 1 }),
    );
    draw(&rt, &mut board, 1, Drawn::Missed { number: 1 });
    act(&rt, &mut board, ActResult::Disabled(0, Toggle::Already));
    act(
        &rt,
        &mut board,
        ActResult::Enabled(0, Toggle::At { count: 2 }),
    );
    draw(&rt, &mut board, 2, Drawn::On { place: 2 });
    act(
        &rt,
        &mut board,
        ActResult::Disposed(0, Dispose::Disposed { count: 3 }),
    );
    act(&rt, &mut board, ActResult::Enabled(0, Toggle::Gone));
    Ok(())
}

// Passes binding 0, whose condition is false, at node 3.
fn pass(rt: &impl Abort, board: &mut PlainBoard)
    requires bindings { bindings (standing_of board.old) ≡ 1 }
    requires always { (standing_of board.old).table.always ≡ false ∷ [] }
{
    assert!(rt; !board.has_ended() && board.spare() > 0 && board.is_due(0));
    board.pass(0, 0);
}

#[test]
fn a_false_condition_passes(rt: HostRuntime) -> Result<(), Fail> {
    let mut board = new_board(rt.alloc(), false)?;
    act(&rt, &mut board, ActResult::Attached(0, Attach::Attached));
    assert_eq!(rt; load(&rt, &mut board), Some(0));
    pass(&rt, &mut board);
    assert!(rt; board.nothing_due() && board.sights().is_empty());
    Ok(())
}

// A second attach finds that there was one, on any board.
fn attach_twice<B: Board>(board: &mut B, b: u32) -> Attach
    requires binding { b < bindings (B.standing board.old) }
    requires spare { 2 ≤ (B.standing board.old).spare }
    ensures again { result ≡ Attach.Already }
    ensures table { (B.standing board.new).table ≡ (B.standing board.old).table }
    ensures nodes { (B.standing board.new).nodes ≡ (B.standing board.old).nodes }
{
    let _ = board.attach(b);
    board.attach(b)
}

// Draws or sweeps a binding that the last load left due, on any board.
fn settle<B: Board>(board: &mut B, n: NodeId, event: u32, b: u32)
    requires node { n < (B.standing board.old).nodes }
    requires binding { b < bindings (B.standing board.old) }
    requires open { (B.standing board.old).ended ≡ false }
    requires last_node { (B.standing board.old).last_node ≡ Some n }
    requires held { (B.standing board.old).held b ≡ true }
    requires due { (B.standing board.old).due b ≡ true }
    requires spare { 0 < (B.standing board.old).spare }
    requires share { 0 < (B.standing board.old).draw_share }
    requires room { (B.standing board.old).cleared < 100 }
    ensures due { (c : ℕ) → (B.standing board.new).due c ≡ (not (c == b) && (B.standing board.old).due c) }
{
    if board.known(b) == Known::Disposed {
        board.sweep(n, b);
    } else {
        let _ = board.draw(event, b);
    }
}

// Settles binding 0, which the last load met at node 3.
fn settle_first(rt: &impl Abort, board: &mut PlainBoard)
    requires bindings { bindings (standing_of board.old) ≡ 1 }
    requires nodes { (standing_of board.old).nodes ≡ 8 }
    requires last_node { (standing_of board.old).last_node ≡ Some 3 }
    requires held { (standing_of board.old).held 0 ≡ true }
{
    assert!(rt; !board.has_ended() && board.spare() > 0 && board.draw_share() > 0);
    assert!(rt; board.is_due(0) && board.cleared() < 100);
    settle(board, NodeId(3), 7, 0);
}

// A second answer has a greater number than the first, on any board.
fn take_two<B: Board>(board: &mut B, session: u32) -> (u32, u32)
    requires session { session < (B.standing board.old).sessions }
    requires open { (B.standing board.old).ended ≡ false }
    requires spare { 2 ≤ (B.standing board.old).spare }
    requires share { 2 ≤ (B.standing board.old).answer_share session }
    ensures { result.0 < result.1 }
{
    let first = board.take_answer(session);
    (first, board.take_answer(session))
}

#[test]
fn any_board_attaches_once_and_settles_what_it_meets(rt: HostRuntime) -> Result<(), Fail> {
    let mut board = new_board(rt.alloc(), true)?;
    assert!(rt; board.spare() >= 2);
    assert_eq!(rt; attach_twice(&mut board, 0), Attach::Already);
    assert_eq!(rt; load(&rt, &mut board), Some(0));
    settle_first(&rt, &mut board);
    assert!(rt; board.nothing_due());
    assert_eq!(rt; board.sights().len(), 1);
    Ok(())
}

#[test]
fn answers_are_counted_until_the_context_has_ended(rt: HostRuntime) -> Result<(), Fail> {
    let mut board = new_board(rt.alloc(), true)?;
    assert!(rt; !board.has_ended() && board.spare() >= 2 && board.answer_share(0) >= 2);
    assert_eq!(rt; take_two(&mut board, 0), (0, 1));
    Ok(())
}

#[test]
fn a_chain_gives_its_bindings_in_order(rt: HostRuntime) {
    let mut chain = Chain::new();
    chain.set_row(0, 1 << 5);
    chain.set_row(2, 3);
    chain.set_row(63, 1 << 63);
    for (from, wanted) in [
        (0, Some(5)),
        (5, Some(5)),
        (6, Some(128)),
        (129, Some(129)),
        (130, Some(4095)),
        (4096, None),
    ] {
        assert_eq!(rt; chain.next_from(from), wanted);
    }
    chain.remove(4095);
    assert_eq!(rt; chain.next_from(130), None);
    assert!(rt; chain.contains(129) && !chain.is_empty());
}
