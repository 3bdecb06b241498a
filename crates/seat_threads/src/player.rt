//! A player: a seat that makes only calls that it may make.
ghost use Rattle.std.specs.Prelude.{◌≡◌, ◌<◌, true, false, IfOk};
ghost use Rattle.pd_board.specs.Standing.{Standing, IsNew, bindings};
ghost use Rattle.pd_shared.specs.Sitting.{IsOf, standing_of};
ghost use Rattle.seat_threads.specs.Fit.{IsBoard, MayTake, IsFit, KeepsShares};

use crate::choices::{Act, BINDINGS, NODES, SESSIONS};
use crate::fault::{Call, Fault};
use crate::seen::{Answer, Seen};
use pd_board::{ActResult, Board, Chain, Known, Sight};
use pd_shared::{Seat, SharedBoard, Token};
use pd_values::NodeId;
use std::alloc::Global;

/// How many numbers and how many answers of each session a player may take.
const SHARE: u32 = 100_000;

/// How many loads of nodes, and how many cleared bits, are enough for a player.
const MOST: u32 = 1_000_000;

/// How many seats the first player may split off.
const SPLITS: u32 = 3;

/// A player that is away from its board: its token, what that may still take, and what its calls told.
#[derive(Drop)]
pub struct Rested {
    pub token: Token,
    left: u32,
    splits: u32,
    seen: Seen,
    ghost may: { MayTake left splits token },
}

/// A seat, what it may still take, and what its calls told.
///
/// Each call answers `Refused` where the seat may not make it, and then nothing is changed.
#[derive(Drop)]
pub struct Player<'b> {
    seat: Seat<'b>,
    /// How many numbers and how many answers of each session it may still take.
    left: u32,
    /// How many seats it may still split off.
    splits: u32,
    /// The node that it loaded last.
    node: u32,
    /// Which bindings of that node it has still to draw or to sweep.
    due: Chain,
    seen: Seen,
    ghost fit: { IsFit left splits node due (standing_of seat) },
}

/// Makes an act.
fn acted(seat: &mut Seat<'_>, act: Act, b: u32) -> ActResult
    requires binding { b < bindings (standing_of seat.old) }
    requires spare { 0 < (standing_of seat.old).spare }
    ensures keeps { KeepsShares (standing_of seat.old) (standing_of seat.new) }
    ensures hub { seat.new.hub ≡ seat.old.hub }
{
    match act {
        Act::Attach => ActResult::Attached(b, seat.attach(b)),
        Act::Disable => ActResult::Disabled(b, seat.disable(b)),
        Act::Enable => ActResult::Enabled(b, seat.enable(b)),
        Act::Dispose => ActResult::Disposed(b, seat.dispose(b)),
    }
}

impl Rested {
    /// The player of the first token of a new board.
    pub fn first(alloc: Global, board: &SharedBoard, token: Token) -> Rested
        requires { IsNew board.now.table 16 2 4 (standing_of (record { hub = board.now.core; table = board.now.table; token = token })) }
        ensures { result.token ≡ token }
    {
        Rested {
            token,
            left: SHARE,
            splits: SPLITS,
            seen: Seen::new(alloc),
        }
    }
}

impl<'b> Player<'b> {
    /// Takes a seat at the board.
    pub fn sit(board: &'b SharedBoard, rested: Rested) -> Player<'b>
        requires board { IsBoard board.now.core.layout board.now.table }
        requires of { IsOf board.now.core rested.token }
        ensures { result.seat.hub ≡ board.now.core }
    {
        let Rested {
            token,
            left,
            splits,
            seen,
        } = rested;
        Player {
            seat: board.sit(token),
            left,
            splits,
            node: 0,
            due: Chain::new(),
            seen,
        }
    }

    /// Gives up the seat.
    pub fn rest(self) -> Rested
        ensures { IsOf self.entry.seat.hub result.token }
    {
        let Player {
            seat,
            left,
            splits,
            seen,
            ..
        } = self;
        Rested {
            token: seat.rise(),
            left,
            splits,
            seen,
        }
    }

    /// A further player, with a seat that this one's splits off.
    pub fn split(&mut self, alloc: Global) -> Result<Player<'b>, Fault>
        ensures hub { self.new.seat.hub ≡ self.old.seat.hub }
        ensures other { IfOk result (λ p. p.seat.hub ≡ self.old.seat.hub) }
    {
        if self.splits == 0 || !self.seat.can_split() || self.seat.has_ended() {
            return Err(Fault::Refused(Call::Split));
        }
        let seat = self.seat.split(alloc)?;
        self.splits -= 1;
        Ok(Player {
            seat,
            left: SHARE,
            splits: 0,
            node: 0,
            due: Chain::new(),
            seen: Seen::new(alloc),
        })
    }

    /// Makes room for so many draws, acts and answers.
    pub fn reserve(&mut self, alloc: Global, steps: u32) -> Result<(), Fault>
        ensures hub { self.new.seat.hub ≡ self.old.seat.hub }
    {
        if steps > self.left {
            return Err(Fault::Refused(Call::Reserve));
        }
        self.seat.reserve(alloc, steps)?;
        Ok(())
    }

    /// Loads a node. All bindings that it holds are then due.
    pub fn load(&mut self, n: u32) -> Result<(), Fault>
        ensures hub { self.new.seat.hub ≡ self.old.seat.hub }
    {
        if n >= NODES || self.seat.all_loads() >= MOST {
            return Err(Fault::Refused(Call::Load));
        }
        if self.seat.has_ended() || !self.seat.nothing_due() {
            return Err(Fault::Refused(Call::Load));
        }
        self.due = self.seat.chain(NodeId(n));
        self.node = n;
        Ok(())
    }

    /// Draws a binding that is due and not known as disposed.
    fn draw(&mut self, event: u32, b: u32) -> Result<(), Fault>
        ensures hub { self.new.seat.hub ≡ self.old.seat.hub }
    {
        let may = b < BINDINGS && self.due.contains(b) && self.seat.known(b) != Known::Disposed;
        if !may || self.left == 0 || self.seat.spare() == 0 || self.seat.has_ended() {
            return Err(Fault::Refused(Call::Draw));
        }
        let drawn = self.seat.draw(event, b);
        self.left -= 1;
        self.due.remove(b);
        self.seen.sights.push(Sight {
            event,
            binding: b,
            drawn,
        })?;
        Ok(())
    }

    /// Sweeps a binding that is due and known as disposed.
    fn sweep(&mut self, b: u32) -> Result<(), Fault>
        ensures hub { self.new.seat.hub ≡ self.old.seat.hub }
    {
        let may = b < BINDINGS && self.due.contains(b) && self.seat.known(b) == Known::Disposed;
        if !may || self.seat.cleared() >= u64::from(MOST) {
            return Err(Fault::Refused(Call::Sweep));
        }
        self.seat.sweep(NodeId(self.node), b);
        self.due.remove(b);
        Ok(())
    }

    /// Meets a binding at the event, where it is due: sweeps it where it is known as disposed, and else draws it.
    fn meet(&mut self, event: u32, b: u32) -> Result<(), Fault>
        ensures hub { self.new.seat.hub ≡ self.old.seat.hub }
    {
        if b >= BINDINGS || !self.due.contains(b) {
            return Ok(());
        }
        if self.seat.known(b) == Known::Disposed {
            return self.sweep(b);
        }
        self.draw(event, b)
    }

    /// Meets each binding that is due.
    pub fn meet_all(&mut self, event: u32) -> Result<(), Fault>
        ensures hub { self.new.seat.hub ≡ self.old.seat.hub }
    {
        for b in 0..BINDINGS {
            self.meet(event, b)?;
        }
        Ok(())
    }

    /// Makes an act.
    pub fn act(&mut self, act: Act, b: u32) -> Result<(), Fault>
        ensures hub { self.new.seat.hub ≡ self.old.seat.hub }
    {
        if b >= BINDINGS || self.seat.spare() == 0 {
            return Err(Fault::Refused(Call::Act));
        }
        let reply = acted(&mut self.seat, act, b);
        self.seen.replies.push(reply)?;
        Ok(())
    }

    /// Takes an answer of the session.
    pub fn answer(&mut self, session: u32) -> Result<(), Fault>
        ensures hub { self.new.seat.hub ≡ self.old.seat.hub }
    {
        let may = session < SESSIONS && self.left > 0 && !self.seat.has_ended();
        if !may || self.seat.spare() == 0 {
            return Err(Fault::Refused(Call::Answer));
        }
        let number = u64::from(self.seat.take_answer(session));
        self.left -= 1;
        self.seen.answers.push(Answer { session, number })?;
        Ok(())
    }

    /// Counts the player's context as ended.
    pub fn end(&mut self) -> Result<(), Fault>
        ensures hub { self.new.seat.hub ≡ self.old.seat.hub }
    {
        if self.seat.has_ended() {
            return Err(Fault::Refused(Call::End));
        }
        self.seat.ended();
        Ok(())
    }

    /// Gives up the seat: its token, and what its calls told.
    pub fn leave(self) -> (Token, Seen)
        ensures { IsOf self.entry.seat.hub result.0 }
    {
        let Player { seat, seen, .. } = self;
        (seat.rise(), seen)
    }
}
