//! The state of one run, and the moves of which its turns are made.
ghost use Rattle.std.specs.Prelude.{◌≡◌, ◌+◌, ◌-◌, ◌^◌, ◌<◌, ◌≤◌, ◌↔◌, ◌++◌, ◌∷◌, [], ℕ, suc, length, nat_le, take, slice_get, slice_set, option_copied, IfOk, IsTrue, MatchBool, MatchOption};
ghost use Rattle.pd_machine.specs.Events.{blocks_of, change_at, end_of, frame_of, scene_value, set_variable, standing};
ghost use Rattle.pd_machine.specs.Held.{IsOver, end_at, scene_of, with_scene};

use crate::event::{Event, EventKind};
use crate::run::{Cutoff, Frame, Home, Mode, NodeResult, Pending};
use crate::scene::{Scene, value_at};
use pd_values::{End, Items, NodeId, Text, Value};
use std::alloc::{AllocError, Global};
use std::marker::Model;
use std::mem;

/// The most live frames, over all sources together. A call beyond it is the fault `Depth`.
pub const MOST_FRAMES: usize = 2_000;

/// The most bytes of output: 2^24. A line beyond it is the fault `OutputLong`.
const LONGEST_OUTPUT: usize = 16_777_216;

/// What a turn told: nothing, or an event.
#[derive(Drop)]
pub enum Turn {
    Quiet,
    Tells(Event),
}

/// The state of one run: what is done next, what waits, the frames, the variables of main blocks, the
/// output, the number of events told, and the fuel.
#[derive(Drop)]
pub struct Machine {
    mode: Mode,
    stack: Vec<Pending>,
    frames: Vec<Frame>,
    mains: Vec<Items<Value>>,
    output: String,
    told: u32,
    left: u32,
    fuel: u32,
}

impl Model for Machine {
    ghost use Rattle.std.specs.Prelude.{◌≤◌, length, reverse, string_bytes};
    ghost use Rattle.pd_machine.specs.Held.{Held};

    ghost Value = { Held };

    ghost view = { λ m. record { mode = m.mode; stack = reverse m.stack.items; frames = m.frames.items; mains = m.mains.items; output = string_bytes m.output; told = m.told; left = m.left; fuel = m.fuel } };

    ghost invariant = { λ m. (length m.frames.items ≤ 2000) × (m.left ≤ m.fuel) };
}

impl Machine {
    /// A run that begins with a call of this frame, with the variables of the main block of each source
    /// and so much fuel.
    pub fn new(
        alloc: Global,
        frame: Frame,
        mains: Vec<Items<Value>>,
        fuel: u32,
    ) -> Result<Machine, AllocError>
        ensures { IfOk result (λ m. m ≡ record { mode = Mode.Entering frame.root; stack = Pending.InCall 0 frame ∷ []; frames = frame ∷ []; mains = mains.items; output = []; told = 0; left = fuel; fuel = fuel }) }
    {
        let root = frame.root;
        let mut frames = Vec::new(alloc);
        frames.push(frame.copy(alloc)?)?;
        let mut stack = Vec::new(alloc);
        stack.push(Pending::InCall(0, frame))?;
        Ok(Machine {
            mode: Mode::Entering(root),
            stack,
            frames,
            mains,
            output: String::new(alloc),
            told: 0,
            left: fuel,
            fuel,
        })
    }

    /// Whether the run is over.
    pub fn is_over(&self) -> bool
        ensures { IsTrue result ↔ IsOver self.now }
    {
        match self.mode {
            Mode::Coming(_) => self.stack.is_empty(),
            _ => false,
        }
    }

    /// What is done next.
    pub fn mode(&self) -> &Mode
        ensures { result.now ≡ self.now.mode }
    {
        &self.mode
    }

    /// Takes out what is done next, for a turn that puts in what is done after it.
    pub fn take_mode(&mut self) -> Mode
        ensures mode { result ≡ self.old.mode }
        ensures rest { self.new ≡ record self.old { mode = Mode.Coming (NodeResult.Stops Cutoff.WasKilled) } }
    {
        mem::replace(
            &mut self.mode,
            Mode::Coming(NodeResult::Stops(Cutoff::WasKilled)),
        )
    }

    /// Says what is done next.
    #[inline(always)]
    pub fn set_mode(&mut self, mode: Mode)
        ensures { self.new ≡ record self.old { mode = mode } }
    {
        self.mode = mode;
    }

    /// Lets this wait on top.
    #[inline(always)]
    pub fn push(&mut self, pending: Pending) -> Result<(), AllocError>
        ensures { IfOk result (λ _. self.new ≡ record self.old { stack = pending ∷ self.old.stack }) }
    {
        self.stack.push(pending)?;
        Ok(())
    }

    /// Takes what waits on top.
    pub fn pop(&mut self) -> Option<Pending>
        ensures some { MatchOption result (self.old.stack ≡ []) (λ x. self.old.stack ≡ x ∷ self.new.stack) }
        ensures rest { self.new ≡ record self.old { stack = self.new.stack } }
    {
        self.stack.pop()
    }

    /// Takes one unit of fuel, where there is one.
    pub fn take_fuel(&mut self) -> bool
        ensures some { MatchBool result (self.old.left ≡ suc self.new.left) (self.old.left ≡ 0) }
        ensures rest { self.new ≡ record self.old { left = self.new.left } }
        ensures none { MatchBool result Unit (self.new.left ≡ 0) }
    {
        if self.left == 0 {
            return false;
        }
        self.left -= 1;
        true
    }

    /// The number of live frames.
    pub fn depth(&self) -> usize
        ensures count { result ≡ length self.now.frames }
        ensures bound { result ≤ 2000 }
    {
        self.frames.len()
    }

    /// The next event: of this kind, of this node, whose Enter has the number `opened`.
    pub fn tell(&mut self, node: NodeId, opened: u32, kind: EventKind) -> Event
        requires { self.old.told + 1 < 2 ^ 32 }
        ensures event { result ≡ record { number = self.old.told; kind = kind; node = node; opened = opened; depth = length self.old.frames } }
        ensures rest { self.new ≡ record self.old { told = self.old.told + 1 } }
    {
        let number = self.told;
        self.told += 1;
        Event {
            number,
            kind,
            node,
            opened,
            depth: self.frames.len() as u32,
        }
    }

    /// The number of events so far.
    pub fn told(&self) -> u32
        ensures { result ≡ self.now.told }
    {
        self.told
    }

    /// The frames, where the innermost stands at this node, and the variables of main blocks.
    pub fn scene(&self, node: NodeId) -> Scene<'_>
        ensures { result ≡ standing node (scene_of self.now) }
    {
        Scene::of(self.frames.as_slice(), self.mains.as_slice(), node)
    }

    /// The innermost frame stands at this node.
    #[tactic(auto, using(crate::proofs::Changed::length_of_changed))]
    pub fn stand(&mut self, node: NodeId)
        ensures rest { self.new ≡ with_scene self.old (standing node (scene_of self.old)) }
        ensures count { length self.new.frames ≡ length self.old.frames }
    {
        stand_at(&mut self.frames, node);
    }

    /// Begins a call of this frame: its root is entered.
    pub fn begin_call(&mut self, alloc: Global, frame: Frame) -> Result<(), AllocError>
        requires { length self.old.frames < 2000 }
        ensures { IfOk result (λ _. self.new ≡ record self.old { mode = Mode.Entering frame.root; stack = Pending.InCall (length self.old.frames) frame ∷ self.old.stack; frames = self.old.frames ++ frame ∷ [] }) }
    {
        self.mode = Mode::Entering(frame.root);
        let number = self.frames.len() as u32;
        self.frames.push(frame.copy(alloc)?)?;
        self.stack.push(Pending::InCall(number, frame))?;
        Ok(())
    }

    /// Removes the innermost frame.
    pub fn pop_frame(&mut self)
        ensures rest { self.new ≡ record self.old { frames = take (length self.old.frames - 1) self.old.frames } }
        ensures room { length self.new.frames < 2000 }
    {
        self.frames.pop();
    }

    /// The blocks that the innermost frame sees, from its own outward.
    pub fn blocks(&self) -> &[Home]
        ensures { result.now ≡ blocks_of (frame_of self.now.frames 0) }
    {
        match self.frames.last() {
            Some(frame) => frame.blocks.as_slice(),
            None => &[],
        }
    }

    /// The variable in this slot of the block that stands `up` blocks outward of the innermost frame.
    pub fn value(&self, up: u32, slot: u32) -> Option<&Value>
        ensures { option_copied result ≡ scene_value (scene_of self.now) 0 up slot }
    {
        value_at(
            self.frames.as_slice(),
            self.mains.as_slice(),
            0,
            up as usize,
            slot as usize,
        )
    }

    /// Writes that variable.
    #[tactic(auto, using(crate::proofs::Changed::length_of_changed))]
    pub fn set_value(&mut self, up: u32, slot: u32, value: Value)
        ensures { self.new ≡ with_scene self.old (set_variable (scene_of self.old) up slot value) }
    {
        match home_of(&self.frames, up as usize) {
            Some(Home::InFrame(k)) => set_in_frame(
                &mut self.frames,
                k as usize,
                slot as usize,
                value,
            ),
            Some(Home::InMain(k)) => set_in_main(&mut self.mains, k as usize, slot as usize, value),
            None => {}
        }
    }

    /// Writes a text and a line end, and says so, where the output then has at most 16,777,216 bytes; else
    /// nothing is written.
    pub fn write_line(&mut self, text: &str) -> Result<bool, AllocError>
        ensures fits { IfOk result (λ b. b ≡ nat_le (length self.old.output + length text.now + 1) (2 ^ 24)) }
        ensures written { IfOk result (λ b. MatchBool b (self.new ≡ record self.old { output = self.old.output ++ (text.now ++ 10 ∷ []) }) (self.new ≡ self.old)) }
    {
        let room = LONGEST_OUTPUT.saturating_sub(self.output.len());
        if text.len() >= room {
            return Ok(false);
        }
        self.output.push_str(text)?;
        self.output.push_str("\n")?;
        Ok(true)
    }

    /// The output, the end, the fuel used and the number of events of a run that is over.
    pub fn finish(self) -> (Text, End, u32, u32)
        requires { IsOver self }
        ensures { result ≡ (self.output, end_at self.mode, self.fuel - self.left, self.told) }
    {
        let Machine {
            mode,
            stack: _,
            frames: _,
            mains: _,
            output,
            told,
            left,
            fuel,
        } = self;
        (Text::of(output), end_at(mode), fuel - left, told)
    }
}

/// The end of a run whose entry comes to this.
fn end_of(came: NodeResult) -> End
    ensures { result ≡ end_of came }
{
    match came {
        NodeResult::Gives(value) => End::Done(value),
        NodeResult::Faults(fault, node) => End::Faulted(fault, node),
        NodeResult::Stops(cutoff) => end_of_cutoff(cutoff),
        _ => End::Done(Value::Null),
    }
}

/// The end of a run that is stopped by this.
fn end_of_cutoff(cutoff: Cutoff) -> End
    ensures { result ≡ end_of (NodeResult.Stops cutoff) }
{
    match cutoff {
        Cutoff::SpentFuel => End::Exhausted,
        Cutoff::WasKilled => End::Killed,
    }
}

/// The end of a run that is over, by its mode; `Killed` for a mode in which no run is over.
fn end_at(mode: Mode) -> End
    ensures { result ≡ end_at mode }
{
    match mode {
        Mode::Coming(result) => end_of(result),
        _ => End::Killed,
    }
}

/// The last frame stands at this node.
#[tactic(auto, using(crate::proofs::Changed::changed_read, crate::proofs::Changed::changed_past))]
fn stand_at(frames: &mut Vec<Frame>, node: NodeId)
    ensures { frames.new.items ≡ change_at frames.old.items (length frames.old.items - 1) (λ f. record f { at = node }) }
{
    let count = frames.len();
    if count > 0 {
        frames[count - 1].at = node;
    }
}

/// Where the variables stand of the block that is so many blocks outward of the last frame.
fn home_of(frames: &Vec<Frame>, up: usize) -> Option<Home>
    ensures { result ≡ slice_get (blocks_of (frame_of frames.now.items 0)) up }
{
    frames.last()?.blocks.get(up).copied()
}

#[tactic(auto, using(crate::proofs::Changed::changed_read, crate::proofs::Changed::changed_past))]
fn set_in_frame(frames: &mut Vec<Frame>, k: usize, slot: usize, value: Value)
    ensures { frames.new.items ≡ change_at frames.old.items k (λ f. record f { variables = slice_set f.variables slot value }) }
{
    if k < frames.len() {
        frames[k].variables.set(slot, value);
    }
}

#[tactic(auto, using(crate::proofs::Changed::changed_read, crate::proofs::Changed::changed_past))]
fn set_in_main(mains: &mut Vec<Items<Value>>, k: usize, slot: usize, value: Value)
    ensures { mains.new.items ≡ change_at mains.old.items k (λ vs. slice_set vs slot value) }
{
    if k < mains.len() {
        mains[k].set(slot, value);
    }
}
