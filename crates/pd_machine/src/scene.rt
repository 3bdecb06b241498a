//! The frames at an event, lent without copying.
ghost use Rattle.std.specs.Prelude.{◌≡◌, ◌<◌, ◌≤◌, length, option_copied};
ghost use Rattle.pd_machine.specs.Events.{Scene as Frames, at_of, frame_of, root_of, scene_value, standing};

use crate::run::{Frame, Home};
use pd_values::{Items, NodeId, Value};
use std::marker::Model;

/// The live frames at an event of a node, and the variables of main blocks. Frame 0 is the innermost, and
/// stands at the event's node; each other frame stands at the call node where it waits.
#[derive(Drop)]
pub struct Scene<'a> {
    frames: &'a [Frame],
    mains: &'a [Items<Value>],
    node: NodeId,
}

impl<'a> Model for Scene<'a> {
    ghost use Rattle.std.specs.Prelude.{◌≤◌, length};
    ghost use Rattle.pd_machine.specs.Events.{Scene as Frames, standing};

    ghost Value = { Frames };

    ghost view = { λ s. standing s.node (record { frames = s.frames.now; mains = s.mains.now }) };

    ghost invariant = { λ s. length s.frames.now ≤ 2000 };
}

impl<'a> Scene<'a> {
    /// The scene of these frames, the outermost first and at most 2,000, at an event of this node.
    pub fn of(frames: &'a [Frame], mains: &'a [Items<Value>], node: NodeId) -> Scene<'a>
        requires { length frames.now ≤ 2000 }
        ensures { result ≡ standing node (record { frames = frames.now; mains = mains.now }) }
    {
        Scene {
            frames,
            mains,
            node,
        }
    }

    /// The number of frames.
    #[tactic(auto, using(crate::proofs::Changed::length_of_changed))]
    pub fn frames(&self) -> u32
        ensures { result ≡ length self.now.frames }
    {
        self.frames.len() as u32
    }

    /// The root of the function or procedure of a frame.
    #[tactic(auto, using(crate::proofs::Changed::length_of_changed, crate::proofs::Changed::standing_root))]
    pub fn root(&self, i: u32) -> NodeId
        requires { i < length self.now.frames }
        ensures { root_of (frame_of self.now.frames i) ≡ Some result }
    {
        self.frames[self.frames.len() - 1 - i as usize].root
    }

    /// The node where a frame stands.
    #[tactic(auto, using(crate::proofs::Changed::length_of_changed, crate::proofs::Changed::standing_root))]
    pub fn at(&self, i: u32) -> NodeId
        requires { i < length self.now.frames }
        ensures { at_of (frame_of self.now.frames i) ≡ Some result }
    {
        if i == 0 {
            self.node
        } else {
            self.frames[self.frames.len() - 1 - i as usize].at
        }
    }

    /// The variable in this slot of the block that stands `up` blocks outward of a frame.
    #[tactic(auto, using(crate::proofs::Changed::length_of_changed, crate::proofs::Changed::standing_value))]
    pub fn value(&self, i: u32, up: u32, slot: u32) -> Option<&Value>
        ensures { option_copied result ≡ scene_value self.now i up slot }
    {
        value_at(
            self.frames,
            self.mains,
            i as usize,
            up as usize,
            slot as usize,
        )
    }
}

/// The variable in this slot of the block that stands `up` blocks outward of frame `i`, where 0 is the last.
pub fn value_at<'a>(
    frames: &'a [Frame],
    mains: &'a [Items<Value>],
    i: usize,
    up: usize,
    slot: usize,
) -> Option<&'a Value>
    ensures { let scene : Frames = record { frames = frames.now; mains = mains.now } in option_copied result ≡ scene_value scene i up slot }
{
    if i >= frames.len() {
        return None;
    }
    let frame = &frames[frames.len() - 1 - i];
    let home = frame.blocks.get(up)?;
    match home {
        Home::InFrame(k) => frames.get(*k as usize)?.variables.get(slot),
        Home::InMain(m) => mains.get(*m as usize)?.get(slot),
    }
}
