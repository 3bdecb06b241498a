//! What became of a binding.
ghost use Rattle.std.specs.Prelude.{◌≡◌, ◌+◌, ◌<◌, ◌^◌};

use crate::answers::{Attach, BindingTally, Dispose, Drawn, Known, State, Toggle};

/// Whether a binding was attached, disposed and switched off, and how many numbers were drawn of it.
#[derive(Clone, Copy, Drop)]
pub(crate) struct Life {
    pub(crate) attached: bool,
    pub(crate) disposed: bool,
    pub(crate) off: bool,
    pub(crate) count: u64,
}

impl Life {
    ghost use Rattle.pd_board.specs.Life as life;

    /// Nothing was done to it.
    pub(crate) fn new() -> Life
        ensures { result ≡ life.untouched }
    {
        Life {
            attached: false,
            disposed: false,
            off: false,
            count: 0,
        }
    }

    /// What the board knows of it.
    pub(crate) fn known(&self) -> Known
        ensures { result ≡ life.known self.now }
    {
        if self.disposed {
            Known::Disposed
        } else if self.attached {
            Known::Attached
        } else {
            Known::Fresh
        }
    }

    /// Takes its next number, where it is attached and not disposed.
    pub(crate) fn draw(&mut self) -> Drawn
        requires { self.old.count + 1 < 2 ^ 64 }
        ensures answer { result ≡ life.drawn self.old }
        ensures after { self.new ≡ life.after_draw self.old }
    {
        if !self.attached || self.disposed {
            return Drawn::Off;
        }
        let number = self.count;
        self.count += 1;
        if self.off {
            Drawn::Missed { number }
        } else {
            Drawn::On { place: number }
        }
    }

    /// Sets it attached, and says whether this was the first to do so.
    pub(crate) fn attach(&mut self) -> Attach
        ensures answer { result ≡ life.attached self.old }
        ensures after { self.new ≡ life.after_attach self.old }
    {
        let answer = if self.attached {
            Attach::Already
        } else if self.disposed {
            Attach::Gone
        } else {
            Attach::Attached
        };
        self.attached = true;
        answer
    }

    /// Sets it disposed, and says whether this was the first to do so.
    pub(crate) fn dispose(&mut self) -> Dispose
        ensures answer { result ≡ life.disposed self.old }
        ensures after { self.new ≡ life.after_dispose self.old }
    {
        let answer = if self.disposed {
            Dispose::Already
        } else {
            Dispose::Disposed { count: self.count }
        };
        self.disposed = true;
        answer
    }

    /// Switches the binding off, or on.
    pub(crate) fn switch(&mut self, off: bool) -> Toggle
        ensures answer { result ≡ life.switched off self.old }
        ensures after { self.new ≡ life.after_switch off self.old }
    {
        if self.disposed {
            return Toggle::Gone;
        }
        let answer = if self.off == off {
            Toggle::Already
        } else {
            Toggle::At { count: self.count }
        };
        self.off = off;
        answer
    }

    /// How it ends up, and how many numbers were drawn of it.
    pub(crate) fn tally(&self) -> BindingTally
        ensures { result ≡ life.tally_of self.now }
    {
        let state = if self.disposed {
            State::Disposed
        } else if self.attached {
            State::Live
        } else {
            State::Unattached
        };
        BindingTally {
            state,
            count: self.count,
        }
    }
}
