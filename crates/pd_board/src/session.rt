//! The word of a session.
ghost use Rattle.std.specs.Prelude.{◌≡◌};

/// How many answers of the session were taken, how often this was read, and what was read last.
#[derive(Clone, Copy, Drop)]
pub(crate) struct SessionWord {
    pub(crate) taken: u32,
    pub(crate) loads: u32,
    pub(crate) last: u32,
}

impl SessionWord {
    ghost use Rattle.pd_board.specs.Sessions.{unread};

    /// Nothing was taken or read.
    pub(crate) fn new() -> SessionWord
        ensures { result ≡ unread }
    {
        SessionWord {
            taken: 0,
            loads: 0,
            last: 0,
        }
    }
}
