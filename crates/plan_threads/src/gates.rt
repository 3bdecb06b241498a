//! Gates that hold contexts and sessions until others have come.
use pd_outside::Gate;
use std::sync::atomic::{AtomicU32, Ordering};
use std::thread;

/// How often one that is held lets others run before it goes on without them.
const PATIENCE: u32 = 10_000_000;

/// A number that only grows, for which others wait.
#[derive(Drop)]
struct Count {
    word: AtomicU32,
}

impl Count {
    /// The number 0.
    fn zero() -> Count {
        Count {
            word: AtomicU32::new(0),
        }
    }

    fn value(&self) -> u32 {
        self.word.load(Ordering::SeqCst)
    }

    /// Adds one.
    fn raise(&self) {
        self.word.fetch_add(1, Ordering::SeqCst);
    }

    /// Waits until the number is at least so much, or for a while. Whether it is.
    fn reaches(&self, least: u32) -> bool {
        for _ in 0..PATIENCE {
            if self.value() >= least {
                return true;
            }
            thread::yield_now();
        }
        false
    }
}

/// Holds each of two contexts at its event 0 until the other has come there.
#[derive(Drop)]
pub struct ContextsMeet {
    there: Count,
    met: Count,
}

impl ContextsMeet {
    /// Nobody has come yet.
    pub fn new() -> ContextsMeet {
        ContextsMeet {
            there: Count::zero(),
            met: Count::zero(),
        }
    }

    /// How many of the two holds were met.
    pub fn met(&self) -> u32 {
        self.met.value()
    }
}

impl Gate for ContextsMeet {
    fn at(&self, _context: u32, event: u32) {
        if event == 0 {
            self.there.raise();
            if self.there.reaches(2) {
                self.met.raise();
            }
        }
    }

    fn act(&self, _session: u32, _action: u32) {}
}

/// Holds a context at its event 0 until a session has come to its action 1; the session there until the context has come
/// to its event 8; and the context there until the session has come to its action 2.
#[derive(Drop)]
pub struct TakeTurns {
    action_1: Count,
    event_8: Count,
    action_2: Count,
    met: Count,
}

impl TakeTurns {
    /// Nobody has come yet.
    pub fn new() -> TakeTurns {
        TakeTurns {
            action_1: Count::zero(),
            event_8: Count::zero(),
            action_2: Count::zero(),
            met: Count::zero(),
        }
    }

    /// How many of the three holds were met.
    pub fn met(&self) -> u32 {
        self.met.value()
    }

    fn hold(&self, until: &Count) {
        if until.reaches(1) {
            self.met.raise();
        }
    }
}

impl Gate for TakeTurns {
    fn at(&self, _context: u32, event: u32) {
        match event {
            0 => self.hold(&self.action_1),
            8 => {
                self.event_8.raise();
                self.hold(&self.action_2);
            }
            _ => {}
        }
    }

    fn act(&self, _session: u32, action: u32) {
        match action {
            1 => {
                self.action_1.raise();
                self.hold(&self.event_8);
            }
            2 => self.action_2.raise(),
            _ => {}
        }
    }
}

/// Holds all contexts and sessions until each has come to its first event or action, so that they begin together, and each
/// further action until the contexts have gone on. After a while each goes on by itself.
#[derive(Drop)]
pub struct Mixed {
    parties: u32,
    there: Count,
    events: Count,
}

/// How many events of all contexts lie between two actions of a session.
const EVENTS_BETWEEN: u32 = 50;

impl Mixed {
    /// A gate for so many contexts and sessions together. Nobody has come yet.
    pub fn new(parties: u32) -> Mixed {
        Mixed {
            parties,
            there: Count::zero(),
            events: Count::zero(),
        }
    }

    fn begin(&self) {
        self.there.raise();
        let _ = self.there.reaches(self.parties);
    }
}

impl Gate for Mixed {
    fn at(&self, context: u32, event: u32) {
        if event == 0 {
            self.begin();
        } else if event % 4 == context % 4 {
            thread::yield_now();
        }
        self.events.raise();
    }

    fn act(&self, _session: u32, action: u32) {
        if action == 0 {
            self.begin();
        }
        let _ = self.events.reaches(action.saturating_mul(EVENTS_BETWEEN));
    }
}
