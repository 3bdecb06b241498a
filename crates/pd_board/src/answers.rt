//! What the calls of a board answer, and what a board keeps of them.
use pd_values::Items;

/// What a board has learnt of a binding. It goes from `Fresh` to `Attached` to `Disposed`, and never back.
#[derive(Clone, Copy, Debug, Drop, PartialEq, Eq)]
pub enum Known {
    /// Neither that it is attached nor that it is disposed.
    Fresh,
    /// That it is attached; whether it was disposed since isn't known.
    Attached,
    /// That it is disposed.
    Disposed,
}

/// What a draw gave. The numbers of a binding are counted from 0.
#[derive(Clone, Copy, Debug, Drop, PartialEq, Eq)]
pub enum Drawn {
    /// The binding's next number, which is the place of an entry in its log.
    On { place: u64 },
    /// The binding's next number, which gives no entry, since the binding is switched off.
    Missed { number: u64 },
    /// No number, since the binding isn't attached or is disposed.
    Off,
}

/// Whether this attached the binding.
#[derive(Clone, Copy, Debug, Drop, PartialEq, Eq)]
pub enum Attach {
    /// This attached it.
    Attached,
    /// An attach had been tried before.
    Already,
    /// No attach had been tried before, and the binding was disposed.
    Gone,
}

/// Whether this disposed the binding.
#[derive(Clone, Copy, Debug, Drop, PartialEq, Eq)]
pub enum Dispose {
    /// This disposed it, after `count` numbers had been drawn of it.
    Disposed { count: u64 },
    /// It had been disposed before.
    Already,
}

/// Whether this switched the binding on, or off.
#[derive(Clone, Copy, Debug, Drop, PartialEq, Eq)]
pub enum Toggle {
    /// This switched it, after `count` numbers had been drawn of it.
    At { count: u64 },
    /// There was nothing to change.
    Already,
    /// The binding was disposed, and nothing changed.
    Gone,
}

/// What an act did to the binding of this number: an attach, a dispose, a switch on, a switch off.
#[derive(Clone, Copy, Debug, Drop, PartialEq, Eq)]
pub enum ActResult {
    Attached(u32, Attach),
    Disposed(u32, Dispose),
    Enabled(u32, Toggle),
    Disabled(u32, Toggle),
}

/// A draw: the event at which it was made, of which binding, and what it gave.
#[derive(Clone, Copy, Debug, Drop, PartialEq, Eq)]
pub struct Sight {
    pub event: u32,
    pub binding: u32,
    pub drawn: Drawn,
}

/// An event at which a binding stood at the node and no number was taken: whether the binding was known as disposed,
/// and how many nodes had been loaded before.
#[derive(Clone, Copy, Debug, Drop, PartialEq, Eq)]
pub struct Passed {
    pub event: u32,
    pub binding: u32,
    pub disposed: bool,
    pub before: u32,
}

/// How a binding ended up.
#[derive(Clone, Copy, Debug, Drop, PartialEq, Eq)]
pub enum State {
    /// It was neither attached nor disposed.
    Unattached,
    /// It was attached, and not disposed.
    Live,
    /// It was disposed.
    Disposed,
}

/// How a binding ended up, and how many numbers were drawn of it.
#[derive(Clone, Copy, Debug, Drop, PartialEq, Eq)]
pub struct BindingTally {
    pub state: State,
    pub count: u64,
}

/// How each binding ended up, by its number, and how many answers of each session were taken.
#[derive(Drop)]
pub struct Tally {
    pub bindings: Items<BindingTally>,
    pub answers: Items<u32>,
}
