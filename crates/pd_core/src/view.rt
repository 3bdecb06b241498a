//! What a pass knows. No value of these types is made: they exist in proofs alone.
use std::collections::LinkedList;

/// What a draw gave: a number of its binding that gives an entry, a number that gives none since the binding was
/// switched off, or no number, since the binding was not live.
pub enum Drawn {
    On(u64),
    Missed(u64),
    Off,
}

/// A draw: at which event, of which binding, with which outcome, how many nodes this pass had loaded before it, and
/// how many steps it had taken before it.
pub struct Sight {
    pub event: u64,
    pub binding: u64,
    pub drawn: Drawn,
    pub before: u64,
    pub step: u64,
}

/// A step that switched a binding off (or on), or found nothing to change: the word that it found, and how many steps
/// this pass had taken before it.
pub struct Toggle {
    pub binding: u64,
    pub disables: bool,
    pub found: u64,
    pub step: u64,
}

/// What one pass did to bindings, in order. A join hands this on whole, so that what each pass did stays apart.
pub struct Deeds {
    pub sights: LinkedList<Sight>,
    /// The bindings that were set attached, and of these those that this set first.
    pub made: LinkedList<u64>,
    pub firsts: LinkedList<u64>,
    /// Those set first that were found disposed.
    pub late: LinkedList<u64>,
    /// The bindings whose disposal this was, each with the count that it found.
    pub counts: LinkedList<(u64, u64)>,
    pub toggles: LinkedList<Toggle>,
}

/// The attachment under way: of which binding, how many nodes of its row it has come past, and whether the bit is set
/// at the next node while its summary's isn't.
pub struct Attaching {
    pub binding: u64,
    pub past: u64,
    pub half: bool,
}

/// The node that was loaded last, with its summary, and its rows that were loaded since, each with its word.
pub struct Loaded {
    pub node: u64,
    pub summary: u64,
    pub rows: LinkedList<(u64, u64)>,
}

/// What a pass knows of answers and ended contexts.
pub struct Talk {
    /// How many answers of each session, and how many ends, this may add in all.
    pub granted: u64,
    pub end_granted: u64,
    /// The answer numbers of this pass, and those of the passes that it took in: session and number.
    pub numbers: LinkedList<(u64, u64)>,
    pub handed: LinkedList<(u64, u64)>,
    /// What this pass read from the sessions' words, each with its session, and from the word of ended contexts.
    pub reads: LinkedList<(u64, u64)>,
    pub end_reads: LinkedList<u64>,
    /// The same of the passes that it took in.
    pub handed_reads: LinkedList<(u64, u64)>,
    pub handed_end_reads: LinkedList<u64>,
    /// Whether this pass has ended, and the number of ends of the passes that it took in.
    pub ended: bool,
    pub ends: u64,
}

/// The last step on the table: its word, its operands, of which a step of ours has just one, and what it found there.
pub struct Did {
    pub word: u64,
    pub operand: u64,
    pub second: u64,
    pub found: u64,
}

/// All that a pass knows: what it may still do, what it found and did, and what it took in from passes that joined it.
pub struct View {
    /// How many passes this may become by splits, itself counted; the first pass has 2^32.
    pub seat_share: u64,
    /// How many numbers of bindings it may still draw; the first pass has 2^60.
    pub draw_share: u64,
    /// The bindings that were found attached, and those that were found disposed. A join puts the lists of both together.
    pub found_attached: LinkedList<u64>,
    pub found_disposed: LinkedList<u64>,
    /// What this pass did, and what each of those that it took in did.
    pub deeds: Deeds,
    pub taken: LinkedList<Deeds>,
    pub attaching: Option<Attaching>,
    /// The nodes that were loaded, in order.
    pub loads: LinkedList<u64>,
    pub loaded: Option<Loaded>,
    /// The bits that were cleared, in order: node and binding.
    pub cleared: LinkedList<(u64, u64)>,
    pub talk: Talk,
    /// How many steps of every kind this pass has taken.
    pub steps: u64,
    pub last: Did,
}
