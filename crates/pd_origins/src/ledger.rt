//! The ledger: what is known of last writes after some entries of a log.
ghost use Rattle.std.specs.Prelude.{◌≡◌, ◌<◌, ◌-◌, ◌^◌, ◌++◌, false, length, take, slice_get, IfOk, OnOk};
ghost use Rattle.pd_tree.specs.Program.{node_at};
ghost use Rattle.pd_machine.specs.Events.{change_at};
ghost use Rattle.pd_meaning.specs.Meaning.{around};
ghost use Rattle.pd_running.specs.Running.{is_enter, is_root_node, mark_in};
ghost use Rattle.pd_framing.specs.Framing.{blocks_seen, blocks_for};
ghost use Rattle.pd_origins.specs.declared.Origin.TheVariants.{Initial};
ghost use Rattle.pd_origins.specs.Origins.{is_return};
ghost use Rattle.pd_origins.specs.Ledger.{no_ledger, seen_by, seen_in, latest, latest_in, put, put_in, entered, left, noted, assigned, written, stepped_by, stepped, by_or, origin_in, origin_there};

use crate::Origin;
use crate::nodes::{has, is_main, level_of, meaning_of, source_of};
use pd_log::Entry;
use pd_machine::{EventKind, Home};
use pd_tree::{Meaning, Program};
use pd_values::{Items, NodeId, Tag};
use std::alloc::{AllocError, Global};
use std::marker::Model;

/// An activation of a function or procedure that runs: the event of its Enter, where the blocks stand that it sees, from
/// its own outward, and for each slot that was assigned the last event.
#[derive(Drop)]
pub(crate) struct Live {
    start: u32,
    blocks: Items<Home>,
    last: Items<Option<u32>>,
}

/// What is known of last writes after some entries of the log of all functions, procedures and assignments of a context.
#[derive(Drop)]
pub struct Ledger {
    /// The activations that run, the outermost first.
    live: Vec<Live>,
    /// For each source the last event of each slot of its main block.
    mains: Vec<Items<Option<u32>>>,
}

impl Model for Ledger {
    ghost use Rattle.pd_origins.specs.Ledger as twin;

    ghost Value = { twin.Ledger };

    ghost view = { λ l. record { live = l.live.items; mains = l.mains.items } };
}

// Puts an event into a slot.
fn put(slots: &mut Items<Option<u32>>, slot: usize, event: u32) -> Result<(), AllocError>
    ensures { OnOk result (slots.new ≡ put slot event slots.old) }
{
    'grow: while slots.as_slice().len() <= slot {
        slots.push(None)?;
    }
    slots.set(slot, Some(event));
    Ok(())
}

// Puts an event into a slot of an activation, if it is there.
#[tactic(auto, using(pd_machine::proofs::Changed::changed_read, pd_machine::proofs::Changed::changed_past))]
fn put_live(live: &mut Vec<Live>, k: usize, slot: usize, event: u32) -> Result<(), AllocError>
    ensures { OnOk result (live.new.items ≡ change_at live.old.items k (λ x. record x { last = put slot event x.last })) }
{
    if k < live.len() {
        put(&mut live[k].last, slot, event)?;
    }
    Ok(())
}

// Without the innermost activation.
fn pop(live: &mut Vec<Live>)
    ensures { live.new.items ≡ take (length live.old.items - 1) live.old.items }
{
    live.pop();
}

// Puts an event into a slot of the main block of a source.
fn put_main(
    alloc: Global,
    mains: &mut Vec<Items<Option<u32>>>,
    source: usize,
    slot: usize,
    event: u32,
) -> Result<(), AllocError>
    ensures { OnOk result (mains.new.items ≡ put_in source slot event mains.old.items) }
{
    'grow: while mains.len() <= source {
        mains.push(Items::of(Vec::new(alloc)))?;
    }
    put(&mut mains[source], slot, event)?;
    Ok(())
}

// The blocks that frame i sees, where 0 is the innermost.
fn blocks(live: &[Live], i: usize) -> &[Home]
    ensures { result.now ≡ blocks_seen (seen_in live.now) i }
{
    if i < live.len() {
        live[live.len() - 1 - i].blocks.as_slice()
    } else {
        &[]
    }
}

// The blocks around those of a function or procedure that is called where these are seen.
fn push_around(
    blocks: &mut Vec<Home>,
    program: &Program,
    root: NodeId,
    seen: &[Home],
) -> Result<(), AllocError>
    ensures { OnOk result (blocks.new.items ≡ blocks.old.items ++ around (node_at program.now root).level (node_at program.now root).source seen.now) }
{
    let level = level_of(program, root) as usize;
    if level == 1 {
        blocks.push(Home::InMain(source_of(program, root)))?;
    }
    if level > 1 {
        blocks.extend_from_slice(&seen[seen.len().saturating_sub(level)..])?;
    }
    Ok(())
}

// Where the blocks stand that a function or procedure sees which is called while these run.
fn blocks_for(
    alloc: Global,
    program: &Program,
    root: NodeId,
    live: &[Live],
) -> Result<Items<Home>, AllocError>
    requires room { length live.now < 2 ^ 32 }
    ensures { IfOk result (λ b. b ≡ blocks_for (node_at program.now root) (seen_in live.now)) }
{
    let mut homes = Vec::new(alloc);
    if live.is_empty() && is_main(program, root) {
        homes.push(Home::InMain(source_of(program, root)))?;
        return Ok(Items::of(homes));
    }
    homes.push(Home::InFrame(live.len() as u32))?;
    push_around(&mut homes, program, root, blocks(live, 0))?;
    Ok(Items::of(homes))
}

// The last event of a slot, if it was assigned.
fn latest(slots: &Items<Option<u32>>, slot: usize) -> Option<u32>
    ensures { result ≡ latest slot slots.now }
{
    match slots.get(slot) {
        Some(event) => *event,
        None => None,
    }
}

// That event, or what stands where there is none.
fn by_or(first: Origin, event: Option<u32>) -> Origin
    ensures { result ≡ by_or first event }
{
    match event {
        Some(event) => Origin::By { event },
        None => first,
    }
}

// In an activation.
fn in_live(live: &[Live], k: usize, slot: usize) -> Origin
    ensures { result ≡ origin_in (slice_get live.now k) slot }
{
    match live.get(k) {
        Some(live) => by_or(
            Origin::Start { event: live.start },
            latest(&live.last, slot),
        ),
        None => Origin::Initial,
    }
}

// In the main block of a source.
fn in_main(mains: &[Items<Option<u32>>], source: usize, slot: usize) -> Origin
    ensures { result ≡ by_or Initial (latest_in source slot mains.now) }
{
    match mains.get(source) {
        Some(slots) => by_or(Origin::Initial, latest(slots, slot)),
        None => Origin::Initial,
    }
}

// Whether an activation gave a value.
fn is_return(kind: &EventKind) -> bool
    ensures { result ≡ is_return kind.now }
{
    matches!(kind, EventKind::Return(_))
}

// Whether one begins.
fn is_enter(kind: &EventKind) -> bool
    ensures { result ≡ is_enter kind.now }
{
    matches!(kind, EventKind::Enter)
}

impl Ledger {
    /// The ledger before the first entry.
    pub fn new(alloc: Global) -> Ledger
        ensures { result ≡ no_ledger }
    {
        Ledger {
            live: Vec::new(alloc),
            mains: Vec::new(alloc),
        }
    }

    // A function or procedure begins.
    fn begin(&mut self, alloc: Global, program: &Program, entry: &Entry) -> Result<(), AllocError>
        requires room { length self.now.live < 2 ^ 32 }
        ensures { OnOk result (self.new ≡ entered program.now self.old (mark_in entry.now)) }
    {
        let blocks = blocks_for(alloc, program, entry.node, &self.live)?;
        self.live.push(Live {
            start: entry.event,
            blocks,
            last: Items::of(Vec::new(alloc)),
        })?;
        Ok(())
    }

    // A variable is assigned.
    fn assign(
        &mut self,
        alloc: Global,
        home: Option<Home>,
        slot: u32,
        event: u32,
    ) -> Result<(), AllocError>
        ensures { OnOk result (self.new ≡ noted self.old home slot event) }
    {
        match home {
            Some(Home::InFrame(k)) => put_live(&mut self.live, k as usize, slot as usize, event),
            Some(Home::InMain(source)) => put_main(
                alloc,
                &mut self.mains,
                source as usize,
                slot as usize,
                event,
            ),
            None => Ok(()),
        }
    }

    // What a name means to the innermost activation is assigned.
    fn assign_name(&mut self, alloc: Global, name: Meaning, event: u32) -> Result<(), AllocError>
        ensures { OnOk result (self.new ≡ assigned self.old name event) }
    {
        match name {
            Meaning::Local { up, slot } => {
                let home = blocks(&self.live, 0).get(up as usize).copied();
                self.assign(alloc, home, slot, event)
            }
            _ => Ok(()),
        }
    }

    // The end of an assignment that gave a value is a write.
    fn write(&mut self, alloc: Global, program: &Program, entry: &Entry) -> Result<(), AllocError>
        ensures { OnOk result (self.new ≡ written program.now self.old (mark_in entry.now)) }
    {
        if is_return(&entry.kind) && has(program, entry.node, Tag::WriteVariable) {
            self.assign_name(alloc, meaning_of(program, entry.node), entry.event)
        } else {
            Ok(())
        }
    }

    // The innermost function or procedure ends.
    fn leave(&mut self)
        ensures { self.new ≡ left self.old }
    {
        pop(&mut self.live);
    }

    // An activation ends.
    fn end(&mut self, alloc: Global, program: &Program, entry: &Entry) -> Result<(), AllocError>
        ensures { OnOk result (self.new ≡ stepped_by false (is_root_node program.now entry.now.node) program.now self.old (mark_in entry.now)) }
    {
        self.write(alloc, program, entry)?;
        if has(program, entry.node, Tag::Root) {
            self.leave();
        }
        Ok(())
    }

    /// Takes the next entry of the log. Where memory runs out it answers `AllocError`, and the ledger is of no use.
    pub fn take(
        &mut self,
        alloc: Global,
        program: &Program,
        entry: &Entry,
    ) -> Result<(), AllocError>
        requires room { length self.now.live < 2 ^ 32 }
        ensures { OnOk result (self.new ≡ stepped program.now self.old (mark_in entry.now)) }
    {
        if !is_enter(&entry.kind) {
            return self.end(alloc, program, entry);
        }
        if has(program, entry.node, Tag::Root) {
            self.begin(alloc, program, entry)
        } else {
            Ok(())
        }
    }

    /// Where the value comes from that stands in a slot of the block which is declared `up` blocks outward of frame `i`,
    /// where 0 is the innermost.
    pub fn origin(&self, i: usize, up: u32, slot: u32) -> Origin
        ensures { result ≡ origin_there self.now (slice_get (blocks_seen (seen_by self.now) i) up) slot }
    {
        match blocks(&self.live, i).get(up as usize) {
            Some(Home::InFrame(k)) => in_live(&self.live, *k as usize, slot as usize),
            Some(Home::InMain(source)) => in_main(&self.mains, *source as usize, slot as usize),
            None => Origin::Initial,
        }
    }
}
