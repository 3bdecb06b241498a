//! The board that seats share.
ghost use Rattle.std.specs.Prelude.{◌≡◌, ◌^◌, ℕ, map, replicate, IfOk};
ghost use Rattle.pd_board.specs.declared.answers.Known.{Known};
ghost use Rattle.pd_board.specs.Standing.{in_row};
ghost use Rattle.pd_core.specs.Views.{first_view};
ghost use Rattle.pd_core.specs.Layout.{IsSound, width};
ghost use Rattle.pd_shared.specs.Matching.{stands};

use crate::matching::Matching;
use crate::token::{Blank, Token};
use pd_board::Known;
use pd_core::hub::Core;
use pd_plan::MatchTable;
use pd_values::{Items, NodeId};
use std::alloc::{AllocError, Global};

/// All shares of the seats, 2^32, which the first token has: each split hands on one.
pub(crate) const ALL_SEATS: u64 = 1 << 32;

/// The shared words, and the rows of the bindings. It takes no lock, and no call on it waits.
#[derive(Drop)]
pub struct SharedBoard {
    pub(crate) core: Core,
    pub(crate) table: MatchTable,
    /// Which bindings match a node, by their rows.
    pub(crate) matching: Matching,
    /// How many row words a node has.
    pub(crate) row_words: u32,
    ghost rows: { table.rows ≡ core.layout.rows },
    ghost sound: { IsSound core.layout },
    ghost wide: { row_words ≡ width core.layout },
    ghost nodes: { matching.nodes ≡ core.layout.nodes },
    ghost broad: { matching.width ≡ width core.layout },
    ghost matches: { (n b : ℕ) → stands matching n b ≡ in_row table b n },
}

impl SharedBoard {
    ghost use Rattle.pd_board.specs.Standing.{IsNew};
    ghost use Rattle.pd_shared.specs.Sitting.{IsOf, standing_of};

    /// A board with all words 0, and the first token, which has all shares and did nothing. Condition: there are at
    /// most 4,096 rows, each rises, and its nodes are below `nodes`. Where memory runs out it answers `AllocError`.
    pub fn new(
        alloc: Global,
        matches: &MatchTable,
        nodes: u32,
        sessions: u32,
        contexts: u32,
    ) -> Result<(SharedBoard, Token), AllocError>
        requires { IsSound (record { nodes = nodes; rows = matches.now.rows; sessions = sessions; contexts = contexts }) }
        ensures table { IfOk result (λ r. r.0.table ≡ matches.now) }
        ensures layout { IfOk result (λ r. r.0.core.layout ≡ record { nodes = nodes; rows = matches.now.rows; sessions = sessions; contexts = contexts }) }
        ensures of { IfOk result (λ r. IsOf r.0.core r.1) }
        ensures first { IfOk result (λ r. r.1.pass.view ≡ first_view) }
        ensures seats { IfOk result (λ r. r.1.seats ≡ 2 ^ 32) }
        ensures new { IfOk result (λ r. IsNew matches.now nodes sessions contexts (standing_of (record { hub = r.0.core; table = r.0.table; token = r.1 }))) }
    {
        let table = copy_of(alloc, matches)?;
        let given = matches.rows.as_slice();
        let matching = Matching::of(alloc, given, nodes)?;
        let rows = numbers_of(alloc, given)?;
        let count = given.len();
        let (core, pass) = Core::new(alloc, rows, nodes, sessions, contexts)?;
        let known = fresh(alloc, count)?;
        let blank = Blank::new(alloc, count, nodes as usize, sessions as usize)?;
        let token = blank.token(alloc, pass, ALL_SEATS, known);
        let row_words = (count as u32 + 63) / 64;
        Ok((
            SharedBoard {
                core,
                table,
                matching,
                row_words,
            },
            token,
        ))
    }
}

/// A second table with the same rows.
fn copy_of(alloc: Global, table: &MatchTable) -> Result<MatchTable, AllocError>
    ensures { IfOk result (λ t. t ≡ table.now) }
{
    let mut rows = Vec::new(alloc);
    for row in table.rows.as_slice() {
        rows.push(Items::of(Vec::from_slice(alloc, row.as_slice())?))?;
    }
    let always = Items::of(Vec::from_slice(alloc, table.always.as_slice())?);
    Ok(MatchTable {
        rows: Items::of(rows),
        always,
    })
}

/// The same rows, with each node as its number.
fn numbers_of(alloc: Global, rows: &[Items<NodeId>]) -> Result<Vec<Vec<u32>>, AllocError>
    ensures { IfOk result (λ v. map (λ r. r.items) v.items ≡ rows.now) }
{
    let mut all = Vec::new(alloc);
    for row in rows {
        let numbers: Vec<u32> = row.as_slice().iter().map(|n| n.0).collect(alloc)?;
        all.push(numbers)?;
    }
    Ok(all)
}

/// What a first token knows of so many bindings.
fn fresh(alloc: Global, count: usize) -> Result<Vec<Known>, AllocError>
    ensures { IfOk result (λ v. v.items ≡ replicate count Known.Fresh) }
{
    let mut known = Vec::new(alloc);
    known.resize(count, Known::Fresh)?;
    Ok(known)
}
