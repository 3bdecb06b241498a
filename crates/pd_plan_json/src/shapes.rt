//! Numbers, texts and lists.
ghost use Rattle.std.specs.Prelude.{◌≡◌, nat_lt};
ghost use Rattle.std.specs.List.{list_any};
ghost use Rattle.serde_json.specs.View.{view, items_view};
ghost use Rattle.pd_plan_json.specs.Reading.{Gives, GivesBy, under, entry_step};
ghost use Rattle.pd_plan_json.specs.Shapes.{whole, signed, truth, chars, items, number_in, reference, text_in, entries, list_in};

use crate::reader::{Reader, in_entry, refusal};
use pd_plan::{PlanRefusal, PlanRule};
use pd_values::{Items, Stop, Text};
use serde_json::Value;
use std::alloc::Global;

/// A whole number.
pub(crate) fn whole_of(alloc: Global, value: &Value) -> Result<u64, Stop<PlanRefusal>>
    ensures { Gives result (whole (view value.now)) }
{
    match value.as_u64() {
        Some(n) => Ok(n),
        None => Err(refusal(alloc, PlanRule::WrongShape)),
    }
}

/// A whole number with or without a sign, that 64 bits hold.
#[tactic(auto, using(crate::proofs::Numbers::signed_found, crate::proofs::Numbers::signed_past, crate::proofs::Numbers::no_number))]
pub(crate) fn signed_of(alloc: Global, value: &Value) -> Result<i64, Stop<PlanRefusal>>
    ensures { Gives result (signed (view value.now)) }
{
    match value.as_i64() {
        Some(z) => Ok(z),
        None => match value.as_u64() {
            Some(_) => Err(refusal(alloc, PlanRule::OutOfRange)),
            None => Err(refusal(alloc, PlanRule::WrongShape)),
        },
    }
}

/// Reads a whole number from `low` to `high`.
#[derive(Drop)]
pub(crate) struct NumberIn {
    pub(crate) low: u32,
    pub(crate) high: u32,
}

impl Reader for NumberIn {
    type Output = u32;

    ghost reads = { λ r. number_in r.low r.high };

    #[tactic(auto, unfolding(crate::specs::Shapes::number_in))]
    fn read(&self, alloc: Global, value: &Value) -> Result<u32, Stop<PlanRefusal>> {
        let n = whole_of(alloc, value)?;
        if n < self.low as u64 || n > self.high as u64 {
            return Err(refusal(alloc, PlanRule::OutOfRange));
        }
        Ok(n as u32)
    }
}

/// Reads the number of a source, a binding or a session. One past 32 bits is kept as the largest
/// that 32 bits hold, which no plan has either.
#[derive(Drop)]
pub(crate) struct Reference;

impl Reader for Reference {
    type Output = u32;

    ghost reads = { λ _. reference };

    #[tactic(auto, unfolding(crate::specs::Shapes::reference))]
    fn read(&self, alloc: Global, value: &Value) -> Result<u32, Stop<PlanRefusal>> {
        let n = whole_of(alloc, value)?;
        Ok(n.min(0xffff_ffff) as u32)
    }
}

/// Reads a truth value.
#[derive(Drop)]
pub(crate) struct Truth;

impl Reader for Truth {
    type Output = bool;

    ghost reads = { λ _. truth };

    fn read(&self, alloc: Global, value: &Value) -> Result<bool, Stop<PlanRefusal>> {
        match value.as_bool() {
            Some(b) => Ok(b),
            None => Err(refusal(alloc, PlanRule::WrongShape)),
        }
    }
}

/// The characters of a text.
pub(crate) fn chars_of<'v>(alloc: Global, value: &'v Value) -> Result<&'v str, Stop<PlanRefusal>>
    ensures { GivesBy (λ s. s.now) result (chars (view value.now)) }
{
    match value.as_str() {
        Some(s) => Ok(s),
        None => Err(refusal(alloc, PlanRule::WrongShape)),
    }
}

/// Whether a byte is below 0x20.
fn has_control(bytes: &[u8]) -> bool
    ensures { result ≡ list_any (λ b. nat_lt b 32) bytes.now }
{
    bytes.iter().any(|b| *b < 0x20)
}

/// Reads a text of `low` to `high` bytes, none of them below 0x20.
#[derive(Drop)]
pub(crate) struct TextIn {
    pub(crate) low: usize,
    pub(crate) high: usize,
}

impl Reader for TextIn {
    type Output = Text;

    ghost reads = { λ r. text_in r.low r.high };

    #[tactic(auto, unfolding(crate::specs::Shapes::text_in))]
    fn read(&self, alloc: Global, value: &Value) -> Result<Text, Stop<PlanRefusal>> {
        let s = chars_of(alloc, value)?;
        if s.len() < self.low || s.len() > self.high {
            return Err(refusal(alloc, PlanRule::OutOfRange));
        }
        if has_control(s.as_bytes()) {
            return Err(refusal(alloc, PlanRule::OutOfRange));
        }
        Ok(Text::of(String::from_str(alloc, s)?))
    }
}

/// The entries of a list.
pub(crate) fn items_of<'v>(
    alloc: Global,
    value: &'v Value,
) -> Result<&'v Vec<Value>, Stop<PlanRefusal>>
    ensures { GivesBy (λ v. items_view v.now.items) result (items (view value.now)) }
{
    match value.as_array() {
        Some(list) => Ok(list),
        None => Err(refusal(alloc, PlanRule::WrongShape)),
    }
}

/// What the reader gives for the entry at an index.
pub(crate) fn entry_of<R: Reader>(
    alloc: Global,
    index: usize,
    value: &Value,
    reader: &R,
) -> Result<R::Output, Stop<PlanRefusal>>
    ensures { Gives result (under (entry_step index) (R.reads reader.now (view value.now))) }
{
    match reader.read(alloc, value) {
        Ok(x) => Ok(x),
        Err(stop) => Err(in_entry(alloc, index, stop)),
    }
}

/// What the reader gives for each of the entries.
fn entries_of<R: Reader>(
    alloc: Global,
    values: &[Value],
    reader: &R,
) -> Result<Vec<R::Output>, Stop<PlanRefusal>>
    ensures { GivesBy (λ v. v.items) result (entries (R.reads reader.now) 0 (items_view values.now)) }
{
    let mut found = Vec::new(alloc);
    for (i, value) in values.iter().enumerate() {
        found.push(entry_of(alloc, i, value, reader)?)?;
    }
    Ok(found)
}

/// Reads a list of `low` to `high` entries.
#[derive(Drop)]
pub(crate) struct ListIn<R> {
    pub(crate) low: usize,
    pub(crate) high: usize,
    pub(crate) entry: R,
}

impl<R: Reader> Reader for ListIn<R> {
    type Output = Items<R::Output>;

    ghost reads = { λ r. list_in r.low r.high (R.reads r.entry) };

    #[tactic(auto, unfolding(crate::specs::Shapes::list_in), using(crate::proofs::Lists::count_of_items))]
    fn read(&self, alloc: Global, value: &Value) -> Result<Items<R::Output>, Stop<PlanRefusal>> {
        let values = items_of(alloc, value)?;
        if values.len() < self.low || values.len() > self.high {
            return Err(refusal(alloc, PlanRule::OutOfRange));
        }
        let found = entries_of(alloc, values, &self.entry)?;
        Ok(Items::of(found))
    }
}
