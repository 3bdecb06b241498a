//! Members of objects.
ghost use Rattle.std.specs.Prelude.{◌≡◌, [], map, bytes_eq, string_bytes};
ghost use Rattle.std.specs.List.{list_any, list_all};
ghost use Rattle.std.specs.BTreeMap.{keys};
ghost use Rattle.serde_json.specs.View.{view};
ghost use Rattle.pd_plan_json.specs.Reading.{Gives};
ghost use Rattle.pd_plan_json.specs.Shapes.{an_object, with_default, present, list_in, required, optional, no_other, one_of, table_of};

use crate::reader::{Reader, in_member, refusal};
use crate::shapes::ListIn;
use pd_plan::{PlanRefusal, PlanRule};
use pd_values::{Items, Stop};
use serde_json::{Map, Value};
use std::alloc::Global;

/// The value of a member that has to be there.
#[tactic(auto, unfolding(crate::specs::Shapes::required))]
pub(crate) fn required_of<R: Reader>(
    alloc: Global,
    value: &Value,
    name: &str,
    reader: &R,
) -> Result<R::Output, Stop<PlanRefusal>>
    ensures { Gives result (required name.now (R.reads reader.now) (view value.now)) }
{
    match value.get(name) {
        None => Err(in_member(alloc, name, refusal(alloc, PlanRule::Missing))),
        Some(inner) => match reader.read(alloc, inner) {
            Ok(x) => Ok(x),
            Err(stop) => Err(in_member(alloc, name, stop)),
        },
    }
}

/// The value of a member that may be absent.
#[tactic(auto, unfolding(crate::specs::Shapes::optional))]
pub(crate) fn optional_of<R: Reader>(
    alloc: Global,
    value: &Value,
    name: &str,
    reader: &R,
) -> Result<Option<R::Output>, Stop<PlanRefusal>>
    ensures { Gives result (optional name.now (R.reads reader.now) (view value.now)) }
{
    match value.get(name) {
        None => Ok(None),
        Some(inner) => match reader.read(alloc, inner) {
            Ok(x) => Ok(Some(x)),
            Err(stop) => Err(in_member(alloc, name, stop)),
        },
    }
}

/// Whether a name is one of these.
fn is_among(name: &str, names: &[&str]) -> bool
    ensures { result ≡ list_any (λ n. bytes_eq name.now n.now) names.now }
{
    names.iter().any(|n| name == *n)
}

/// Whether each member of an object has one of these names.
fn all_among(object: &Map<String, Value>, names: &[&str]) -> bool
    ensures { result ≡ list_all (λ k. list_any (λ n. bytes_eq (string_bytes k) n.now) names.now) (keys object.now) }
{
    object.keys().all(|k| is_among(k.as_str(), names))
}

/// That an object has no member but these.
#[tactic(auto, unfolding(crate::specs::Shapes::no_other), using(crate::proofs::Keys::are_among_all))]
fn no_other_than(alloc: Global, value: &Value, names: &[&str]) -> Result<(), Stop<PlanRefusal>>
    ensures { Gives result (no_other (map (λ n. n.now) names.now) (view value.now)) }
{
    let Some(object) = value.as_object() else {
        return Err(refusal(alloc, PlanRule::WrongShape));
    };
    if !all_among(object, names) {
        return Err(refusal(alloc, PlanRule::UnknownMember));
    }
    Ok(())
}

/// Reads an object whose members `members` reads, and which has no other than those of `names`.
#[derive(Drop)]
pub(crate) struct Table<R> {
    pub(crate) names: &'static [&'static str],
    pub(crate) members: R,
}

impl<R: Reader> Reader for Table<R> {
    type Output = R::Output;

    ghost reads = { λ r. table_of (map (λ n. n.now) r.names.now) (R.reads r.members) };

    #[tactic(auto, unfolding(crate::specs::Shapes::table_of))]
    fn read(&self, alloc: Global, value: &Value) -> Result<R::Output, Stop<PlanRefusal>> {
        is_object(alloc, value)?;
        let found = self.members.read(alloc, value)?;
        no_other_than(alloc, value, self.names)?;
        Ok(found)
    }
}

/// How many of these members are there.
fn present_in(value: &Value, names: &[&str]) -> usize
    ensures { result ≡ present (map (λ n. n.now) names.now) (view value.now) }
{
    names.iter().filter(|n| value.get(**n).is_some()).count()
}

/// What an object is that has just one of these members.
#[tactic(auto, unfolding(crate::specs::Shapes::one_of))]
pub(crate) fn choice_of<R: Reader>(
    alloc: Global,
    value: &Value,
    names: &[&str],
    reader: &R,
) -> Result<R::Output, Stop<PlanRefusal>>
    ensures { Gives result (one_of (map (λ n. n.now) names.now) (R.reads reader.now)
        (view value.now)) }
{
    if !value.is_object() || present_in(value, names) != 1 {
        return Err(refusal(alloc, PlanRule::WrongShape));
    }
    let chosen = reader.read(alloc, value)?;
    no_other_than(alloc, value, names)?;
    Ok(chosen)
}

/// The value of a member with a default.
#[tactic(auto, unfolding(crate::specs::Shapes::with_default))]
pub(crate) fn default_of<R: Reader>(
    alloc: Global,
    value: &Value,
    name: &str,
    default: R::Output,
    reader: &R,
) -> Result<R::Output, Stop<PlanRefusal>>
    ensures { Gives result (with_default name.now default (R.reads reader.now) (view value.now)) }
{
    let found = optional_of(alloc, value, name, reader)?;
    Ok(found.unwrap_or(default))
}

/// That a value is an object.
pub(crate) fn is_object(alloc: Global, value: &Value) -> Result<(), Stop<PlanRefusal>>
    ensures { Gives result (an_object (view value.now)) }
{
    if value.is_object() {
        Ok(())
    } else {
        Err(refusal(alloc, PlanRule::WrongShape))
    }
}

/// The entries of a list that may be absent.
pub(crate) fn list_of<R: Reader>(
    alloc: Global,
    value: &Value,
    name: &str,
    list: &ListIn<R>,
) -> Result<Items<R::Output>, Stop<PlanRefusal>>
    ensures { Gives result (with_default name.now []
        (list_in list.now.low list.now.high (R.reads list.now.entry))
        (view value.now)) }
{
    let empty = Items::of(Vec::new(alloc));
    default_of(alloc, value, name, empty, list)
}
