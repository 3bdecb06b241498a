//! The tables of sources, exports and contexts.
ghost use Rattle.std.specs.Prelude.{codes};
ghost use Rattle.serde_json.specs.View.{view};
ghost use Rattle.pd_plan_json.specs.Reading.{Gives};
ghost use Rattle.pd_plan_json.specs.Shapes.{with_default};
ghost use Rattle.pd_plan_json.specs.Tables as table;

use crate::members::{Table, default_of, optional_of, required_of};
use crate::reader::{Reader, refusal};
use crate::shapes::{NumberIn, Reference, TextIn, chars_of};
use pd_plan::{ContextSpec, ExportSpec, Language, PlanRefusal, PlanRule, SourceSpec};
use pd_values::{Stop, Text};
use serde_json::Value;
use std::alloc::Global;

/// Reads a name: a text of 1 to 255 bytes.
pub(crate) const NAME: TextIn = TextIn { low: 1, high: 255 };

// The range of a context's fuel: 1 to 2^24.
const FUEL: NumberIn = NumberIn {
    low: 1,
    high: 16_777_216,
};

/// Reads a language: `sl` or `pl0`.
#[derive(Drop)]
pub(crate) struct LanguageWord;

impl Reader for LanguageWord {
    type Output = Language;

    ghost reads = { λ _. table.language };

    #[tactic(auto, unfolding(crate::specs::Tables::language))]
    fn read(&self, alloc: Global, value: &Value) -> Result<Language, Stop<PlanRefusal>> {
        match chars_of(alloc, value)? {
            "sl" => Ok(Language::Sl),
            "pl0" => Ok(Language::Pl0),
            _ => Err(refusal(alloc, PlanRule::UnknownWord)),
        }
    }
}

/// Reads the members of a source.
#[derive(Drop)]
pub(crate) struct SourceMembers;

impl Reader for SourceMembers {
    type Output = SourceSpec;

    ghost reads = { λ _. table.source_members };

    #[tactic(auto, unfolding(crate::specs::Tables::source_members))]
    fn read(&self, alloc: Global, value: &Value) -> Result<SourceSpec, Stop<PlanRefusal>> {
        let name = required_of(alloc, value, "name", &NAME)?;
        let language = required_of(alloc, value, "language", &LanguageWord)?;
        Ok(SourceSpec { name, language })
    }
}

/// Reads a source: an object with these members and no other.
pub(crate) const SOURCE: Table<SourceMembers> = Table {
    names: &["name", "language"],
    members: SourceMembers,
};

/// Reads the members of an export.
#[derive(Drop)]
pub(crate) struct ExportMembers;

impl Reader for ExportMembers {
    type Output = ExportSpec;

    ghost reads = { λ _. table.export_members };

    #[tactic(auto, unfolding(crate::specs::Tables::export_members))]
    fn read(&self, alloc: Global, value: &Value) -> Result<ExportSpec, Stop<PlanRefusal>> {
        let name = required_of(alloc, value, "name", &NAME)?;
        let source = required_of(alloc, value, "source", &Reference)?;
        let item = required_of(alloc, value, "item", &NAME)?;
        Ok(ExportSpec { name, source, item })
    }
}

/// Reads an export: an object with these members and no other.
pub(crate) const EXPORT: Table<ExportMembers> = Table {
    names: &["name", "source", "item"],
    members: ExportMembers,
};

/// The name of a context's entry; `main` where the member is absent.
#[tactic(auto, unfolding(crate::specs::Shapes::with_default))]
fn entry_or_main(alloc: Global, value: &Value) -> Result<Text, Stop<PlanRefusal>>
    ensures { Gives result (with_default (codes "entry") (codes "main") table.name (view value.now)) }
{
    match optional_of(alloc, value, "entry", &NAME)? {
        Some(entry) => Ok(entry),
        None => Ok(Text::of(String::from_str(alloc, "main")?)),
    }
}

/// Reads the members of a context.
#[derive(Drop)]
pub(crate) struct ContextMembers;

impl Reader for ContextMembers {
    type Output = ContextSpec;

    ghost reads = { λ _. table.context_members };

    #[tactic(auto, unfolding(crate::specs::Tables::context_members))]
    fn read(&self, alloc: Global, value: &Value) -> Result<ContextSpec, Stop<PlanRefusal>> {
        let source = required_of(alloc, value, "source", &Reference)?;
        let entry = entry_or_main(alloc, value)?;
        let fuel = default_of(alloc, value, "fuel", 1_000_000, &FUEL)?;
        Ok(ContextSpec {
            source,
            entry,
            fuel,
        })
    }
}

/// Reads a context: an object with these members and no other.
pub(crate) const CONTEXT: Table<ContextMembers> = Table {
    names: &["source", "entry", "fuel"],
    members: ContextMembers,
};
