//! The tags of nodes, by the table of kinds.
ghost use Rattle.std.specs.Prelude.{◌≡◌, []};
ghost use Rattle.pd_tree.specs.Kinds.{tags_of, expression, pl_operator, sl_name};
ghost use Rattle.pd_tree.specs.Program as program;

use crate::kind::{Kind, Meaning, Operator};
use pd_values::Tag;

const EXPRESSION: &[Tag] = &[Tag::Expression];

const CONDITION: &[Tag] = &[Tag::Expression, Tag::Statement];

/// The tags of a node of this kind with this meaning; `stands` says whether it stands as a statement or as a condition.
pub fn tags(kind: &Kind, meaning: Meaning, stands: bool) -> &'static [Tag]
    ensures { result.now ≡ tags_of kind.now meaning stands }
{
    match kind {
        Kind::SlFunction { .. } | Kind::PlProcedure { .. } => &[Tag::Root],
        Kind::SlBody | Kind::PlBody => &[Tag::RootBody],
        Kind::SlBlock | Kind::SlIf | Kind::SlWhile => &[],
        Kind::PlEmpty | Kind::PlBegin | Kind::PlIf | Kind::PlWhile => &[],
        Kind::SlReturn | Kind::SlBreak | Kind::SlContinue | Kind::PlWrite => &[Tag::Statement],
        Kind::SlDebugger => &[Tag::Statement, Tag::AlwaysHalt],
        Kind::PlAssign(_) => &[Tag::Statement, Tag::WriteVariable],
        Kind::PlCall(_) => &[Tag::Statement, Tag::Call],
        Kind::PlOdd => CONDITION,
        Kind::PlBinary(op) => operator_tags(*op),
        Kind::PlPlus | Kind::PlMinus | Kind::PlNumber(_) => EXPRESSION,
        Kind::PlName(_) => &[Tag::Expression, Tag::ReadVariable],
        Kind::SlOr | Kind::SlAnd | Kind::SlBinary(_) | Kind::SlNumber(_) | Kind::SlText(_) =>
            plain_tags(stands),
        Kind::SlCall if stands => &[Tag::Expression, Tag::Call, Tag::Statement],
        Kind::SlCall => &[Tag::Expression, Tag::Call],
        Kind::SlAssign(_) if stands => &[Tag::Expression, Tag::WriteVariable, Tag::Statement],
        Kind::SlAssign(_) => &[Tag::Expression, Tag::WriteVariable],
        Kind::SlName(_) => name_tags(meaning, stands),
    }
}

fn plain_tags(stands: bool) -> &'static [Tag]
    ensures { result.now ≡ expression stands [] }
{
    if stands { CONDITION } else { EXPRESSION }
}

fn name_tags(meaning: Meaning, stands: bool) -> &'static [Tag]
    ensures { result.now ≡ sl_name meaning stands }
{
    match meaning {
        Meaning::Local { .. } if stands => &[Tag::Expression, Tag::ReadVariable, Tag::Statement],
        Meaning::Local { .. } => &[Tag::Expression, Tag::ReadVariable],
        _ => plain_tags(stands),
    }
}

fn operator_tags(op: Operator) -> &'static [Tag]
    ensures { result.now ≡ pl_operator op }
{
    match op {
        Operator::Add | Operator::Sub | Operator::Mul | Operator::Div => EXPRESSION,
        _ => CONDITION,
    }
}

/// Whether a tag is one of these.
pub fn has_tag(tags: &[Tag], tag: Tag) -> bool
    ensures { result ≡ program.has_tag tags.now tag }
{
    match tags {
        [] => false,
        [first, rest @ ..] => is_same(*first, tag) || has_tag(rest, tag),
    }
}

fn is_same(a: Tag, b: Tag) -> bool
    ensures { result ≡ program.same_tag a b }
{
    a == b
}
