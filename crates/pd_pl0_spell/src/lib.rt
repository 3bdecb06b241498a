//! The spelling of PL/0 programs: words, the declarations in scope, the grammar, the rules, a machine that takes one word at a time, and the law that ties them.
#![tactic(auto)]

ghost use Rattle.std.specs.Prelude.{◌≡◌, ◌≤◌, ℕ, List, Ok, Err};
ghost use Rattle.pd_pl0_spell.specs.Words.{Word, Tree};
ghost use Rattle.pd_pl0_spell.specs.Names.{Rule, no_rule, every_rule};
ghost use Rattle.pd_pl0_spell.specs.Grammar.{Program};
ghost use Rattle.pd_pl0_spell.specs.Refusals.{IsWithinLimits, IsClean, FirstBreach, nodes, Answers};
ghost use Rattle.pd_pl0_spell.specs.Reading.{read};

/// What reading answers is the one tree that the words spell, or the first breach of a rule.
pub fn reading_law(room: u32)
    ensures answers { (words : List Word) → Answers room words (read room words) }
    ensures spelled { (words : List Word) (T : Tree) → Program every_rule words T → IsWithinLimits words → nodes T ≤ room → read room words ≡ Ok T }
    ensures accepted { (words : List Word) (T : Tree) → Program no_rule words T → IsClean words → nodes T ≤ room → read room words ≡ Ok T }
    ensures refused { (words : List Word) (rule : Rule) (at : ℕ) → FirstBreach words rule at → read room words ≡ Err (rule, at) }
{}
