//! The spelling of SL programs: words, the grammar, the rules, a machine that takes one word at a time, and the law that ties them.
#![tactic(auto)]

ghost use Rattle.std.specs.Prelude.{◌≡◌, ◌≤◌, ℕ, List, Ok, Err};
ghost use Rattle.pd_sl_spell.specs.Words.{Word, Trees};
ghost use Rattle.pd_sl_spell.specs.Grammar.{Program};
ghost use Rattle.pd_sl_spell.specs.Refusals.{Rule, IsClean, FirstBreach, all_nodes, Answers};
ghost use Rattle.pd_sl_spell.specs.Reading.{read};

/// What reading answers is the one tree that the words spell, or the first breach of a rule.
pub fn reading_law(room: u32)
    ensures answers { (words : List Word) → Answers room words (read room words) }
    ensures accepted { (words : List Word) (T : Trees) → Program words T → IsClean words → all_nodes T ≤ room → read room words ≡ Ok T }
    ensures refused { (words : List Word) (rule : Rule) (at : ℕ) → FirstBreach words rule at → read room words ≡ Err (rule, at) }
{}
