ghost use Rattle.std.specs.Prelude.{◌≡◌, IfOk, option_map, codes};
ghost use Rattle.index_settings.specs.Rules.{before_ending, by_attribute, orders_by as orders_by_rule, rule_of};

use search_base::{NoMemory, Word};
use std::alloc::Global;

/// A ranking rule, as the settings name it. Which entries of a document's costs it gives is the index's affair.
#[derive(Debug, Drop)]
pub enum RankingRule {
    /// `words`
    Words,
    /// `typo`
    Typo,
    /// `proximity`
    Proximity,
    /// `attribute`
    Attribute,
    /// `sort`
    Sort,
    /// `exactness`
    Exactness,
    /// An attribute with `:asc` behind it.
    Up { attribute: Word },
    /// An attribute with `:desc` behind it.
    Down { attribute: Word },
}

/// The rule that a text names. None where it names none: the attribute of a rule is at least one byte, and may hold
/// colons.
pub fn ranking_rule(alloc: Global, text: &str) -> Result<Option<RankingRule>, NoMemory>
    ensures { IfOk result (λ rule. rule ≡ rule_of text.now) }
{
    match text {
        "words" => Ok(Some(RankingRule::Words)),
        "typo" => Ok(Some(RankingRule::Typo)),
        "proximity" => Ok(Some(RankingRule::Proximity)),
        "attribute" => Ok(Some(RankingRule::Attribute)),
        "sort" => Ok(Some(RankingRule::Sort)),
        "exactness" => Ok(Some(RankingRule::Exactness)),
        _ => rule_by_attribute(alloc, text),
    }
}

fn rule_by_attribute(alloc: Global, text: &str) -> Result<Option<RankingRule>, NoMemory>
    ensures { IfOk result (λ rule. rule
        ≡ by_attribute (before_ending (codes ":asc") text.now) (before_ending (codes ":desc") text.now)) }
{
    if let Some(attribute) = before(text, ":asc") {
        let attribute = Word::new(alloc, attribute)?;
        return Ok(Some(RankingRule::Up { attribute }));
    }
    if let Some(attribute) = before(text, ":desc") {
        let attribute = Word::new(alloc, attribute)?;
        return Ok(Some(RankingRule::Down { attribute }));
    }
    Ok(None)
}

/// Whether a text names a rule that orders by exactly this path. Takes no memory.
#[tactic(auto, using(crate::proofs::RuleTexts::orders_by_ending))]
pub(crate) fn orders_by(text: &str, path: &str) -> bool
    ensures { result ≡ orders_by_rule path.now (rule_of text.now) }
{
    match before(text, ":asc") {
        Some(attribute) => attribute == path,
        None => match before(text, ":desc") {
            Some(attribute) => attribute == path,
            None => false,
        },
    }
}

/// What stands before an ending of a text, where something does.
fn before<'a>(text: &'a str, ending: &str) -> Option<&'a str>
    ensures { option_map (λ start. start.now) result ≡ before_ending ending.now text.now }
{
    match text.strip_suffix(ending) {
        Some(start) => if start.is_empty() { None } else { Some(start) },
        None => None,
    }
}
