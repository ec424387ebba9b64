ghost use Rattle.std.specs.Prelude.{◌≡◌, ◌<◌, ◌≤◌, ◌++◌, length, map, position, bytes_eq, IfOk, IfSome, OnOk};
ghost use Rattle.index_settings.specs.Rules.{rule_of};
ghost use Rattle.search_settings.specs.Rules.{criterion_entry, entries_named, entries_of, path_named as path_of_name, rules_with};

use index_settings::{RankingRule, Settings, ranking_rule};
use search_base::{NoMemory, PathId, Rule, Word};
use search_call::Criterion;
use std::alloc::Global;

/// The rules by which documents are ranked in an index with these paths, where a search sorts by these criteria: those
/// that the ranking rules of the settings name, in their order.
pub fn rules_of(
    alloc: Global,
    settings: &Settings,
    paths: &[Word],
    sort: &[Criterion],
) -> Result<Vec<Rule>, NoMemory>
    requires { length paths.now ≤ 1000 }
    ensures { IfOk result (λ rules. rules.items ≡ rules_with settings.now paths.now sort.now) }
{
    let mut rules = Vec::new(alloc);
    for text in settings.ranking_rules() {
        add_named(alloc, text, paths, sort, &mut rules)?;
    }
    Ok(rules)
}

// Adds the entries of costs that a text gives which names a ranking rule.
fn add_named(
    alloc: Global,
    text: &Word,
    paths: &[Word],
    sort: &[Criterion],
    rules: &mut Vec<Rule>,
) -> Result<(), NoMemory>
    requires { length paths.now ≤ 1000 }
    ensures { OnOk result (rules.new.items ≡ rules.old.items ++ entries_named paths.now sort.now (rule_of text.now)) }
{
    match ranking_rule(alloc, text.as_str())? {
        Some(rule) => add_entries(&rule, paths, sort, rules),
        None => Ok(()),
    }
}

// Adds the entries of costs that a ranking rule gives.
fn add_entries(
    rule: &RankingRule,
    paths: &[Word],
    sort: &[Criterion],
    rules: &mut Vec<Rule>,
) -> Result<(), NoMemory>
    requires { length paths.now ≤ 1000 }
    ensures { OnOk result (rules.new.items ≡ rules.old.items ++ entries_of paths.now sort.now rule.now) }
{
    match rule {
        RankingRule::Words => rules.push(Rule::Words)?,
        RankingRule::Proximity => rules.push(Rule::Proximity)?,
        RankingRule::Attribute => {
            rules.push(Rule::Field)?;
            rules.push(Rule::Position)?;
        }
        RankingRule::Exactness => {
            rules.push(Rule::Whole)?;
            rules.push(Rule::Inexact)?;
        }
        RankingRule::Up { attribute } => rules.push(Rule::Up(path_named(paths, attribute)))?,
        RankingRule::Down { attribute } => rules.push(Rule::Down(path_named(paths, attribute)))?,
        RankingRule::Sort => add_criteria(paths, sort, rules)?,
        RankingRule::Typo => {}
    }
    Ok(())
}

// Adds an entry of costs for each criterion by which a search sorts.
fn add_criteria(paths: &[Word], sort: &[Criterion], rules: &mut Vec<Rule>) -> Result<(), NoMemory>
    requires { length paths.now ≤ 1000 }
    ensures { OnOk result (rules.new.items ≡ rules.old.items ++ map (criterion_entry paths.now) sort.now) }
{
    for criterion in sort {
        rules.push(entry_of(paths, criterion))?;
    }
    Ok(())
}

fn entry_of(paths: &[Word], criterion: &Criterion) -> Rule
    requires { length paths.now ≤ 1000 }
    ensures { result ≡ criterion_entry paths.now criterion.now }
{
    let path = path_named(paths, &criterion.attribute);
    if criterion.up {
        Rule::Up(path)
    } else {
        Rule::Down(path)
    }
}

/// The path of this name in a registry, where it has one. Takes no memory.
pub fn path_named(paths: &[Word], name: &Word) -> Option<PathId>
    requires { length paths.now ≤ 1000 }
    ensures { result ≡ path_of_name paths.now name.now }
{
    match number_named(paths, name) {
        Some(number) => Some(PathId(number as u16)),
        None => None,
    }
}

// The place of the path of this name in a registry, where it has one.
fn number_named(paths: &[Word], name: &Word) -> Option<usize>
    ensures number { result ≡ position (λ path. bytes_eq path name.now) paths.now }
    ensures within { IfSome result (λ number. number < length paths.now) }
{
    paths.iter().position(|path| path.as_str() == name.as_str())
}
