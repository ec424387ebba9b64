ghost use Rattle.std.specs.Prelude.{◌≡◌};
ghost use Rattle.std.specs.List.{list_any};
ghost use Rattle.index_settings.specs.Rules.{orders_by as orders_by_rule, rule_of};
ghost use Rattle.index_settings.specs.Paths.{names as names_in, covers as covers_path, is_end_or_dot, is_covered as is_covered_in, rank_of as rank_in, is_faceted as is_faceted_in, is_displayed as is_displayed_in};

use crate::rule::orders_by;
use crate::settings::Settings;
use search_base::Word;

/// The rank of a path among the searchable ones, 0 the best: its number in the registry of paths where `*` is
/// searchable, and else the place of the first searchable attribute that is the path or, with a dot, begins it. None
/// where the path is not searchable. Takes no memory.
pub fn rank_of(settings: &Settings, path: &str, number: u16) -> Option<u16>
    ensures { result ≡ rank_in settings.now path.now number }
{
    let entries = settings.searchable_attributes();
    if names(entries, "*") {
        return Some(number);
    }
    for (place, entry) in entries.iter().enumerate() {
        if covers(path, entry.as_str()) {
            return Some(place as u16);
        }
    }
    None
}

/// Whether some attribute is the path or, with a dot, begins it. Takes no memory.
pub fn is_covered(entries: &[Word], path: &str) -> bool
    ensures { result ≡ is_covered_in entries.now path.now }
{
    entries.iter().any(|entry| covers(path, entry.as_str()))
}

/// Whether the values at a path are kept for filters and orders: an entry of the filterable or of the sortable
/// attributes covers the path, or a ranking rule orders by exactly it. Takes no memory.
pub fn is_faceted(settings: &Settings, path: &str) -> bool
    ensures { result ≡ is_faceted_in settings.now path.now }
{
    is_covered(settings.filterable_attributes(), path)
        || is_covered(settings.sortable_attributes(), path)
        || is_ordered_by(settings.ranking_rules(), path)
}

/// Whether some ranking rule orders by exactly this path.
fn is_ordered_by(rules: &[Word], path: &str) -> bool
    ensures { result ≡ list_any (λ text. orders_by_rule path.now (rule_of text)) rules.now }
{
    rules.iter().any(|rule| orders_by(rule.as_str(), path))
}

/// Whether a hit shows the top-level member of this name. Takes no memory.
pub fn is_displayed(settings: &Settings, name: &str) -> bool
    ensures { result ≡ is_displayed_in settings.now name.now }
{
    let entries = settings.displayed_attributes();
    names(entries, "*") || names(entries, name)
}

fn names(entries: &[Word], name: &str) -> bool
    ensures { result ≡ names_in entries.now name.now }
{
    entries.iter().any(|entry| entry.as_str() == name)
}

/// Whether a path begins with an entry, and ends there or goes on with a dot.
fn covers(path: &str, entry: &str) -> bool
    ensures { result ≡ covers_path path.now entry.now }
{
    match path.as_bytes().strip_prefix(entry.as_bytes()) {
        Some(rest) => ends_or_has_dot(rest),
        None => false,
    }
}

fn ends_or_has_dot(rest: &[u8]) -> bool
    ensures { result ≡ is_end_or_dot rest.now }
{
    match rest.first() {
        Some(byte) => *byte == b'.',
        None => true,
    }
}
