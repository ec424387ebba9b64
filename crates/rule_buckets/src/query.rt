use crate::source::RuleSource;
use search_base::{Graph, Rule};
use std::marker::Model;

/// What gives documents their entries: an index, a query and a rule.
#[derive(Drop)]
pub(crate) struct RuleQuery<'a, S: RuleSource> {
    pub(crate) source: &'a S,
    pub(crate) graph: &'a Graph,
    pub(crate) rule: Rule,
}

impl<'a, S: RuleSource> Model for RuleQuery<'a, S> {
    ghost use Rattle.rule_buckets.specs.Entries.{QueryView};

    ghost Value = { QueryView S };

    ghost view = { λ q. record { source = q.source.now; graph = q.graph.now; rule = q.rule } };
}
