//! The hits of a search over an index that answers by sets of documents, and the buckets of every ranking rule.
//!
//! `Rules` takes an index as a `RuleSource`, a query's graph and ranking rules. It finds the documents that match, and
//! is a `RuleSet` over them: of each level it gives the documents by the entry that the rule at that place costs them,
//! the least entry first. A level of the query is a stream of its own, and what has one entry in several levels is one
//! bucket. Nothing is asked of the source but for the bucket that is given, and when a level is opened: the conditions
//! on numbers of a rule on several words, and the documents in order of a rule on values, where the source sooner puts them in
//! order than goes through their entries. The crate stands on `search_base`, `doc_sets`, `condition_graph`,
//! `path_costs`, `sort_rule` and `bucket_sort`.
//!
//! `page` gives the asked slice of the documents that match, by their costs and then by internal id, opening no more
//! buckets than lead to that slice. Its definitions know no bucket: they list the costs of each document that matches,
//! and take the slice of the list.
#![tactic(auto)]

mod asked;
mod buckets;
mod hits;
mod keyed;
mod listed;
mod matching;
mod paths;
mod query;
mod rules;
mod source;

pub use buckets::RuleBuckets;
pub use hits::{HitWindow, page};
pub use rules::Rules;
pub use source::RuleSource;
