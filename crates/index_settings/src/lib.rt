//! The settings of an index: their defaults, how a patch changes them, and how they are printed.
//!
//! Promises that a patch and what is printed are their definition, that of the members which cannot be taken a refusal
//! names the first in byte order, and that what is printed of settings, taken as a patch, gives them back.
//! Contracts see `Settings` as a `SettingsView`: lists of texts, numbers, and synonyms in byte order of their keys.
//! Stands on `search_base` for words and on `serde_json` for JSON as RFC 8259 has it.
#![tactic(auto)]

mod fault;
mod json;
mod laws;
mod patching;
mod paths;
mod rule;
mod settings;
mod shape;
mod synonyms;
mod texts;

pub use fault::{SettingsFault, SettingsRefusal};
pub use json::to_json;
pub use laws::{patch_is_done_once, printed_gives_back, texts_name_rules};
pub use patching::{patch, patch_checked};
pub use paths::{is_covered, is_displayed, is_faceted, rank_of};
pub use rule::{RankingRule, ranking_rule};
pub use settings::Settings;
pub use shape::check_patch;
pub use synonyms::SynonymList;
