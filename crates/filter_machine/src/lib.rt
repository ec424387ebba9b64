//! A machine that reads filters, one token at a time.
//!
//! The grammar of filters is a relation over derivations and spelled tokens in `specs/Grammar.antt` and
//! `specs/Text.antt`, which knows nothing of the machine. `specs/Machine.antt` is the machine over tokens, with a stack of
//! its own, so that no text makes it recurse, and `specs/Scan.antt` the scan that makes tokens of bytes. `next_step` is
//! one step of the machine; `class_of`, `fits` and `word_token` are what the scan asks. Lemmas in `proofs/` say that
//! machine and scan take exactly the texts that the grammar writes. The crate stands on `filter_tree` and `search_base`.
#![tactic(auto)]

mod machine;
mod scan;
mod steps;
mod token;

pub use machine::{Frame, Level, Machine, Place, Reading, StepFault, and_of, depth, or_of};
pub use scan::{Class, Quote, class_of, fits, word_token};
pub use steps::{new_level, next_step};
pub use token::{Comparison, Token};
