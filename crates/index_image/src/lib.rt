//! States of indexes as bytes: the image, of version 2, and of version 1 as it was written before.
//!
//! Promises that what is encoded is the one spelling of a state in version 2, that exactly spellings in one of the two
//! versions are decoded, to what was spelled, and that damage is told by the place where the first bad field begins.
//! Contracts see `ImageRows` through `image_view`, and bytes as lists of numbers.
//! Stands on `change_payloads` for the fields that changes have too, on `search_base` for words and outcomes, on
//! `doc_values` for documents, on `index_settings` for settings, and on `serde_json` for JSON.
#![tactic(auto)]

mod encoding;
mod image;
mod index;
mod names;
mod numbers;
mod outcomes;
mod rows;

pub use encoding::encode;
pub use image::decode;
pub use rows::{ImageDocument, ImageIndex, ImageRows};
