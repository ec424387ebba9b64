use doc_values::DocumentText;

/// Some documents of an index in the order of their internal ids, and how many documents the index has.
#[derive(Drop)]
pub struct Listing<'a> {
    pub total: u64,
    pub documents: Vec<&'a DocumentText>,
}
