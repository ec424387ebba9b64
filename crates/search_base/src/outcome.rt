use crate::word::Word;

/// A finished task: the uid of its index, the byte of its kind, and the number of the refusal that refused it, or 0 where
/// it succeeded.
#[derive(Drop)]
pub struct OutcomeRow {
    pub uid: Word,
    pub kind: u8,
    pub row: u8,
}
