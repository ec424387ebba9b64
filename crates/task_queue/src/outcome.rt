/// What became of a task that ran.
#[derive(Clone, Copy, Debug, PartialEq, Eq)]
pub enum Outcome {
    Succeeded,
    /// The refusal of this number refused it. None has the number 0.
    Failed { row: u8 },
}
