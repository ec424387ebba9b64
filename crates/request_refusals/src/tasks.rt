ghost use Rattle.std.specs.Prelude.{◌≡◌};
ghost use Rattle.request_refusals.specs.Tasks.{row_of, code_of_row};

/// Why a task fails. Each has a number by which the outcome of the task is kept, and a code by which it is told.
#[derive(Clone, Copy, Debug)]
pub enum TaskRefusal {
    /// The machine has no index of the task's uid.
    NoIndex,
    /// The machine has an index of the uid, and one is to be made.
    IndexExists,
    /// The index has a primary key, and the task names another.
    KeyDiffers,
    /// A primary key must be inferred, and no name of the first document ends in `id`.
    NoCandidate,
    /// A primary key must be inferred, and several names of the first document end in `id`.
    SeveralCandidates,
    /// A document has no member of the primary key's name.
    MissingId,
    /// A document has one that is no id.
    BadId,
    /// The task would make one index more than 1,000.
    IndexesSpent,
    /// A new document would take an internal number of 1,000,000 or more.
    IdsSpent,
    /// The index would have more than 1,000 paths.
    PathsSpent,
}

impl TaskRefusal {
    /// The number of the refusal. It is never 0, which stands for a task that succeeded.
    pub fn row(self) -> u8
        ensures { result ≡ row_of self }
    {
        match self {
            TaskRefusal::NoIndex => 23,
            TaskRefusal::IndexExists => 24,
            TaskRefusal::KeyDiffers => 26,
            TaskRefusal::NoCandidate => 27,
            TaskRefusal::SeveralCandidates => 28,
            TaskRefusal::MissingId => 29,
            TaskRefusal::BadId => 30,
            TaskRefusal::IndexesSpent => 32,
            TaskRefusal::IdsSpent => 33,
            TaskRefusal::PathsSpent => 34,
        }
    }
}

/// The code of the refusal of this number; no text where no task is refused by that number.
pub fn task_code(row: u8) -> &'static str
    ensures { result.now ≡ code_of_row row }
{
    match row {
        23 => "index_not_found",
        24 => "index_already_exists",
        26 => "index_primary_key_already_exists",
        27 => "index_primary_key_no_candidate_found",
        28 => "index_primary_key_multiple_candidates_found",
        29 => "missing_document_id",
        30 => "invalid_document_id",
        32 => "indexes_spent",
        33 => "ids_spent",
        34 => "paths_spent",
        _ => "",
    }
}
