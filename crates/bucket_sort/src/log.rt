ghost use Rattle.std.specs.Prelude.{◌≡◌, ℕ, ◌-◌, List, [], ◌∷◌, ◌++◌, Option, Some, None, OnOk, OnErr, IsOk, IsErr};
ghost use Rattle.std.specs.Option.{option_map};

use search_base::{CostKey, NoMemory};
use std::alloc::Global;
use std::marker::Model;

/// A class that was opened: its level, its key and how many documents it has.
#[derive(Debug, Drop, PartialEq, Eq)]
pub struct Opening {
    pub level: usize,
    pub key: CostKey,
    pub size: u64,
}

/// What is told of each class that a search opens.
pub trait BucketLog: Drop {
    ghost use Rattle.bucket_sort.specs.declared.log.Opening.{Opening};
    ghost use Rattle.bucket_sort.specs.Told.{and_then};

    // The list of what was opened, where the log tells it.
    ghost told: { Self → Option (List Opening) };

    /// Takes note of a class that was opened. Where there is no memory it tells what it told before.
    fn opened(&mut self, level: usize, key: &CostKey, size: u64) -> Result<(), NoMemory>
        ensures ok { OnOk result (told self.new
            ≡ and_then (told self.old) (record { level = level; key = key.now; size = size } ∷ [])) }
        ensures err { OnErr result (told self.new ≡ told self.old) };

    /// What was opened so far, in order, where the log tells it.
    fn heard(&self) -> Option<&[Opening]>
        ensures { option_map (λ rows. rows.now) result ≡ told self.now };
}

/// A log that tells nothing.
#[derive(Drop)]
pub struct SilentLog;

impl BucketLog for SilentLog {
    ghost told = { λ _. None };

    fn opened(&mut self, _level: usize, _key: &CostKey, _size: u64) -> Result<(), NoMemory>
        ensures { IsOk result }
    {
        Ok(())
    }

    fn heard(&self) -> Option<&[Opening]> {
        None
    }
}

/// A log that tells all that was opened.
#[derive(Drop)]
pub struct RecordLog {
    rows: Vec<Opening>,
}

impl Model for RecordLog {
    ghost use Rattle.std.specs.Prelude.{List};
    ghost use Rattle.bucket_sort.specs.declared.log.Opening.{Opening};

    ghost Value = { List Opening };

    ghost view = { λ log. log.rows.items };
}

impl RecordLog {
    /// An empty log. It takes no memory.
    pub fn new(alloc: Global) -> RecordLog
        ensures { result ≡ [] }
    {
        RecordLog {
            rows: Vec::new(alloc),
        }
    }
}

impl BucketLog for RecordLog {
    ghost told = { λ log. Some log };

    fn opened(&mut self, level: usize, key: &CostKey, size: u64) -> Result<(), NoMemory> {
        let key = key.clone()?;
        self.rows.push(Opening { level, key, size })?;
        Ok(())
    }

    fn heard(&self) -> Option<&[Opening]> {
        Some(&self.rows)
    }
}

/// A log that records and tells what it has, until its call number `at`, counted from 0: from that
/// one on it answers `NoMemory`.
#[derive(Drop)]
pub struct RefuseLog {
    record: RecordLog,
    left: u64,
}

impl Model for RefuseLog {
    ghost use Rattle.bucket_sort.specs.RefuseView.{RefuseView};

    ghost Value = { RefuseView };

    ghost view = { λ log. record { rows = log.record; left = log.left } };
}

impl RefuseLog {
    /// A log that takes `at` calls. It takes no memory.
    pub fn new(alloc: Global, at: u64) -> RefuseLog
        ensures { result ≡ record { rows = []; left = at } }
    {
        RefuseLog {
            record: RecordLog::new(alloc),
            left: at,
        }
    }
}

impl BucketLog for RefuseLog {
    ghost told = { λ log. Some log.rows };

    fn opened(&mut self, level: usize, key: &CostKey, size: u64) -> Result<(), NoMemory>
        ensures ok { OnOk result (self.new.rows ≡ self.old.rows
            ++ record { level = level; key = key.now; size = size } ∷ []) }
        ensures err { OnErr result (self.new.rows ≡ self.old.rows) }
        ensures refuses { self.old.left ≡ 0 → IsErr result }
        ensures left { self.new.left ≡ self.old.left - 1 }
    {
        if self.left == 0 {
            return Err(NoMemory);
        }
        self.left -= 1;
        self.record.opened(level, key, size)
    }

    fn heard(&self) -> Option<&[Opening]> {
        self.record.heard()
    }
}
