ghost use Rattle.search_server.specs.Laws.{DisksGoOnTelling, LastTaskIsNotLost, NoTaskIsLost, ReadsGoOnTelling, TurnsGoOnTelling, WritesGoOnTelling};

/// A read of a link that fails or not: the link tells which bytes are left exactly where it told that before.
pub fn reads_go_on_telling()
    ensures { ReadsGoOnTelling }
{}

/// A write to a link that fails or not: the link tells what was written exactly where it told that before.
pub fn writes_go_on_telling()
    ensures { WritesGoOnTelling }
{}

/// A write, a cut or a sync of a disk that fails or not: the disk tells what it holds exactly where it told that
/// before.
pub fn disks_go_on_telling()
    ensures { DisksGoOnTelling }
{}

/// A turn of a link, whatever it came to, leaves a link that tells what it told before.
pub fn turns_go_on_telling()
    ensures { TurnsGoOnTelling }
{}

/// However a run of requests ends, with the batch behind the last reply run or not: once all tasks that wait have run,
/// the machine holds what those that waited before and those that the requests brought leave one by one, in order.
pub fn no_task_is_lost()
    ensures { NoTaskIsLost }
{}

/// The same of a run whose last request was answered by the machine, and has no reply.
pub fn last_task_is_not_lost()
    ensures { LastTaskIsNotLost }
{}
