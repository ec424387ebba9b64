ghost use Rattle.queued_changes.specs.Laws.{OutcomesTell, SettlingIsRunning, RoomIsRunning, AcceptedRunsLast, AcceptedIsCounted, WaitingIsAccepting, OpeningRunsEach, TasksRunInOrder, EndRunsInOrder, TasksAreInOrder, TasksAreCounted};

use crate::Worker;

/// The outcome of a task is that of a success exactly where its change was made.
pub fn outcomes_tell_what_was_made<C, W: Worker<C>>()
    ensures { OutcomesTell W.changed W.accepts }
{}

/// To run the oldest batch, or to make room, changes nothing of what all tasks leave once they have run; and a change
/// that is accepted is the last of them, and is counted.
pub fn running_in_batches_is_running_in_order<C, W: Worker<C>>()
    ensures settling { SettlingIsRunning W.changed }
    ensures room { RoomIsRunning W.changed }
    ensures last { AcceptedRunsLast W.changed }
    ensures counted { AcceptedIsCounted W.changed }
    ensures waiting { WaitingIsAccepting W.changed }
{}

/// A machine that is opened has run each task in its order, whatever the batches were.
pub fn opening_runs_each_task<C, W: Worker<C>>()
    ensures { OpeningRunsEach W.changed }
{}

/// Where each reply 202 accepts a change and any other changes nothing, a run of requests leaves, once what waits has
/// run, what their changes leave one by one, in the order of the requests; the mark changes nothing of that, and the
/// first requests bring the first of the changes.
pub fn requests_run_their_tasks_in_order<C, W: Worker<C>, Q>()
    ensures runs { TasksRunInOrder W.changed Q }
    ensures ends { EndRunsInOrder W.changed Q }
    ensures first { TasksAreInOrder W.changed Q }
    ensures counted { TasksAreCounted W.changed Q }
{}
