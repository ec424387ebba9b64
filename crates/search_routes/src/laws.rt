ghost use Rattle.search_routes.specs.Laws.{AcceptedIsCounted, AcceptedWaits, EachIsAnsweredAlike, NoneAnswers503};

/// A request that is answered by 202 was counted as a task, and one that is answered otherwise changed nothing.
pub fn what_is_accepted_is_counted()
    ensures { AcceptedIsCounted }
{}

/// A request that is answered by 202 put the task of a change behind those that wait, and one that is answered
/// otherwise changed nothing.
pub fn what_is_accepted_waits()
    ensures { AcceptedWaits }
{}

/// No step of the machine answers 503: that status says that memory was wanting, and nothing else does.
pub fn none_answers_503()
    ensures { NoneAnswers503 }
{}

/// Several searches that are answered show in order what each of them alone is answered with, and the uid of its index
/// besides.
pub fn each_is_answered_alike()
    ensures { EachIsAnsweredAlike }
{}
