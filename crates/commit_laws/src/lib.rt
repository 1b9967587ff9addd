//! Laws of commits: whatever its peers do, a host's streams commit their operations in order; and so of every run, and of runs that
//! follow a script.
#![tactic(auto)]

ghost use Rattle.commit_laws.specs.Laws.{
  AtRestAllIsCommitted,
  AtRestNoStreamWaits,
  BegunAreCounted,
  CommitsAreFirst,
  CommitsAreSummed,
  CompleteIsCommitted,
  CompleteIsCounted,
  FollowedCommits,
  FollowedFrontIsFollowed,
  FollowingIsComplete,
  FollowingIsTested,
  NoOtherCommits,
};
ghost use Rattle.commit_laws.specs.OwnLaws.{OwnAreCounted, OwnCommitsAreFirst, OwnRequestsAreAlone, OwnRequestsAreAwaited, OwnWaitsForRequest};

/// By its host's own events, a stream has as many operations as it began, and its commits name the first of them, each once and in
/// their order: all, or all but the last where the stream waits (own rule: the order of a stream).
pub fn own_streams_commit_in_order()
    ensures counted { OwnAreCounted }
    ensures first { OwnCommitsAreFirst }
{}

/// By its host's own events, a stream that waits has a request open, each open request is of the last operation of a stream that
/// waits, and no stream has two open (own rule).
pub fn own_streams_wait()
    ensures waits { OwnWaitsForRequest }
    ensures awaited { OwnRequestsAreAwaited }
    ensures alone { OwnRequestsAreAlone }
{}

/// After every run, a stream has as many operations as its host began for it, and its commits name the first of them, each once and
/// in their order: all, or all but the last where the stream waits. No commit is of another stream (own rule).
pub fn streams_commit_in_order()
    ensures counted { BegunAreCounted }
    ensures first { CommitsAreFirst }
    ensures no_other { NoOtherCommits }
{}

/// Where nothing is pending no stream waits, so each operation that was begun is committed (own rule).
pub fn at_rest_all_is_committed()
    ensures waits { AtRestNoStreamWaits }
    ensures all { AtRestAllIsCommitted }
{}

/// A run follows a script where the operations that each stream began are the first of the script's. Then a front of it does, and
/// the commits of each stream name the first of the script's operations: all of them, once all are begun and nothing is pending
/// (own rule).
pub fn scripts_are_followed()
    ensures front { FollowedFrontIsFollowed }
    ensures commits { FollowedCommits }
    ensures complete { FollowingIsComplete }
{}

/// Two tests for whoever has a trace: that a run follows a script, event by event, each operation being the script's of its stream
/// and index; and that each operation of the script is committed once and in order, by how many each stream began, whether or not
/// something is pending (own rule).
pub fn following_is_tested()
    ensures tested { FollowingIsTested }
    ensures complete { CompleteIsCommitted }
{}

/// A run that follows a script has as many commits as operations that are done, over all streams. So each operation of the script is
/// committed exactly where there are as many commits as operations (own rule).
pub fn commits_are_counted()
    ensures summed { CommitsAreSummed }
    ensures counted { CompleteIsCounted }
{}
