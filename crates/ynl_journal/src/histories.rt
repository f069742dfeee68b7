//! When entries are a closed history, in which each has the cluster's reply, and what one shows.

ghost use Rattle.ynl_journal.specs.Promises.{AgreeingAreHistories, HistoriesGoOn, HistoriesShowAlone};

/// A tenant that alone may use an exclusive partition of an accepted configuration is as alone there:
/// what the history has at the places of its view are the replies of a cluster that holds its queues
/// alone and is given only the view, after each entry the partition looks as it does in that cluster, and
/// no allocation takes a queue above its maximum there.
pub fn histories_show_tenants_alone()
    ensures { HistoriesShowAlone }
{}

/// Entries of which each has a reply, and none another than the cluster's, are a closed history: so is
/// a journal that passes its audit and lacks no reply.
pub fn agreeing_entries_are_histories()
    ensures { AgreeingAreHistories }
{}

/// A journal may be cut at any place: it is a history from a state exactly where its first part is one, and
/// the second is one from the state after the first. So closed journals of a scheduler that is closed and goes
/// on again and again are one history, of which the law above holds.
pub fn histories_go_on()
    ensures { HistoriesGoOn }
{}
