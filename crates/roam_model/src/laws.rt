//! Laws of every world that can be reached. Each is the contract of a function with an empty body.
ghost use Rattle.roam_model.specs.Laws.{Always, CountsInstructions, HasOneReply, HasReply, HoldAtMostEight, HoldTrueScreens, KeepsAll, LeavesNoGap, NamesOneText, OffersNewest, OneRoundSuffices, RecordsFit, RepliesToLatest, ShowsTrueScreens, StartsAgree, TakesActsInOrder, WatchersDisturbNothing, WatchersTakeNoPart};
ghost use Rattle.roam_model.specs.Worlds.{World};
ghost use Rattle.roam_model.specs.Limits.{Limits};
ghost use Rattle.roam_model.specs.Outputs.{BeginsWithNoOutput, PassesEachByteOn};

/// The headline. After every list of events with their replies, each client instance that shows number n shows exactly the screen that the
/// control functions and the layout commands give for the session's inputs up to the tick that made n. The acts taken from each client
/// instance are the first of those typed there, each once and in order.
pub fn clients_show_the_session()
    ensures screens { Always ShowsTrueScreens }
    ensures acts { Always TakesActsInOrder }
{}

/// The invariant after every list of events, the headline with its basis:
///
/// - Each update that was ever sent leads from the screen of its old number to that of its new one.
/// - An instruction's id names one text for good.
/// - Each pair of either end is a number with its screen.
/// - A client instance has its sender's base. Its pairs from there on are among the sender's, and it gathered no id above those that were
///   sent
///   to it.
/// - Each update that was sent has its old number there, or its new one isn't above the one that is shown.
/// - A record's count is the length of a front of the acts typed.
///
/// So two instances of one version that show one number show one screen. A record is one of its instance's version and kind. The number of
/// instructions that an instance keeps is how many it sent.
pub fn what_always_holds()
    ensures all { Always KeepsAll }
    ensures agree { Always StartsAgree }
    ensures fit { Always RecordsFit }
    ensures counted { Always CountsInstructions }
{}

/// After every list of events: each pair of either end is a number with its screen, and neither end ever has a ninth pair. No datagram that
/// was sent leaves a gap or has a bad diff, whenever and however often it comes.
pub fn links_stay_true()
    ensures pairs { Always HoldTrueScreens }
    ensures eight { Always HoldAtMostEight }
    ensures gap { Always LeavesNoGap }
{}

/// After every list of events: an instruction's id names one text for good, and each instruction that was sent is within the limits of its
/// text. Each datagram of a tick goes to the source of the greatest-numbered datagram that came from its client instance.
pub fn datagrams_keep_their_rules()
    ensures ids { Always NamesOneText }
    ensures limits { Always Limits }
    ensures address { Always RepliesToLatest }
{}

/// One round suffices. After every list of events, a server tick sends to a client instance that is in a slot, and just those datagrams
/// come to that slot, each at least once, in any order. Then that instance shows the newest number of its sender. That is the newest number
/// wherever the tick could offer it: if the sender had fewer than eight, or had that number already.
pub fn one_round_suffices()
    ensures round { Always OneRoundSuffices }
    ensures newest { Always OffersNewest }
{}

/// After every list of events, each event has a reply that doesn't report want of memory, and exactly one such reply, which leads to one
/// world.
pub fn each_event_is_answered()
    ensures reply { Always HasReply }
    ensures one { Always HasOneReply }
{}

/// After every list of events, nothing is typed at an instance that only watches, and nothing is taken of it. In every world, of whatever
/// datagrams, one that comes from such an instance leaves the session and every other record as they were.
pub fn watchers_only_watch()
    ensures part { Always WatchersTakeNoPart }
    ensures rest { (w : World) → WatchersDisturbNothing w }
{}

/// Each byte for a pane's program, of a key or of its terminal's answers, goes to it once and in order. While the pane is there, the bytes
/// taken, followed by those queued, are all of them. At the beginning of a pane, nothing is queued.
pub fn programs_get_each_byte()
    ensures passes { PassesEachByteOn }
    ensures begins { BeginsWithNoOutput }
{}
