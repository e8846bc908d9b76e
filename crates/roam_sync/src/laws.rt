//! Laws of one link, whatever is lost, late, repeated or reordered. Each is the contract of a function with an empty body.
ghost use Rattle.roam_sync.specs.Laws.{BaseIsShared, EachPairIsTrue, NoChangeIsBad, NoNinthPair, NoUpdateMakesAGap, NumbersRise, OneRoundSuffices, UpdatesLeadOn};

use roam_update::Synced;

/// After every list of events of one link, each pair of its sender or its receiver is the state that was offered under its number.
pub fn each_pair_is_true<S: Synced>()
    ensures pairs { EachPairIsTrue S.applied }
{}

/// After every list of events of one link: the numbers at both ends rise. The receiver has the sender's base, and the sender has all that
/// the receiver has from there on. Each update that was ever sent leads from the state of its old number to the state of its new one. The
/// receiver has the old number or a newest one that isn't below the new.
pub fn both_ends_agree<S: Synced>()
    ensures rising { NumbersRise S.applied }
    ensures base { BaseIsShared S.applied }
    ensures updates { UpdatesLeadOn S.applied }
{}

/// After every list of events of one link, any update that was ever sent makes no gap and has no bad diff, and neither end ever has a
/// ninth pair.
pub fn each_update_is_welcome<S: Synced>()
    ensures gap { NoUpdateMakesAGap S.applied }
    ensures change { NoChangeIsBad S.applied }
    ensures ninth { NoNinthPair S.applied }
{}

/// After every list of events of one link, one round brings the receiver to the newest number that was offered, and leaves the sender with
/// that one alone. In a round the newest is sent, its update comes, and the receiver's answer comes.
pub fn one_round_suffices<S: Synced>()
    ensures round { OneRoundSuffices S.applied }
{}
