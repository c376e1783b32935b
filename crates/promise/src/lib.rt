// The promise of the protocol: each statement stands on the contract of a function that does nothing,
// and is proved of every world that the network can reach.
#![tactic(auto)]

ghost use Rattle.protocol.specs.World.{rules};
ghost use Rattle.protocol.specs.Symbols.{symbols};
ghost use Rattle.promise.specs.Promise.{Always, RightKeys, CallerHasPartner, CalledHasPartner, OneEach, EndsByItsWords, Unshared, SecretKept, CalledSecretKept, OnlyGivenAway, NobodyElseHasIt, ChoiceOffered, RefusalIsSilent, TablesHoldTheNewest, UndisturbedEnds, EveryRunKeepsThePromise};

// The key that verified a signature is the identity key of the side that the session is with.
pub fn sessions_go_by_the_right_keys()
    ensures { Always RightKeys }
{}

// A caller that ends surely has a partner.
pub fn a_sure_caller_has_a_partner()
    ensures { Always CallerHasPartner }
{}

// A called side that ends surely has a partner.
pub fn a_sure_called_side_has_a_partner()
    ensures { Always CalledHasPartner }
{}

// Secrets, partners and ends are one each.
pub fn one_each()
    ensures { Always OneEach }
{}

// What a caller ends with follows from its hello and the reply's body.
pub fn a_caller_ends_by_its_words()
    ensures { Always EndsByItsWords }
{}

// No other caller's session shares the secret of a sure one.
pub fn a_sure_secret_is_unshared()
    ensures { Always Unshared }
{}

// The secret of a sure session is never derived.
pub fn a_sure_secret_is_kept()
    ensures { Always SecretKept }
{}

// Nor is that of a session that the called side ended surely.
pub fn a_sure_called_secret_is_kept()
    ensures { Always CalledSecretKept }
{}

// Where identity keys alone are stolen, only the two ends can give a secret away.
pub fn only_the_two_give_it_away()
    ensures { Always OnlyGivenAway }
{}

// Everybody else never has it.
pub fn nobody_else_has_it()
    ensures { Always NobodyElseHasIt }
{}

// A caller ends only with a choice that it offered.
pub fn the_choice_was_offered()
    ensures { Always ChoiceOffered }
{}

// A refused word changes nothing but its count, and nothing is heard of it.
pub fn a_refusal_is_silent()
    ensures { Always (RefusalIsSilent (rules symbols)) }
{}

// An undisturbed session ends on both sides.
pub fn an_undisturbed_session_ends()
    ensures { Always (UndisturbedEnds (rules symbols)) }
{}

// The tables are bounded, and hold the newest.
pub fn tables_hold_the_newest()
    ensures { Always TablesHoldTheNewest }
{}

// All of it, of every list of commands from the start.
pub fn every_run_keeps_the_promise()
    ensures { EveryRunKeepsThePromise }
{}
