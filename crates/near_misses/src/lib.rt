// Near misses: sides that leave one rule out, and what the network does with them. Each theorem says what breaks then,
// or, of two rules, that nothing does: those are safeguards.
#![tactic(auto)]

ghost use Rattle.near_misses.specs.Attacks.{OwnPartsBreak, UnsignedHelloBreaks, UncomparedBreaks, KeepingKeysBreaks, BelievingHellosBreaks, UnsignedSealBreaks, OneKeyBreaks, OfferFirstBreaks, AnsweredFaultsTell, NeverEndingIsNotEnough, BareEndsBreak};
ghost use Rattle.near_misses.specs.Safeguards.{MarksAreASafeguard, RefusingTheOneIsASafeguard};

// Each side signs only its own part of the words.
pub fn own_parts_break()
    ensures { OwnPartsBreak }
{}

// The reply is signed without the hello in it.
pub fn unsigned_hello_breaks()
    ensures { UnsignedHelloBreaks }
{}

// The caller doesn't compare the hello in the reply.
pub fn uncompared_breaks()
    ensures { UncomparedBreaks }
{}

// The caller keeps its ephemeral key after the end.
pub fn keeping_keys_breaks()
    ensures { KeepingKeysBreaks }
{}

// The called side believes in the caller at the hello.
pub fn believing_hellos_breaks()
    ensures { BelievingHellosBreaks }
{}

// The signature doesn't cover the sealed secret.
pub fn unsigned_seal_breaks()
    ensures { UnsignedSealBreaks }
{}

// One ephemeral key serves two calls.
pub fn one_key_breaks()
    ensures { OneKeyBreaks }
{}

// The choice goes by the offer's order.
pub fn offer_first_breaks()
    ensures { OfferFirstBreaks }
{}

// Faults are answered in words.
pub fn answered_faults_tell()
    ensures { AnsweredFaultsTell }
{}

// A side never ends anything.
pub fn never_ending_is_not_enough()
    ensures { NeverEndingIsNotEnough }
{}

// An end holds only what was signed of the reply, and nothing is marked.
pub fn bare_ends_break()
    ensures { BareEndsBreak }
{}

// Nothing is marked before it is signed, and the end holds the whole reply: the promise still holds.
pub fn marks_are_a_safeguard()
    ensures { MarksAreASafeguard }
{}

// The group's one isn't refused: the promise still holds.
pub fn refusing_the_one_is_a_safeguard()
    ensures { RefusingTheOneIsASafeguard }
{}
