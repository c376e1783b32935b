// The protocol: what a side does, over any primitives; sides and a network that does what it likes; and both over terms.
// The definitions are in specs/. What stands here are the theorems about words as terms.
#![tactic(auto)]

ghost use Rattle.protocol.specs.Laws.{WordsAreReadOneWay, SignedPartsAreApart};

// Words are read in one way only, and different words are different terms.
pub fn words_are_read_one_way()
    ensures { WordsAreReadOneWay }
{}

// No signed part is taken for another.
pub fn signed_parts_are_apart()
    ensures { SignedPartsAreApart }
{}
