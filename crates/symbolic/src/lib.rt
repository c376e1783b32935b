// Terms, and what anybody can derive from what was heard. This crate knows nothing of the protocol.
#![tactic(auto)]

ghost use Rattle.symbolic.specs.Laws.{SameSaysEqual, GroupLaws, HearingMore};

// Terms are told apart by a test.
pub fn same_says_equal()
    ensures { SameSaysEqual }
{}

// Keys raise any element in any order, and the group's one stays what it is.
pub fn group_laws()
    ensures { GroupLaws }
{}

// Who has heard more derives no less.
pub fn hearing_more_gives_no_less()
    ensures { HearingMore }
{}
