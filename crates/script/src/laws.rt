// Theorems about scripts, each on the contract of a function that does nothing.
ghost use Rattle.script.specs.Laws.{Ignored, LatestHold};

// Comments and blanks in front don't change what a line says.
pub fn comments_and_blanks_are_ignored()
    ensures { Ignored }
{}

// After any lines a side has the preferences of its latest `side` line.
pub fn latest_preferences_hold()
    ensures { LatestHold }
{}
