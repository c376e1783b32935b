// Worked examples of the standards hold of the definitions, by computation.
ghost use Rattle.hashes.specs.Examples.{Examples};

pub fn examples_hold()
    ensures { Examples }
{}
