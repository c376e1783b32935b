// Worked examples of RFC 8439 hold of the definition of ChaCha20, by computation.
ghost use Rattle.ciphers.specs.Examples.{Examples};

pub fn examples_hold()
    ensures { Examples }
{}
