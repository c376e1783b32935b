// Theorems about words as bytes, each on the contract of a function that does nothing.
ghost use Rattle.formats.specs.Laws.{BytesAreReadOneWay, SignedBytesAreApart, PartsAreAsWritten};

// What is written is read back, what is read was written so, and nothing else is taken.
pub fn bytes_are_read_one_way()
    ensures { BytesAreReadOneWay }
{}

// Signed bytes determine what they are of.
pub fn signed_bytes_are_apart()
    ensures { SignedBytesAreApart }
{}

// The parts of a reply that are handed on are those that were written.
pub fn parts_are_as_written()
    ensures { PartsAreAsWritten }
{}
