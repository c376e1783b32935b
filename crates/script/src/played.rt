// What a call came to.
use crate::call::Call;
use std::fmt;
use words::cipher::Cipher;
use words::fault::Fault;

// Who called whom, and the called side's choice or the refusal.
#[derive(Clone, Copy)]
pub struct Played {
    pub call: Call,
    pub answer: Result<Cipher, Fault>,
}

impl fmt::Display for Played {
    fn fmt<W: fmt::Write>(&self, f: &mut fmt::Formatter<W>) -> fmt::Result {
        let call = self.call;
        match self.answer {
            Ok(cipher) => write!(f, "{call}: {} chooses {}", call.called, cipher.number()),
            Err(fault) => write!(f, "{call}: refused, {} ({fault})", fault.number()),
        }
    }
}
