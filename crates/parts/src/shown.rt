// What is shown of each word, of records and of settings.
ghost use Rattle.std.specs.Prelude.{◌≡◌, ◌/◌, length, IfOk};
ghost use Rattle.words.specs.Listed.{listed};
ghost use Rattle.formats.specs.Views.{as_hello, as_reply};
ghost use Rattle.record_formats.specs.Views.{as_record};
ghost use Rattle.parts.specs.Parts.{hello_on, answer_on, reply_on, end_on, record_on, keys_on, settings_on};

use crate::lines::Lines;
use formats::hello::Hello;
use formats::reply::Reply;
use record_formats::packet::Packet;
use record_formats::settings::Settings;
use std::alloc::AllocError;
use words::preferences::Preferences;

impl Lines {
    // The parts of a hello, each line behind an indentation.
    pub fn hello(self, indent: &str, hello: &Hello) -> Result<Lines, AllocError>
        ensures { IfOk result (λ l. l ≡ hello_on self indent.now (as_hello hello.now)) }
    {
        self.number(indent, "caller", u64::from(hello.caller))?
            .number(indent, "called side", u64::from(hello.called))?
            .ciphers(indent, "cipher offered", hello.offer.as_slice())?
            .bytes(indent, "caller's nonce", hello.nonce.0.bytes())?
            .bytes(
                indent,
                "caller's ephemeral public key",
                hello.half.0.bytes(),
            )
    }

    // What follows the hello in a reply.
    fn answer(self, reply: &Reply) -> Result<Lines, AllocError>
        ensures { IfOk result (λ l. l ≡ answer_on self (as_reply reply.now)) }
    {
        let body = &reply.body;
        self.number("  ", "choice", u64::from(body.choice.number()))?
            .bytes("  ", "called side's nonce", body.nonce.0.bytes())?
            .bytes("  ", "seal: its public key", body.seal.0.bytes())?
            .bytes("  ", "seal: encrypted secret and tag", body.sealed.bytes())?
            .bytes("  ", "called side's signature", reply.signature.0.bytes())
    }

    // The parts of a reply, with the hello's behind a deeper indentation.
    pub fn reply(self, reply: &Reply) -> Result<Lines, AllocError>
        ensures { IfOk result (λ l. l ≡ reply_on self (as_reply reply.now)) }
    {
        self.title("  ", "hello")?
            .hello("    ", &reply.body.hello)?
            .answer(reply)
    }

    // What can be seen of an end: its locked bytes.
    pub fn end(self, locked: &[u8]) -> Result<Lines, AllocError>
        ensures { IfOk result (λ l. l ≡ end_on self locked.now) }
    {
        self.bytes(
            "  ",
            "reply and caller's signature, encrypted, and tag",
            locked,
        )
    }

    // The parts of a record.
    pub fn record(self, packet: &Packet<'_>) -> Result<Lines, AllocError>
        ensures { IfOk result (λ l. l ≡ record_on self (as_record packet.now)) }
    {
        self.bytes("  ", "session", &packet.session)?
            .number("  ", "number", packet.number)?
            .bytes("  ", "content and tag", packet.closed)
    }

    // Public keys that stand one after another.
    #[tactic(auto, using(crate::proofs::Texts::keys_apart))]
    fn keys(self, halves: &[u8]) -> Result<Lines, AllocError>
        ensures { IfOk result (λ l. l ≡ keys_on self (length halves.now / 32) halves.now) }
    {
        let mut lines = self;
        for half in halves.as_chunks::<32>().0 {
            lines = lines.bytes("  ", "identity public key", half)?;
        }
        Ok(lines)
    }

    // The parts of settings but for the own key.
    pub fn settings(
        self,
        settings: &Settings<'_>,
        preferences: &Preferences,
    ) -> Result<Lines, AllocError>
        ensures { IfOk result (λ l. l ≡ settings_on self settings.now.own (listed preferences.now) settings.now.halves.now) }
    {
        self.number("  ", "this side's number", u64::from(settings.own))?
            .ciphers("  ", "preference", preferences.as_slice())?
            .keys(settings.halves)
    }
}
