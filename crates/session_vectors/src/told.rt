// What is printed of a vector, and of a worked session: its parts, one to a line.
use crate::failure::NotComputed;
use crate::session::SessionVector;
use primitives::ways::Direction;
use reporting::report;
use std::io;

// What was computed beside what is expected, or what is missing where it was refused.
pub fn tell(
    rt: &HostRuntime,
    name: &str,
    computed: Result<Vec<u8>, NotComputed>,
    expected: &str,
    missing: &str,
) -> io::Result<()> {
    match computed {
        Ok(bytes) => report(rt, name, &bytes, expected),
        Err(NotComputed::Refused) => println!(rt; "{name}: {missing} DIFFERS"),
        Err(NotComputed::NoMemory(error)) => Err(error.into()),
    }
}

impl SessionVector {
    // All parts.
    pub fn report(&self, rt: &HostRuntime) -> io::Result<()> {
        let half = self.public_half();
        self.report_part(rt, "ephemeral half", half.0.bytes(), self.half)?;
        let sealed = self.sealed().unwrap_or([0; 80]);
        self.report_part(rt, "sealed secret", &sealed, self.sealed)?;
        let opened = self.opened().unwrap_or([0; 32]);
        self.report_part(rt, "opened secret", &opened, self.opened)?;
        let signature = self.signature();
        self.report_part(rt, "reply's signature", signature.0.bytes(), self.signature)?;
        let verified = self.verifies();
        println!(rt; "{}, reply's signature verifies: {verified}", self.name)?;
        self.report_keys(rt)
    }

    // The end and the keys of both ways.
    fn report_keys(&self, rt: &HostRuntime) -> io::Result<()> {
        let end = format!(in rt.alloc(); "{}, end", self.name)?;
        tell(
            rt,
            end.as_str(),
            self.end(rt.alloc()),
            self.end,
            "not locked",
        )?;
        let to_called = self.way_key(Direction::ToCalled);
        let called_bytes = to_called.key().bytes();
        self.report_part(rt, "key to the called side", called_bytes, self.to_called)?;
        let to_caller = self.way_key(Direction::ToCaller);
        let caller_bytes = to_caller.key().bytes();
        self.report_part(rt, "key to the caller", caller_bytes, self.to_caller)
    }

    // One part, by its name.
    fn report_part(
        &self,
        rt: &HostRuntime,
        part: &str,
        value: &[u8],
        expected: &str,
    ) -> io::Result<()> {
        let name = format!(in rt.alloc(); "{}, {part}", self.name)?;
        report(rt, name.as_str(), value, expected)
    }
}
