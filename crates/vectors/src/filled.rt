// Calls that write into a filled buffer: what they write stands at its front, and the rest of it is as it was.
use crate::refusals::is_refused;
use crate::tally::Tally;
use codes::Refusal;

// What each byte of a buffer is before a call.
const FILL: u8 = 0xa5;

impl Tally<'_> {
    // A call that writes these bytes into a buffer of this length, or is refused and writes nothing.
    pub fn call<F: FnOnce(&mut [u8]) -> Result<usize, Refusal>>(
        &mut self,
        value: &str,
        room: usize,
        expected: Result<&[u8], Refusal>,
        call: F,
    ) -> anyhow::Result<()>
        requires { F.IsAlwaysCallable call }
    {
        let mut out = vec![in self.heap; FILL; room]?;
        let answer = call(out.as_mut_slice());
        let out = out.as_slice();
        let agrees = match expected {
            Ok(bytes) => answer == Ok(bytes.len()) && holds(out, bytes),
            Err(refusal) => is_refused(answer, refusal) && holds(out, &[]),
        };
        self.add(value, agrees)
    }
}

// Whether these bytes stand at the front of a filled buffer, and the rest of it is as it was.
fn holds(out: &[u8], bytes: &[u8]) -> bool {
    out.strip_prefix(bytes)
        .is_some_and(|rest| rest.iter().all(|b| *b == FILL))
}
