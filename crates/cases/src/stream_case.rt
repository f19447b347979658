// A case of a stream, as a line of text.
ghost use Rattle.std.specs.Prelude.{IfOk};
ghost use Rattle.cases.specs.Hexadecimal.{IsRepeated};
ghost use Rattle.cases.specs.Words.{FirstWords};

use crate::from_hex;
use anyhow::Context;
use std::alloc::Global;

// A label, and the bytes of the stream: how often a text in hexadecimal is repeated, and that text.
#[derive(Clone, Copy, PartialEq, Eq, Debug)]
pub struct StreamCase<'a> {
    pub label: &'a str,
    pub times: &'a str,
    pub unit: &'a str,
}

// The first three words of the line.
impl<'a> TryFrom<&'a str> for StreamCase<'a> {
    type Error = anyhow::Error;

    ghost try_from_gives = { λ line r. IfOk r (λ c. FirstWords line.now c.label.now c.times.now c.unit.now) };

    fn try_from(line: &'a str) -> anyhow::Result<StreamCase<'a>> {
        let mut words = line.split_whitespace();
        let label = words.next().context("a case has a label")?;
        let times = words
            .next()
            .context("a case says how often its bytes are repeated")?;
        let unit = words.next().context("a case has bytes, or -")?;
        Ok(StreamCase { label, times, unit })
    }
}

impl StreamCase<'_> {
    // The bytes of the stream.
    pub fn bytes(&self, heap: Global) -> anyhow::Result<Vec<u8>>
        ensures { IfOk result (λ v. IsRepeated self.now.times.now self.now.unit.now v.items) }
    {
        let times = self.times.parse::<u32>()?;
        let unit = from_hex(heap, self.unit)?;
        Ok(unit.repeat(heap, times as usize)?)
    }
}
