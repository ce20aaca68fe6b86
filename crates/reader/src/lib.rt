// A reader over a lent sheet that remembers how far it has got: thin functions over decode's read_event.
#![tactic(auto)]

ghost use Rattle.std.specs.Prelude.{◌≡◌};
ghost use Rattle.reader.specs.Reader.{after_reading, onward, step_at, reader_step};

use event::{Cursor, Reading};

// What was read, and where the reader stands then.
#[derive(Clone, Copy, Debug, PartialEq, Eq)]
pub struct Step {
    pub reading: Reading,
    pub at: usize,
}

// The lent sheet, and the index at which the next event starts.
#[derive(Clone, Copy)]
pub struct Reader<'a> {
    pub sheet: &'a [u8],
    pub at: usize,
}

// Past an event; at the end and after a refusal the reader stays.
fn after_reading(reading: Reading, at: usize) -> usize
    ensures { result ≡ after_reading at reading }
{
    match reading {
        Ok(Some((_, next))) => next.at,
        Ok(None) | Err(_) => at,
    }
}

// One step from an index of a sheet.
pub fn step_at(sheet: &[u8], at: usize) -> Step
    ensures { result ≡ step_at sheet.now at }
{
    let reading = decode::read_event(sheet, Cursor { at });
    Step {
        reading,
        at: after_reading(reading, at),
    }
}

// The next event, the end or a refusal; the reader moves on past an event.
pub fn next<'s, 'a>(reader: &'s mut Reader<'a>) -> Reading
    ensures { (result ≡ (reader_step reader.old).reading) × (reader.new ≡ onward reader.old) }
{
    let step = step_at(reader.sheet, reader.at);
    reader.at = step.at;
    step.reading
}

// The same by a reader that is made for one step, for callers that keep the index as a number.
pub fn event_at(sheet: &[u8], at: usize) -> Step
    ensures { result ≡ step_at sheet.now at }
{
    let mut reader = Reader { sheet, at };
    let reading = next(&mut reader);
    Step {
        reading,
        at: reader.at,
    }
}
