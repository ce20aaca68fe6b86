// Whether a sheet is a text in the papers' notation by mistake, for programs that take bytes.
#![tactic(auto)]

ghost use Rattle.std.specs.Prelude.{◌≡◌};
ghost use Rattle.notation_mistake.specs.Mistake.{is_notation, is_whole};

use event::Cursor;

// Whether a sheet's bytes are events to its end.
#[tactic(auto, using(crate::proofs::Whole::starts, crate::proofs::Whole::further, crate::proofs::Whole::nearer, crate::proofs::Whole::refused))]
fn is_whole(sheet: &[u8]) -> bool
    ensures { result ≡ is_whole sheet.now }
{
    let mut at = 0;
    // No iterator, which would not tell the end from bytes that are refused.
    loop {
        match decode::read_event(sheet, Cursor { at }) {
            Ok(Some((_, next))) => at = next.at,
            Ok(None) => return true,
            Err(_) => return false,
        }
    }
}

// Whether a sheet is notation by mistake: it looks so, and no events are read from it to its end. A sheet that starts with the kind 09 or 0A may look so, too.
pub fn is_notation(sheet: &[u8]) -> bool
    ensures { result ≡ is_notation sheet.now }
{
    notation::looks_like_notation(sheet) && !is_whole(sheet)
}
