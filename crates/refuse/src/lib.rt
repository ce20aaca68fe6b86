// A refused call: the line as it was handed in, and the number of the reason.
#![tactic(auto)]

ghost use Rattle.std.specs.Prelude.{◌≡◌, ℕ};
ghost use Rattle.refuse.specs.Refused.{refused_outcome};

use line::Line;
use steps::{Answer, Outcome};

// The answer is the number alone, of a reason or as it came, and nothing of the line changes.
pub fn refuse<R: Into<u8>>(line: Line, reason: R) -> Outcome
    ensures { (k : ℕ) × R.converts reason k × (result ≡ refused_outcome line k) }
{
    let number = reason.into();
    Outcome {
        line,
        answer: Answer::Refused { number },
    }
}
