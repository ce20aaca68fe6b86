// A report lent to a sheet's run, which grows in place: a thin function over the run by value.
#![tactic(auto)]

ghost use Rattle.steps.specs.Meets.{state_of};
ghost use Rattle.run.specs.Runs.{RunMeets, reported_of};

use line::Line;
use report::Report;
use run::{RunOutcome, run_reported};

// Runs a sheet as `run_reported` does, and leaves the report where it was lent.
pub fn run_lent(
    line: Line,
    book: &mut [u8],
    sheet: &[u8],
    out: &mut [u8],
    report: &mut Report,
) -> RunOutcome
    ensures { RunMeets (state_of line book.old) report.old sheet.now out.old (reported_of result report.new) book.new out.new }
{
    let ran = run_reported(line, book, sheet, out, *report);
    *report = ran.report;
    RunOutcome {
        line: ran.line,
        printed: ran.printed,
    }
}
