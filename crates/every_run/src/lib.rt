// Every answer bounds every run. specs/TableRuns.antt says what a run of a table is, specs/Bounds.antt and specs/Texts.antt what it means that an answer bounds every job
// of every run, and `answer` promises it of what it returns.
#![tactic(auto)]

ghost use Rattle.std.specs.Prelude.{◌≡◌};
ghost use Rattle.crpd.specs.Operations.{answer_to};
ghost use Rattle.every_run.specs.Texts.{BoundsEveryRun};

use search::demand::Response;
use texts::refusals::Refusal;

// The answer for the task at a position under a method, and what it means: every job of the task, in every run of the text's table, is complete so many ticks
// after its release, and so by its deadline.
#[tactic(auto, using(crate::proofs::TextBounds::bounds_every_run))]
pub fn answer(text: &[u8], method: u64, position: u64) -> Result<Response, Refusal>
    ensures value { result ≡ answer_to text.now method position }
    ensures bounds { BoundsEveryRun text.now method position result }
{
    crpd::answer(text, method, position)
}
