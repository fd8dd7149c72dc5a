ghost use Rattle.std.specs.Prelude.{◌≡◌, MatchResult, Ok, option_map};
ghost use Rattle.mm_observations.specs.{RefusesFile, run_lines};
ghost use Rattle.mm_show.specs.{observed};

use mm_log_walk::Lines;
use mm_observations::{PackFault, RunLines, packed};
use std::alloc::Global;

/// The lines of a script that have answers.
#[tactic(auto, using(crate::proofs::Following::run_followed))]
fn run_of(script: &Lines, answers: &Lines) -> RunLines
    ensures { result ≡ run_lines script.now answers.now }
{
    let mut run = RunLines::new();
    for i in 0..answers.len() {
        let Some(line) = script.get(i) else {
            return run;
        };
        let Some(answer) = answers.get(i) else {
            return run;
        };
        run.follow(line, answer);
    }
    run
}

/// The observations beside a script and its answers, packed; nothing where none are named.
pub(crate) fn observed(
    alloc: Global,
    script: &Option<Lines>,
    answers: &Option<Lines>,
    bytes: &Option<Vec<u8>>,
) -> Result<Vec<u8>, PackFault>
    ensures { MatchResult result (λ v. observed script.now answers.now
        (option_map (λ b. b.items) bytes.now) ≡ Ok v.items)
        (RefusesFile (observed script.now answers.now (option_map (λ b. b.items) bytes.now))) }
{
    match (script, answers, bytes) {
        (Some(script), Some(answers), Some(bytes)) => {
            packed(alloc, bytes.as_slice(), &run_of(script, answers))
        }
        _ => Ok(Vec::new(alloc)),
    }
}
