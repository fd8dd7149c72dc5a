ghost use Rattle.std.specs.Prelude.{◌≡◌, Some};
ghost use Rattle.mm_types.specs.{answer_text, Code, Raise};
ghost use Rattle.mm_types.specs.declared.answers.Answer.TheVariants as answer;
ghost use Rattle.mm_transcripts.specs.{failure_name, code_name, raise_name, taken_numbers, AreReadAgain};

/// Each error and each status has its name, in the spelling of answers.
#[tactic(auto, using(crate::proofs::Named::named))]
pub fn failures_have_names()
    ensures errors { (c : Code) → failure_name (answer_text (answer.Error c)) ≡ Some (code_name c) }
    ensures statuses { (r : Raise) → failure_name (answer_text (answer.Raised r))
        ≡ Some (raise_name r) }
{}

/// The name of each number that a call takes, read as the number of a written script, is that
/// number again.
#[tactic(auto, using(crate::proofs::Named::read_again))]
pub fn names_are_read_again()
    ensures { AreReadAgain taken_numbers }
{}
