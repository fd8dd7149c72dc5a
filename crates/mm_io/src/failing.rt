ghost use Rattle.std.specs.Prelude.{Contains};
ghost use Rattle.std.specs.Bool.{Decides};

/// Whether the call of this number is one of those that are to fail.
pub(crate) fn is_to_fail(fails: &[u32], call: u64) -> bool
    ensures { Decides result (Contains fails.now call) }
{
    fails.iter().any(|fail| u64::from(*fail) == call)
}
