ghost use Rattle.std.specs.Prelude.{◌≡◌, ◌%◌, ◌<◌};
ghost use Rattle.rand_pcg.specs.Lcg.{next};
ghost use Rattle.rand_pcg.specs.Pcg.{multiplier_64};
ghost use Rattle.mm_generate.specs.{outputs};

use rand_core::utils::NextWord;
use rand_pcg::Lcg64Xsh32;

/// The next output, modulo `n`.
pub fn draw(words: &mut Lcg64Xsh32, n: u32) -> u32
    requires { 0 < n }
    ensures drawn { result ≡ outputs words.old 0 % n }
    ensures after { words.new ≡ next 64 multiplier_64 words.old }
    ensures below { result < n }
{
    words.next_word() % n
}
