ghost use Rattle.std.specs.Prelude.{◌≡◌};
ghost use Rattle.mm_reports.specs.{before, after_byte};

/// The bytes before the first such byte; all where there is none.
pub fn before(byte: u8, word: &[u8]) -> &[u8]
    ensures { result.now ≡ before byte word.now }
{
    for i in 0..word.len() {
        if word[i] == byte {
            return &word[..i];
        }
    }
    word
}

/// The bytes behind the first such byte; none where there is none.
#[tactic(auto, using(crate::proofs::Splitting::rest_behind))]
pub fn after_byte(byte: u8, word: &[u8]) -> &[u8]
    ensures { result.now ≡ after_byte byte word.now }
{
    let front = before(byte, word).len();
    if front < word.len() {
        &word[front + 1..]
    } else {
        &[]
    }
}
