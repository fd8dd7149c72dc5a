ghost use Rattle.std.specs.Prelude.{◌≡◌};
ghost use Rattle.mm_move_rules.specs.{same_key, is_frame};
ghost use Rattle.mm_reports.specs.Histories.{is_key, is_about};

use mm_sentences::Facts;
use mm_types::{Frame, Key};

/// What a history is of.
#[derive(Clone, Copy, PartialEq, Eq)]
pub enum Subject {
    /// The page frame of this number.
    Frame(u32),
    Page(Key),
}

fn is_frame(n: u32, frame: Option<Frame>) -> bool
    ensures { result ≡ is_frame n frame }
{
    match frame {
        None => false,
        Some(frame) => frame.0 == n,
    }
}

fn same_key(a: Key, b: Key) -> bool
    ensures { result ≡ same_key a b }
{
    match (a, b) {
        (Key::Private(p, v), Key::Private(q, w)) => p.0 == q.0 && v.0 == w.0,
        (Key::Shared(a, i), Key::Shared(b, j)) => a.0 == b.0 && i == j,
        (Key::Private(_, _), Key::Shared(_, _)) | (Key::Shared(_, _), Key::Private(_, _)) => false,
    }
}

fn is_key(key: Key, other: Option<Key>) -> bool
    ensures { result ≡ is_key key other }
{
    match other {
        None => false,
        Some(other) => same_key(key, other),
    }
}

/// Whether a move with these facts is about the subject.
pub(crate) fn is_about(subject: Subject, facts: &Facts) -> bool
    ensures { result ≡ is_about subject facts.now }
{
    match subject {
        Subject::Frame(n) => is_frame(n, facts.frame),
        Subject::Page(key) => is_key(key, facts.key),
    }
}
