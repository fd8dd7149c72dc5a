ghost use Rattle.std.specs.Prelude.{◌≡◌, map, option_map};
ghost use Rattle.mm_names.specs.{text_among};
ghost use Rattle.mm_transcripts.specs.Failures.{failure_name};
ghost use Rattle.mm_transcripts.specs.Named.{failure_row};

/// An answer, and its name.
#[derive(Clone, Copy)]
struct Failure(&'static [u8], &'static [u8]);

/// The errors that calls are refused with, as GetLastError gives them.
const ERRORS: [Failure; 8] = [
    Failure(b"error 2", b"ERROR_FILE_NOT_FOUND"),
    Failure(b"error 5", b"ERROR_ACCESS_DENIED"),
    Failure(b"error 6", b"ERROR_INVALID_HANDLE"),
    Failure(b"error 87", b"ERROR_INVALID_PARAMETER"),
    Failure(b"error 183", b"ERROR_ALREADY_EXISTS"),
    Failure(b"error 487", b"ERROR_INVALID_ADDRESS"),
    Failure(b"error 1132", b"ERROR_MAPPED_ALIGNMENT"),
    Failure(b"error 1455", b"ERROR_COMMITMENT_LIMIT"),
];

/// The statuses that accesses raise (NTSTATUS).
const STATUSES: [Failure; 4] = [
    Failure(b"raise 0x80000001", b"STATUS_GUARD_PAGE_VIOLATION"),
    Failure(b"raise 0xC0000005", b"STATUS_ACCESS_VIOLATION"),
    Failure(b"raise 0xC0000006", b"STATUS_IN_PAGE_ERROR"),
    Failure(b"raise 0xC00000FD", b"STATUS_STACK_OVERFLOW"),
];

/// The name of an answer that is one of these.
fn name_among(failures: &'static [Failure], answer: &[u8]) -> Option<&'static [u8]>
    ensures { option_map (λ n. n.now) result
        ≡ text_among (map failure_row failures.now) answer.now }
{
    for failure in failures {
        if answer == failure.0 {
            return Some(failure.1);
        }
    }
    None
}

/// The name of an answer that is an error or a status; `None` for any other answer.
pub(crate) fn failure_name(answer: &[u8]) -> Option<&'static [u8]>
    ensures { option_map (λ n. n.now) result ≡ failure_name answer.now }
{
    match name_among(&ERRORS, answer) {
        Some(name) => Some(name),
        None => name_among(&STATUSES, answer),
    }
}
