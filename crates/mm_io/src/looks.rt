ghost use Rattle.std.specs.Prelude.{◌≡◌, ◌<◌, length};
ghost use Rattle.mm_io.specs.Looking.{Looks, FeedAt};

use memchr::memchr;

/// What stands at the front of some bytes.
#[derive(Clone, Copy)]
pub enum Look {
    /// A line of so many bytes, and its line feed.
    Line(usize),
    /// More bytes than a line may have.
    Long,
    /// Less than a line.
    Open,
}

/// Where the first line feed is.
fn feed_at(bytes: &[u8]) -> Option<usize>
    ensures { FeedAt bytes.now result }
{
    memchr(b'\n', bytes)
}

pub(crate) fn look_at(bytes: &[u8]) -> Look
    ensures { Looks result bytes.now }
{
    let front = bytes.len().min(257);
    match feed_at(&bytes[..front]) {
        Some(n) => Look::Line(n),
        None => { if front == 257 { Look::Long } else { Look::Open } }
    }
}
