ghost use Rattle.std.specs.Prelude.{◌≡◌, ◌≤◌, ◌++◌, ◌∷◌, [], map, option_map, OnOk, IfOk, slice_get, slice_range, length};
ghost use Rattle.mm_script.specs.{without_return};
ghost use Rattle.mm_log_walk.specs.Lines.{lines_of, extent_text};

use mm_script::without_return;
use mm_types::NoMemory;
use std::alloc::Global;
use std::marker::Model;

/// Where a line stands among the bytes of its file: from its first byte up to the byte behind it.
#[derive(Clone, Copy)]
pub(crate) struct Extent {
    from: usize,
    to: usize,
}

/// The lines of a file, each without its line feed and one carriage return before it. What stands
/// after the last line feed is no line. The bytes are kept as they are, in one piece.
#[derive(Drop)]
pub struct Lines {
    bytes: Vec<u8>,
    extents: Vec<Extent>,
}

impl Model for Lines {
    ghost use Rattle.std.specs.Prelude.{List, ℕ, map};
    ghost use Rattle.mm_log_walk.specs.Lines.{extent_text};

    ghost Value = { List (List ℕ) };

    ghost view = { λ l. map (extent_text l.bytes.items) l.extents.items };
}

/// The bytes of a line.
#[inline(always)]
pub(crate) fn extent_text(bytes: &[u8], at: Extent) -> &[u8]
    ensures { result.now ≡ extent_text bytes.now at }
{
    if at.from <= at.to && at.to <= bytes.len() {
        &bytes[at.from..at.to]
    } else {
        b""
    }
}

/// The place of a line without one carriage return at its end.
#[tactic(auto, using(crate::proofs::Divided::places))]
fn extent_of(bytes: &[u8], from: usize, end: usize) -> Extent
    requires order { from ≤ end }
    requires within { end ≤ length bytes.now }
    ensures { extent_text bytes.now result ≡ without_return (slice_range bytes.now from end) }
{
    let line = without_return(&bytes[from..end]);
    Extent {
        from,
        to: from + line.len(),
    }
}

/// Adds a line, without one carriage return at its end.
#[tactic(auto, using(crate::proofs::Divided::places))]
fn add_line(
    bytes: &[u8],
    extents: &mut Vec<Extent>,
    from: usize,
    end: usize,
) -> Result<(), NoMemory>
    requires order { from ≤ end }
    requires within { end ≤ length bytes.now }
    ensures { OnOk result (map (extent_text bytes.now) extents.new.items
        ≡ map (extent_text bytes.now) extents.old.items
        ++ without_return (slice_range bytes.now from end) ∷ []) }
{
    extents.push(extent_of(bytes, from, end))?;
    Ok(())
}

/// The lines of these bytes.
#[tactic(auto, using(crate::proofs::Divided::divided))]
fn divided(alloc: Global, bytes: &[u8]) -> Result<Vec<Extent>, NoMemory>
    ensures { IfOk result (λ r. map (extent_text bytes.now) r.items ≡ lines_of bytes.now) }
{
    let mut extents = Vec::new(alloc);
    let mut start = 0;
    for i in 0..bytes.len() {
        if bytes[i] == b'\n' {
            add_line(bytes, &mut extents, start, i)?;
            start = i + 1;
        }
    }
    Ok(extents)
}

impl Lines {
    /// The lines of a file of these bytes.
    pub fn of(alloc: Global, bytes: Vec<u8>) -> Result<Lines, NoMemory>
        ensures { IfOk result (λ l. l ≡ lines_of bytes.items) }
    {
        let extents = divided(alloc, bytes.as_slice())?;
        Ok(Lines { bytes, extents })
    }

    /// How many lines the file has.
    pub fn len(&self) -> usize
        ensures { result ≡ length self.now }
    {
        self.extents.len()
    }

    /// A line, by its place from 0 on, if the file has it.
    pub fn get(&self, place: usize) -> Option<&[u8]>
        ensures { option_map (λ l. l.now) result ≡ slice_get self.now place }
    {
        match self.extents.get(place) {
            Some(at) => Some(extent_text(self.bytes.as_slice(), *at)),
            None => None,
        }
    }
}
