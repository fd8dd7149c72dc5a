use crate::{Area, SectionId};

/// What a view of a section was mapped for (the access of MapViewOfFile).
#[derive(Clone, Copy, PartialEq, Eq)]
pub enum ViewAccess {
    /// FILE_MAP_READ: pages that can be read.
    Read,
    /// FILE_MAP_WRITE: writes reach the section.
    Write,
    /// FILE_MAP_COPY: a write makes a private copy.
    Copy,
}

/// A view of a section: its section, that section's control area, and the section page of its first
/// page.
#[derive(Clone, Copy, PartialEq, Eq)]
pub struct View {
    pub section: SectionId,
    pub area: Area,
    pub first: u32,
    pub access: ViewAccess,
}

/// What a region of an address space is.
#[derive(Clone, Copy, PartialEq, Eq)]
pub enum Kind {
    /// A reservation of private memory.
    Private,
    /// A view of a section.
    View(View),
}
