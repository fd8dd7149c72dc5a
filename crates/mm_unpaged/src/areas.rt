ghost use Rattle.std.specs.Prelude.{◌≡◌, ◌+◌, ◌-◌, ◌<◌, ◌≤◌, ◌^◌, ◌==◌, ℕ, Some, None, IsSome, IfOk, OnOk, OnErr, length, replicate, slice_set, unwrap_or, vec_len};
ghost use Rattle.mm_world.specs.{filled, written};
ghost use Rattle.mm_move_rules.specs.{changed};
ghost use Rattle.mm_unpaged.specs.declared.areas.AreaPages.TheVariants.{Paged};

use crate::boxes::PageBox;
use mm_types::{Area, NoMemory};
use std::alloc::Global;
use std::marker::Model;
use std::mem;

/// The pages of a page-file section, by index. Each live one stands in a box.
#[derive(Drop)]
pub(crate) struct Segment {
    pages: Vec<Option<PageBox>>,
}

impl Model for Segment {
    ghost use Rattle.std.specs.Prelude.{List, Option, ℕ};

    ghost Value = { List (Option (List ℕ)) };

    ghost view = { λ s. s.pages.items };
}

/// A segment of `n` pages, of which none is live.
fn new_segment(alloc: Global, n: u32) -> Result<Segment, NoMemory>
    ensures { IfOk result (λ s. s ≡ replicate n None) }
{
    let mut pages = Vec::with_capacity(alloc, n as usize)?;
    for _ in 0..n {
        pages.push(None)?;
    }
    Ok(Segment { pages })
}

/// The pages of an open area.
#[derive(Drop)]
pub(crate) enum AreaPages {
    /// Of a page-file section.
    Paged(Segment),
    /// Of a file: its first block, and how many.
    Filed(u32, u32),
}

/// The open areas, by number.
#[derive(Drop)]
pub(crate) struct Areas {
    areas: Vec<Option<AreaPages>>,
}

ghost use Rattle.mm_unpaged.specs.Areas.{area_pages, page_of_area, area_block};

/// Another page of a page-file section stands at an index, or none; the one that stood there.
fn replace_page(area: &mut Option<AreaPages>, index: u32, page: Option<PageBox>) -> Option<PageBox>
    requires { index < length (area_pages area.old) }
    ensures page { result ≡ page_of_area area.old index }
    ensures area { area.new ≡ Some (Paged (slice_set (area_pages area.old) index page)) }
{
    match area {
        Some(AreaPages::Paged(segment)) => mem::replace(&mut segment.pages[index as usize], page),
        _ => unreachable!(),
    }
}

/// Writes bytes from `off` on into a live page of a page-file section.
fn write_page(area: &mut Option<AreaPages>, index: u32, off: u16, bytes: &[u8])
    requires live { IsSome (page_of_area area.old index) }
    requires inside { off + length bytes.now ≤ 4096 }
    ensures { area.new ≡ Some
        (Paged (slice_set (area_pages area.old) index
        (Some (written (unwrap_or (page_of_area area.old index) (filled 0)) off bytes.now)))) }
{
    match area {
        Some(AreaPages::Paged(segment)) => match &mut segment.pages[index as usize] {
            Some(page) => page.write(off, bytes),
            None => unreachable!(),
        },
        _ => unreachable!(),
    }
}

impl Areas {
    ghost use Rattle.mm_unpaged.specs.Areas.{area_in, no_areas, size_of, count_of, count_in, one_if_live};

    /// No area is open.
    pub(crate) fn new(alloc: Global) -> Areas
        ensures areas { area_in result ≡ no_areas }
        ensures count { count_in result ≡ 0 }
    {
        Areas {
            areas: Vec::new(alloc),
        }
    }

    /// Sees that an area of this number can be opened.
    pub(crate) fn make_place(&mut self, area: Area) -> Result<(), NoMemory>
        requires { area.0 < 2 ^ 28 }
        ensures areas { area_in self.new ≡ area_in self.old }
        ensures count { count_in self.new ≡ count_in self.old }
        ensures place { OnOk result (area.0 < vec_len self.new.areas) }
    {
        for _ in self.areas.len()..area.0 as usize + 1 {
            self.areas.push(None)?;
        }
        Ok(())
    }

    /// An area for which there is a place has these pages from now on.
    pub(crate) fn set(&mut self, area: Area, pages: Option<AreaPages>)
        requires place { area.0 < vec_len self.old.areas }
        ensures areas { area_in self.new ≡ changed ◌==◌ (area_in self.old) area.0 pages }
        ensures count { count_in self.new + count_of (area_in self.old area.0) ≡
            count_in self.old + count_of pages }
        ensures place { vec_len self.new.areas ≡ vec_len self.old.areas }
    {
        self.areas[area.0 as usize] = pages;
    }

    /// Opens an area of `n` pages of a page-file section, of which none is live. After `NoMemory`
    /// nothing has changed.
    pub(crate) fn open(&mut self, alloc: Global, area: Area, n: u32) -> Result<(), NoMemory>
        requires few { area.0 < 2 ^ 28 }
        requires new { area_in self.old area.0 ≡ None }
        ensures ok { OnOk result (area_in self.new ≡
            changed ◌==◌ (area_in self.old) area.0 (Some (Paged (replicate n None)))) }
        ensures err { OnErr result (area_in self.new ≡ area_in self.old) }
        ensures count { count_in self.new ≡ count_in self.old }
    {
        let pages = new_segment(alloc, n)?;
        self.make_place(area)?;
        self.set(area, Some(AreaPages::Paged(pages)));
        Ok(())
    }

    /// The block of a page of a file; none where the area is no file or has fewer pages.
    #[tactic(auto, using(crate::proofs::OpenAreas::in_file))]
    pub(crate) fn block(&self, area: Area, index: u32) -> Option<u32>
        requires small { (block : ℕ) → area_block (area_in self.now area.0) index ≡ Some block →
            block < 2 ^ 32 }
        ensures { result ≡ area_block (area_in self.now area.0) index }
    {
        match self.areas.get(area.0 as usize) {
            Some(Some(AreaPages::Filed(first, count))) if index < *count => Some(*first + index),
            _ => None,
        }
    }

    /// A live page of a page-file section.
    pub(crate) fn page(&self, area: Area, index: u32) -> &PageBox
        requires { IsSome (page_of_area (area_in self.now area.0) index) }
        ensures { page_of_area (area_in self.now area.0) index ≡ Some result.now }
    {
        match &self.areas[area.0 as usize] {
            Some(AreaPages::Paged(segment)) => match &segment.pages[index as usize] {
                Some(page) => page,
                None => unreachable!(),
            },
            _ => unreachable!(),
        }
    }

    /// Another page of a page-file section stands at an index from now on, or none; the one that
    /// stood there.
    pub(crate) fn replace(
        &mut self,
        area: Area,
        index: u32,
        page: Option<PageBox>,
    ) -> Option<PageBox>
        requires { index < length (area_pages (area_in self.old area.0)) }
        ensures page { result ≡ page_of_area (area_in self.old area.0) index }
        ensures areas { area_in self.new ≡ changed ◌==◌ (area_in self.old) area.0
            (Some (Paged (slice_set (area_pages (area_in self.old area.0)) index page))) }
        ensures count { count_in self.new + one_if_live result ≡
            count_in self.old + one_if_live page }
    {
        replace_page(&mut self.areas[area.0 as usize], index, page)
    }

    /// Writes bytes from `off` on into a live page of a page-file section.
    pub(crate) fn write(&mut self, area: Area, index: u32, off: u16, bytes: &[u8])
        requires live { IsSome (page_of_area (area_in self.old area.0) index) }
        requires inside { off + length bytes.now ≤ 4096 }
        ensures areas { area_in self.new ≡ changed ◌==◌ (area_in self.old) area.0
            (Some (Paged
            (slice_set (area_pages (area_in self.old area.0)) index
            (Some (written (unwrap_or (page_of_area (area_in self.old area.0) index) (filled 0)) off
            bytes.now))))) }
        ensures count { count_in self.new ≡ count_in self.old }
    {
        write_page(&mut self.areas[area.0 as usize], index, off, bytes);
    }
}
