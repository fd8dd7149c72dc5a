ghost use Rattle.std.specs.Prelude.{◌≡◌, ◌==◌, ◌≤◌, ◌+◌, [], length, replicate, true, is_some, Some, None, IfOk, option_map, not, count_by};
ghost use Rattle.mm_world.specs.{numbered, commit_shared, blank, no_area};
ghost use Rattle.mm_sections.specs.Pages.{number_of_block, page_if, uncommitted_in, committed_count};

use mm_types::{Block, NoMemory};
use std::alloc::Global;
use std::marker::Model;

/// Which pages of a control area are committed, and where a file's pages stand.
#[derive(Drop)]
pub struct SectionPages {
    first_block: Option<Block>,
    committed: Vec<bool>,
}

impl Model for SectionPages {
    ghost use Rattle.std.specs.Prelude.{length, map, option_map, ◌<◌, ◌^◌};
    ghost use Rattle.mm_world.specs.{AreaOf};
    ghost use Rattle.mm_sections.specs.Pages.{block_number, page_if};

    ghost Value = { AreaOf (Unit {0}) };

    ghost view = { λ p. record {
      file_block = option_map block_number p.first_block;
      pages = map page_if p.committed.items;
    } };

    ghost invariant = { λ p. length p.committed.items < 2 ^ 32 };
}

// How many pages are not committed.
fn uncommitted_among(pages: &[bool]) -> usize
    ensures { result ≡ count_by not pages.now }
{
    pages.iter().filter(|committed| !**committed).count()
}

impl SectionPages {
    /// The pages of a page-file section, committed or not.
    pub fn of_paging_file(
        alloc: Global,
        pages: u32,
        committed: bool,
    ) -> Result<SectionPages, NoMemory>
        ensures { IfOk result (λ p. p ≡ record {
          file_block = None;
          pages = replicate pages (page_if committed);
        }) }
    {
        Ok(SectionPages {
            first_block: None,
            committed: vec![in alloc; committed; pages as usize]?,
        })
    }

    /// The pages of a file, which stand in the blocks from `first` on; they are committed.
    pub fn of_file(alloc: Global, first: Block, pages: u32) -> Result<SectionPages, NoMemory>
        ensures { IfOk result (λ p. p ≡ record {
          file_block = Some first.0;
          pages = replicate pages (Some tt);
        }) }
    {
        Ok(SectionPages {
            first_block: Some(first),
            committed: vec![in alloc; true; pages as usize]?,
        })
    }

    /// The area has no page any more.
    pub fn end(&mut self)
        ensures { self.new ≡ no_area }
    {
        self.first_block = None;
        self.committed.clear();
    }

    /// How many pages there are.
    pub fn len(&self) -> u32
        ensures { result ≡ length self.now.pages }
    {
        self.committed.len() as u32
    }

    /// Whether it has no page.
    pub fn is_empty(&self) -> bool
        ensures { result ≡ (length self.now.pages == 0) }
    {
        self.len() == 0
    }

    /// The first block, of a file's area.
    pub fn first_block(&self) -> Option<Block>
        ensures { result ≡ option_map number_of_block self.now.file_block }
    {
        self.first_block
    }

    /// Whether the page with this index is committed; one past the end is not.
    pub fn is_committed(&self, index: u32) -> bool
        ensures { result ≡ is_some (numbered self.now.pages index) }
    {
        match self.committed.get(index as usize) {
            Some(committed) => *committed,
            None => false,
        }
    }

    /// How many of `count` pages from the index `first` on are not committed.
    pub fn uncommitted(&self, first: u32, count: u32) -> u32
        requires inside { first + count ≤ length self.now.pages }
        ensures { result ≡ uncommitted_in self.now first count }
    {
        let pages = &self.committed[first as usize..(first + count) as usize];
        uncommitted_among(pages) as u32
    }

    /// How many pages are committed.
    pub fn committed(&self) -> u32
        ensures { result ≡ committed_count self.now }
    {
        self.committed
            .iter()
            .filter(|committed| **committed)
            .count() as u32
    }

    /// Commits `count` pages from the index `first` on; those that are committed stay so.
    pub fn commit(&mut self, first: u32, count: u32)
        requires inside { first + count ≤ length self.old.pages }
        ensures { self.new ≡ commit_shared blank first count self.old }
    {
        self.committed[first as usize..(first + count) as usize].fill(true);
    }
}
