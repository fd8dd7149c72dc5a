/// Bytes in a page.
pub const PAGE_SIZE: u32 = 4096;

/// Pages in a granule: a region or a view begins at the first page of one.
pub const GRANULE_PAGES: u32 = 16;

/// Bytes in a granule.
pub const GRANULE_SIZE: u32 = 65536;

/// The lowest user page.
pub const FIRST_USER_PAGE: u32 = 0x10;

/// The page after the highest user page.
pub const END_OF_USER_PAGES: u32 = 0x7FFF0;

/// How many threads there are.
pub const THREADS: usize = 256;
