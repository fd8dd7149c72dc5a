use mm_script::is_text;
use mm_text::Words;

/// Each keyword, with the fields behind it.
pub(crate) static USAGES: [(&str, &str); 33] = [
    ("machine", "FRAMES SLOTS DEPTH BLOCKS"),
    ("process", "MIN MAX"),
    ("exit", "PID"),
    ("file", "NAME PAGES BYTE"),
    ("alloc", "PID ADDRESS SIZE TYPE PROTECTION"),
    ("free", "PID ADDRESS SIZE TYPE"),
    ("protect", "PID ADDRESS SIZE PROTECTION"),
    ("query", "PID ADDRESS"),
    ("create", "PID SIZE FLAGS NAME|-"),
    ("createfile", "PID NAME FLAGS NAME|-"),
    ("open", "PID NAME"),
    ("close", "PID HANDLE"),
    ("map", "PID HANDLE ACCESS OFFSET SIZE ADDRESS"),
    ("unmap", "PID ADDRESS"),
    ("flush", "PID ADDRESS SIZE"),
    ("read", "PID ADDRESS LENGTH"),
    ("write", "PID ADDRESS BYTES"),
    ("exec", "PID ADDRESS"),
    ("begin", "TID PID read|write ADDRESS LENGTH|BYTES"),
    ("resume", "TID"),
    ("io", "REQUEST"),
    ("trim", "PID COUNT"),
    ("age", "PID"),
    ("writer", "COUNT"),
    ("zeroer", "COUNT"),
    ("fail", "paging|file read|write NTH CALLS"),
    ("charge", ""),
    ("counts", ""),
    ("grow", "NEW_SLOTS"),
    ("watch", "PID FLAG ADDRESS SIZE MOST"),
    ("resetwatch", "PID ADDRESS SIZE"),
    ("stack", "TID PID RESERVE COMMIT"),
    ("probe", "TID ADDRESS"),
];

/// Windows' calls that are keywords too.
pub(crate) static CALLS: [&str; 13] = [
    "VirtualAlloc",
    "VirtualFree",
    "VirtualProtect",
    "VirtualQuery",
    "CreateFileMapping",
    "OpenFileMapping",
    "CloseHandle",
    "MapViewOfFile",
    "UnmapViewOfFile",
    "FlushViewOfFile",
    "GetWriteWatch",
    "ResetWriteWatch",
    "ExitProcess",
];

/// Windows' names for numbers.
pub(crate) static NAMES: [&str; 21] = [
    "MEM_COMMIT",
    "MEM_RESERVE",
    "MEM_DECOMMIT",
    "MEM_RELEASE",
    "MEM_WRITE_WATCH",
    "PAGE_NOACCESS",
    "PAGE_READONLY",
    "PAGE_READWRITE",
    "PAGE_WRITECOPY",
    "PAGE_EXECUTE",
    "PAGE_EXECUTE_READ",
    "PAGE_EXECUTE_READWRITE",
    "PAGE_EXECUTE_WRITECOPY",
    "PAGE_GUARD",
    "SEC_RESERVE",
    "SEC_COMMIT",
    "FILE_MAP_COPY",
    "FILE_MAP_WRITE",
    "FILE_MAP_READ",
    "FILE_MAP_ALL_ACCESS",
    "WRITE_WATCH_FLAG_RESET",
];

/// Windows' names for what this profile leaves out.
static LEFT_OUT: [&str; 14] = [
    "MEM_RESET",
    "MEM_RESET_UNDO",
    "MEM_TOP_DOWN",
    "MEM_LARGE_PAGES",
    "MEM_PHYSICAL",
    "MEM_COALESCE_PLACEHOLDERS",
    "PAGE_NOCACHE",
    "PAGE_WRITECOMBINE",
    "PAGE_TARGETS_INVALID",
    "SEC_IMAGE",
    "SEC_NOCACHE",
    "SEC_LARGE_PAGES",
    "SEC_WRITECOMBINE",
    "FILE_MAP_EXECUTE",
];

/// Whether a word is a name of what this profile leaves out.
pub(crate) fn is_left_out(word: &[u8]) -> bool {
    for name in &LEFT_OUT {
        if name.as_bytes() == word {
            return true;
        }
    }
    false
}

/// The fields behind a keyword.
pub(crate) fn fields_of(keyword: &[u8]) -> Option<&'static str> {
    for usage in &USAGES {
        if usage.0.as_bytes() == keyword {
            return Some(usage.1);
        }
    }
    None
}

/// More fields than any keyword has.
const MOST_FIELDS: usize = 8;

/// The field of this number behind a keyword, counted from 0.
pub(crate) fn field_at(fields: &'static str, at: usize) -> Option<&'static [u8]> {
    let text = fields.as_bytes();
    if text.is_empty() || text.len() > 256 {
        return None;
    }
    let mut words = Words::new(text);
    for n in 0..MOST_FIELDS {
        let span = words.next()?;
        if n == at {
            return text.get(span.from as usize..span.to as usize);
        }
    }
    None
}

/// The least and the most of the fields of numbers that have less than 32 bits.
static RANGES: [(&str, u32, u32); 17] = [
    ("FRAMES", 6, 262_144),
    ("SLOTS", 0, 262_144),
    ("DEPTH", 1, 64),
    ("BLOCKS", 0, 65_536),
    ("MIN", 0, 65_536),
    ("MAX", 1, 65_536),
    ("PAGES", 1, 65_536),
    ("PID", 0, 255),
    ("TID", 0, 255),
    ("BYTE", 0, 255),
    ("LENGTH", 1, 64),
    ("REQUEST", 1, 64),
    ("COUNT", 0, 1_000_000),
    ("NTH", 1, 1_000_000),
    ("CALLS", 1, 1_000_000),
    ("NEW_SLOTS", 1, 262_144),
    ("MOST", 1, 16),
];

/// The least and the most of a field of numbers.
pub(crate) fn range_of(field: &[u8]) -> (u32, u32) {
    if is_text(field, b"FLAG") {
        return (0, 1);
    }
    for range in &RANGES {
        if range.0.as_bytes() == field {
            return (range.1, range.2);
        }
    }
    (0, 0xFFFF_FFFF)
}
