//! The page cache of an open store: its size, by the text that the system has of free memory.

ghost use Rattle.std.specs.Prelude.{◌≡◌, ◌/◌, max, MatchOption};
ghost use Rattle.edfstore_open.specs.Cache.{IsCacheSize};

/// The bytes of a page, in the stores that are made here.
const PAGE: u64 = 4_096;

/// The fewest pages of a cache, which takes its memory at once. Pages of a longer log are read again
/// as it is copied, which costs less than zeroing a cache for each small file.
const FEWEST: u64 = 500;

/// The most pages of a cache: 512 MiB of them.
const MOST: u64 = 131_072;

/// A cache takes up at most one part in so many of the free memory.
const SHARE: u64 = 4;

/// Returns the pages of the cache for a file of so many bytes, which may have all of them, where
/// there is memory for it; `None` stands for the port's own number, since a cache of a part of them
/// spares no reading.
pub(crate) fn cache_pages(bytes: u64, free: u64) -> Option<usize>
    ensures { let pages = max (bytes / 4096) 500 in
        MatchOption result (¬ IsCacheSize pages free)
        (λ n. (n ≡ pages) × IsCacheSize pages free) }
{
    let all = bytes / PAGE;
    let pages = if all < FEWEST { FEWEST } else { all };
    if pages <= MOST && pages * (PAGE * SHARE) <= free {
        Some(pages as usize)
    } else {
        None
    }
}

/// Returns the bytes of a number of kilobytes, as `  16141056 kB`.
fn bytes_of(text: &str) -> Option<u64> {
    let number = text.trim().strip_suffix(" kB")?;
    number.trim().parse::<u64>().ok()?.checked_mul(1_024)
}

/// Returns how many bytes are free, or may be made so, by the text of `/proc/meminfo`.
pub(crate) fn free_bytes(text: &str) -> Option<u64> {
    for line in text.lines() {
        if let Some(number) = line.strip_prefix("MemAvailable:") {
            return bytes_of(number);
        }
    }
    None
}

/// A control group of processes, whose memory may have a limit: its path below a folder of the
/// system, and the names of the files with the limit and with what is in use.
#[derive(Clone, Copy)]
pub(crate) struct Group<'t> {
    pub(crate) folder: &'static str,
    pub(crate) path: &'t str,
    pub(crate) limit: &'static str,
    pub(crate) used: &'static str,
}

impl<'t> Group<'t> {
    /// Returns the group of version 1.
    fn first(path: &'t str) -> Group<'t> {
        Group {
            folder: "/sys/fs/cgroup/memory",
            path,
            limit: "memory.limit_in_bytes",
            used: "memory.usage_in_bytes",
        }
    }

    /// Returns the group of version 2.
    fn second(path: &'t str) -> Group<'t> {
        Group {
            folder: "/sys/fs/cgroup",
            path,
            limit: "memory.max",
            used: "memory.current",
        }
    }
}

/// Returns the path in a line of `/proc/self/cgroup` for memory of version 1, as `4:memory:/a`.
fn first_path(line: &str) -> Option<&str> {
    let (_, rest) = line.split_once(':')?;
    let (kinds, path) = rest.split_once(':')?;
    if kinds.split(',').any(|kind| kind == "memory") {
        Some(path)
    } else {
        None
    }
}

/// Returns the group whose limit holds, by the text of `/proc/self/cgroup`: that of version 1 where
/// memory has one, else that of version 2, as `0::/user.slice`.
pub(crate) fn group_of(text: &str) -> Option<Group<'_>> {
    let mut found = None;
    for line in text.lines() {
        if let Some(path) = first_path(line) {
            return Some(Group::first(path));
        }
        if let Some(path) = line.strip_prefix("0::") {
            found = Some(Group::second(path));
        }
    }
    found
}
