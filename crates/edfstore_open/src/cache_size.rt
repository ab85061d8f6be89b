//! The size of the page cache for a store that is about to be opened.

use crate::cache::{Group, cache_pages, free_bytes, group_of};
use std::fs;
use std::io::{ErrorKind, Read};

/// The byte between the parts of a path.
const SLASH: u8 = b'/';

/// Returns the number in a file of the system, or the greatest where it has the word for no limit,
/// or is not there.
fn number_in(rt: &HostRuntime, path: &str) -> Option<u64> {
    match fs::read_to_string(rt, path) {
        Ok(text) => match text.trim() {
            "max" => Some(u64::MAX),
            number => number.parse::<u64>().ok(),
        },
        Err(error) if error.kind() == ErrorKind::NotFound => Some(u64::MAX),
        Err(_) => None,
    }
}

/// Returns how many bytes one group, that of a prefix of the path, may still take.
fn unused_at(rt: &HostRuntime, group: Group<'_>, prefix: &str) -> Option<u64> {
    let folder = group.folder;
    let limit = format!(in rt.alloc(); "{folder}{prefix}/{}", group.limit).ok()?;
    let most = number_in(rt, limit.as_str())?;
    if most == u64::MAX {
        return Some(most);
    }
    let used = format!(in rt.alloc(); "{folder}{prefix}/{}", group.used).ok()?;
    Some(most.saturating_sub(number_in(rt, used.as_str())?))
}

/// Returns how many bytes a group, and each one that it is in, may still take.
fn unused_in(rt: &HostRuntime, group: Group<'_>) -> Option<u64> {
    let mut least = unused_at(rt, group, group.path)?;
    for (at, byte) in group.path.as_bytes().iter().enumerate() {
        if *byte == SLASH
            && let Some(prefix) = group.path.get(..at)
        {
            least = least.min(unused_at(rt, group, prefix)?);
        }
    }
    Some(least)
}

/// Returns how many bytes this process may still take by its limits.
fn unused_of_limits(rt: &HostRuntime) -> Option<u64> {
    match fs::read_to_string(rt, "/proc/self/cgroup") {
        Ok(text) => match group_of(text.as_str()) {
            Some(group) => unused_in(rt, group),
            None => Some(u64::MAX),
        },
        Err(error) if error.kind() == ErrorKind::NotFound => Some(u64::MAX),
        Err(_) => None,
    }
}

/// Returns how many bytes the system says may be taken; `None` where it does not say.
fn free_memory(rt: &HostRuntime) -> Option<u64> {
    let text = fs::read_to_string(rt, "/proc/meminfo").ok()?;
    let free = free_bytes(text.as_str())?;
    Some(free.min(unused_of_limits(rt)?))
}

/// Is true where the file at a path has pages of the size that is made here.
fn begins_as_ours(rt: &HostRuntime, path: &str) -> bool {
    let Ok(mut file) = fs::open(rt, path) else {
        return false;
    };
    let mut head = [0; 18];
    // SQLite writes the size of its pages after its name.
    file.read_exact(&mut head).is_ok() && head[16] == 0x10 && head[17] == 0
}

/// Returns the cache size for the store at a path: as many pages as its file has now, or as a log
/// that is copied, where there is memory for them; `None` stands for the port's own number.
///
/// The file is read and closed before its store is opened: this process has no lock on it yet.
pub(crate) fn pages_at(rt: &HostRuntime, path: &str) -> Option<usize> {
    let bytes = match fs::metadata(rt, path) {
        Ok(found) => found.len(),
        Err(_) => 0,
    };
    if bytes > 0 && !begins_as_ours(rt, path) {
        return None;
    }
    cache_pages(bytes, free_memory(rt)?)
}
