//! The targets of symbolic links.

ghost use Rattle.std.specs.Prelude.{◌≡◌};
ghost use Rattle.unixfs_folders.specs.SymlinkTargets as targets;

// Returns how many folders up a path may lead behind this segment, if it may lead up `levels`
// folders before it. Returns `None` if the segment leads too far.
#[tactic(auto, unfolding(crate::specs::SymlinkTargets::levels_after))]
fn levels_after(levels: usize, segment: &str) -> Option<usize>
    ensures { result ≡ targets.levels_after levels segment.now }
{
    match segment {
        "" | "." => Some(levels),
        ".." => levels.checked_sub(1),
        // The name can be that of another link, which leads up.
        _ => Some(0),
    }
}

// Returns whether a path begins with a slash.
#[tactic(auto, unfolding(crate::specs::SymlinkTargets::is_absolute))]
fn is_absolute(path: &str) -> bool
    ensures { result ≡ targets.is_absolute path.now }
{
    match path.as_bytes() {
        [first, ..] => *first == b'/',
        [] => false,
    }
}

/// Returns whether a symbolic link with this target leads to nothing outside of a folder, if it is
/// in a folder `depth` levels below. None of the folders between them may be a link.
///
/// That is so if the target is relative, and has `..` only before all names, at most `depth` times.
pub fn stays_inside(target: &str, depth: usize) -> bool
    ensures { result ≡ targets.stays_inside depth target.now }
{
    if is_absolute(target) {
        return false;
    }
    let mut levels = depth;
    let mut rest = target;
    while let Some((segment, more)) = rest.split_once('/') {
        match levels_after(levels, segment) {
            Some(left) => levels = left,
            None => return false,
        }
        rest = more;
    }
    levels_after(levels, rest).is_some()
}
