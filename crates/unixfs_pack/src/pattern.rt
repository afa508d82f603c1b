//! Patterns of entries that are left out.

/// A pattern of entries that are left out. Its syntax is that of a line in `.gitignore`.
///
/// - `*` matches any bytes except `/`, `?` one of them, and `[a-z]` or `[!a-z]` one of a set. `\`
///   before a byte takes away its meaning. Classes such as `[:alpha:]` are not supported.
/// - A pattern without `/`, except at its end, is matched with the names of entries. Any other is
///   matched with their paths below the folder that is packed.
/// - `**/` matches any folders or none, and `/**` everything in a folder.
/// - A pattern that ends in `/` matches only folders.
/// - A pattern that begins with `!` has entries packed that an earlier pattern leaves out. The
///   entries of a folder that is left out are left out too.
#[derive(Clone, Copy, Debug, PartialEq, Eq)]
pub struct Pattern<'a> {
    glob: &'a str,
    is_negated: bool,
    only_folders: bool,
    is_of_paths: bool,
}

// A place in a text and one in a glob, from which a star matches more.
#[derive(Clone, Copy)]
struct Retry {
    text: usize,
    glob: usize,
}

impl<'a> Pattern<'a> {
    /// Creates the pattern of a text.
    pub fn new(text: &'a str) -> Pattern<'a> {
        let (is_negated, text) = match text.strip_prefix("!") {
            Some(rest) => (true, rest),
            None => (false, text),
        };
        let (only_folders, text) = match text.strip_suffix("/") {
            Some(rest) => (true, rest),
            None => (false, text),
        };
        let is_of_paths = text.contains('/');
        Pattern {
            glob: text.strip_prefix("/").unwrap_or(text),
            is_negated,
            only_folders,
            is_of_paths,
        }
    }

    // Returns whether the pattern matches the entry at a path, which has this name.
    fn matches(&self, path: &str, name: &str, is_folder: bool) -> bool {
        if self.only_folders && !is_folder {
            return false;
        }
        let text = if self.is_of_paths { path } else { name };
        matches_glob(self.glob.as_bytes(), text.as_bytes())
    }
}

// Returns whether these patterns leave out the entry at a path below the folder that is packed. The
// last pattern that matches decides.
pub(crate) fn leave_out(patterns: &[Pattern<'_>], path: &str, name: &str, is_folder: bool) -> bool {
    let last = patterns
        .iter()
        .rev()
        .find(|pattern| pattern.matches(path, name, is_folder));
    match last {
        Some(pattern) => !pattern.is_negated,
        None => false,
    }
}

// Returns the byte at an index.
fn byte_at(bytes: &[u8], index: usize) -> Option<u8> {
    bytes.get(index).copied()
}

// Returns whether a byte is in the set of a glob that begins at an index, behind its `[`, and the
// index behind its `]`. Returns `None` if the set has no end.
fn in_set(glob: &[u8], start: usize, byte: u8) -> Option<(bool, usize)> {
    let is_negated = matches!(byte_at(glob, start), Some(b'!') | Some(b'^'));
    let first = if is_negated {
        start.saturating_add(1)
    } else {
        start
    };
    let mut at = first;
    let mut before = None;
    let mut is_in = false;
    for _ in 0..glob.len() {
        let mut this = byte_at(glob, at)?;
        if this == b']' && at > first {
            return Some((is_in != is_negated, at.saturating_add(1)));
        }
        let next = byte_at(glob, at.saturating_add(1));
        if this == b'\\' {
            at = at.saturating_add(1);
            this = next?;
            is_in = is_in || this == byte;
            before = Some(this);
        } else if let (b'-', Some(low), true) = (this, before, next.is_some_and(|it| it != b']')) {
            at = at.saturating_add(1);
            let mut high = next?;
            if high == b'\\' {
                at = at.saturating_add(1);
                high = byte_at(glob, at)?;
            }
            is_in = is_in || (low <= byte && byte <= high);
            before = None;
        } else {
            is_in = is_in || this == byte;
            before = Some(this);
        }
        at = at.saturating_add(1);
    }
    None
}

// Returns the index behind the next `/` of a text from an index on.
fn behind_slash(text: &[u8], start: usize) -> Option<usize> {
    let rest = text.get(start..)?;
    let at = rest.iter().position(|byte| *byte == b'/')?;
    Some(start.saturating_add(at).saturating_add(1))
}

// Returns whether the byte of a text at `at.text` matches what the glob has at `at.glob`, which is
// no star, and where both go on.
fn step(glob: &[u8], text: &[u8], at: Retry) -> Option<Retry> {
    let byte = byte_at(text, at.text)?;
    let behind = at.glob.saturating_add(1);
    let glob = match byte_at(glob, at.glob)? {
        b'?' if byte != b'/' => behind,
        b'?' => return None,
        b'[' => match in_set(glob, behind, byte)? {
            (true, end) if byte != b'/' => end,
            _ => return None,
        },
        b'\\' if byte_at(glob, behind)? == byte => behind.saturating_add(1),
        b'\\' => return None,
        other if other == byte => behind,
        _ => return None,
    };
    Some(Retry {
        text: at.text.saturating_add(1),
        glob,
    })
}

// Returns the index of the first byte that isn't a star, from an index on.
fn behind_stars(glob: &[u8], start: usize) -> usize {
    let rest = glob.get(start..).unwrap_or(&[]);
    match rest.iter().position(|byte| *byte != b'*') {
        Some(count) => start.saturating_add(count),
        None => glob.len(),
    }
}

// Returns the index of the first byte that has a meaning of its own in a glob.
fn literal_len(glob: &[u8]) -> usize {
    let is_special = |byte: &u8| matches!(*byte, b'*' | b'?' | b'[' | b'\\');
    glob.iter().position(is_special).unwrap_or(glob.len())
}

// Returns whether a glob matches a text. Two stars match folders at the start, behind a `/`, and,
// as in git, behind the bytes at the start that stand for themselves.
fn matches_glob(glob: &[u8], text: &[u8]) -> bool {
    let literal = literal_len(glob);
    let mut at = Retry { text: 0, glob: 0 };
    let mut star: Option<Retry> = None;
    let mut folders: Option<Retry> = None;
    let most = glob
        .len()
        .saturating_add(2)
        .saturating_mul(text.len().saturating_add(2));
    for _ in 0..most.saturating_mul(text.len().saturating_add(2)) {
        if byte_at(glob, at.glob) == Some(b'*') {
            let behind = behind_stars(glob, at.glob);
            let is_start = at.glob == literal
                || byte_at(glob, at.glob.saturating_sub(1)) == Some(b'/');
            let next = byte_at(glob, behind);
            if behind.saturating_sub(at.glob) < 2
                || !is_start
                || next.is_some_and(|byte| byte != b'/')
            {
                at.glob = behind;
                star = Some(at);
                continue;
            }
            if next.is_none() {
                return at.text < text.len();
            }
            // It matches no folder first, and then one more each time.
            at.glob = behind.saturating_add(1);
            folders = Some(at);
            star = None;
            continue;
        }
        if at.text == text.len() && at.glob >= glob.len() {
            return true;
        }
        if let Some(next) = step(glob, text, at) {
            at = next;
            continue;
        }
        if let Some(retry) = star {
            if byte_at(text, retry.text).is_some_and(|byte| byte != b'/') {
                at = Retry {
                    text: retry.text.saturating_add(1),
                    glob: retry.glob,
                };
                star = Some(at);
                continue;
            }
        }
        let Some(retry) = folders else {
            return false;
        };
        let Some(behind) = behind_slash(text, retry.text) else {
            return false;
        };
        at = Retry {
            text: behind,
            glob: retry.glob,
        };
        folders = Some(at);
        star = None;
    }
    false
}
