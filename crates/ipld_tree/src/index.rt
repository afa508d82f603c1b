//! Lookups in a list or a map.

ghost use Rattle.std.specs.Prelude.{◌≡◌, [], ◌∷◌, ℕ, List, length, filter, nat_lt, Some, None, option_map, MatchResult, IfOk, IsOk, string_bytes};
ghost use Rattle.ipld_tree.specs.Index.{Index, number, name, name_ref, no_number, number_of, number_meant, key_meant, item_at, value_at, numbered, found_at};
ghost use Rattle.ipld_tree.specs.IndexOf.{index_of, lookup_error_of, outcome_of_get, outcome_of_take};
ghost use Rattle.ipld_tree.specs.Path.{segments, found_along};
ghost use Rattle.ipld_tree.specs.TreeOf.{tree_of, items_of, members_of};

use crate::ipld::{Ipld, IpldKind};
use itoa::Buffer;
use std::alloc::{AllocError, Global};
use std::collections::BTreeMap;

/// A position in a list or a map: a number, or an owned or borrowed string.
///
/// In a list, a string means a number if it is an optional `+` and one or more decimal digits, and
/// the number fits in a `usize`. For example, `007` and `+7` mean 7. In a map, a number means its
/// decimal string.
#[derive(Debug, PartialEq, Eq, Drop)]
pub enum IpldIndex<'a> {
    /// A number, such as the position of an item in a list.
    List(usize),
    /// A string that the index owns, such as a key of a map.
    Map(String),
    /// A string that the index borrows, such as a key of a map.
    MapRef(&'a str),
}

/// The error of a lookup at an index.
#[derive(Debug, PartialEq, Eq, Drop)]
pub enum IndexError<'a> {
    /// A list was indexed by a string that does not mean a number. The error contains the unchanged
    /// index.
    ParseInteger(IpldIndex<'a>),
    /// The indexed value is neither a list nor a map. The error contains its kind.
    WrongKind(IpldKind),
}

/// A type that a list or a map can be indexed by: `usize`, `String`, `&str`, or [`IpldIndex`]
/// itself.
pub trait IntoIndex<'a> {
    // the index that a value is
    ghost index: { Self → Index };

    /// Returns the value as an index. Does not allocate.
    fn into_index(self) -> IpldIndex<'a>
        ensures { index_of result ≡ index self };
}

impl<'a> IntoIndex<'a> for usize {
    ghost index = { λ n. number n };

    fn into_index(self) -> IpldIndex<'a> {
        IpldIndex::List(self)
    }
}

impl<'a> IntoIndex<'a> for String {
    ghost index = { λ s. name (string_bytes s) };

    fn into_index(self) -> IpldIndex<'a> {
        IpldIndex::Map(self)
    }
}

impl<'a> IntoIndex<'a> for &'a str {
    ghost index = { λ s. name_ref s.now };

    fn into_index(self) -> IpldIndex<'a> {
        IpldIndex::MapRef(self)
    }
}

impl<'a> IntoIndex<'a> for IpldIndex<'a> {
    ghost index = { index_of };

    fn into_index(self) -> IpldIndex<'a> {
        self
    }
}

/// Converts an index to the number that it means. If it does not mean a number, returns
/// [`IndexError::ParseInteger`] with the index. Does not allocate.
impl<'a> TryFrom<IpldIndex<'a>> for usize {
    type Error = IndexError<'a>;

    ghost try_from_gives = { λ index r. MatchResult r (λ n. number_meant (index_of index) ≡ Some n)
        (λ e. (number_meant (index_of index) ≡ None) × (lookup_error_of e ≡ no_number (index_of index))) };

    fn try_from(index: IpldIndex<'a>) -> Result<usize, IndexError<'a>> {
        match list_position(&index) {
            Some(number) => Ok(number),
            None => Err(IndexError::ParseInteger(index)),
        }
    }
}

impl IpldIndex<'_> {
    /// Returns the key that the index means: its string, or the decimal string of its number. It
    /// allocates, except for a string that the index owns, which it returns.
    ///
    /// # Errors
    ///
    /// `AllocError` if an allocation fails. The index is then dropped.
    pub fn into_text(self, alloc: Global) -> Result<String, AllocError>
        ensures meant { IfOk result (λ s. string_bytes s ≡ key_meant (index_of self.entry)) }
        ensures owned { (key : List ℕ) → index_of self.entry ≡ name key → IsOk result }
    {
        match self {
            IpldIndex::List(number) => String::from_str(alloc, Buffer::new().format(number)),
            IpldIndex::Map(key) => Ok(key),
            IpldIndex::MapRef(key) => String::from_str(alloc, key),
        }
    }
}

impl Ipld {
    /// Borrows the value at an index: an item of a list, or the value at a key of a map. Returns
    /// `None` if the index is past the end of a list, or if a map does not have the key. Does not
    /// allocate.
    ///
    /// # Errors
    ///
    /// - [`IndexError::WrongKind`] if the value is neither a list nor a map, whatever the index is.
    /// - [`IndexError::ParseInteger`] if it is a list and the index is a string that does not mean
    ///   a number.
    pub fn get<'a, T: IntoIndex<'a>>(&self, index: T) -> Result<Option<&Ipld>, IndexError<'a>>
        ensures { outcome_of_get result ≡ found_at (tree_of self.now) (T.index index) }
    {
        let index = index.into_index();
        match self {
            Ipld::List(items) => item_at(items, index),
            Ipld::Map(members) => Ok(member_at(members, &index)),
            neither => Err(IndexError::WrongKind(neither.kind())),
        }
    }

    /// Returns the value that [`Ipld::get`] borrows, or the same error, and drops the rest as
    /// [`Ipld::discard`] does. Does not allocate.
    pub fn take<'a, T: IntoIndex<'a>>(self, index: T) -> Result<Option<Ipld>, IndexError<'a>>
        ensures { outcome_of_take result ≡ found_at (tree_of self) (T.index index) }
    {
        let index = index.into_index();
        match self {
            Ipld::List(items) => take_item_at(items, index),
            Ipld::Map(members) => Ok(take_member_at(members, &index)),
            neither => Err(IndexError::WrongKind(neither.kind())),
        }
    }
}

impl Ipld {
    /// Borrows the value at the end of a path, such as `name/0/first`. Calls [`Ipld::get`] for
    /// every segment of the path in turn. The segments are separated by `/`. Returns `None` if a
    /// segment is past the end of a list, or is not a key of a map. Does not allocate.
    ///
    /// Like other implementations of IPLD paths, it skips empty segments: `/a//b/` is `a/b`, and
    /// the empty path and `/` lead to the value itself. So only [`Ipld::get`] reaches a key that is
    /// empty or contains a `/`. Links are not followed.
    ///
    /// # Errors
    ///
    /// The error of the first segment that can't be looked up, as from [`Ipld::get`]:
    ///
    /// - [`IndexError::WrongKind`] if the value there is neither a list nor a map.
    /// - [`IndexError::ParseInteger`] with the segment if the value there is a list and the segment
    ///   does not mean a number.
    ///
    /// # Examples
    ///
    /// ```rust
    /// let city = person.at_path("addresses/0/city")?;
    /// ```
    pub fn at_path<'a>(&self, path: &'a str) -> Result<Option<&Ipld>, IndexError<'a>>
        ensures { outcome_of_get result ≡ found_along (segments path.now) (tree_of self.now) }
    {
        let mut reached = self;
        let mut rest = path;
        while let Some((segment, more)) = rest.split_once('/') {
            match value_at_segment(reached, segment) {
                Ok(Some(inner)) => reached = inner,
                Ok(None) => return Ok(None),
                Err(error) => return Err(error),
            }
            rest = more;
        }
        value_at_segment(reached, rest)
    }
}

// The value at a segment, or the value itself if the segment is empty.
#[inline(always)]
fn value_at_segment<'t, 'a>(
    value: &'t Ipld,
    segment: &'a str,
) -> Result<Option<&'t Ipld>, IndexError<'a>>
    ensures { outcome_of_get result ≡ found_along (filter (λ part. nat_lt 0 (length part))
        (segment.now ∷ [])) (tree_of value.now) }
{
    if segment.is_empty() {
        Ok(Some(value))
    } else {
        value.get(segment)
    }
}

fn parse_number(text: &str) -> Option<usize>
    ensures { result ≡ number_of text.now }
{
    text.parse::<usize>().ok()
}

fn list_position(index: &IpldIndex) -> Option<usize>
    ensures { result ≡ number_meant (index_of index.now) }
{
    match index {
        IpldIndex::List(number) => Some(*number),
        IpldIndex::Map(text) => parse_number(text),
        IpldIndex::MapRef(text) => parse_number(text),
    }
}

fn item_at<'t, 'a>(
    items: &'t Vec<Ipld>,
    index: IpldIndex<'a>,
) -> Result<Option<&'t Ipld>, IndexError<'a>>
    ensures { outcome_of_get result ≡ numbered (number_meant (index_of index.entry))
        (index_of index.entry) (items_of items.now.items) }
{
    match list_position(&index) {
        Some(number) => Ok(item_at_position(items, number)),
        None => Err(IndexError::ParseInteger(index)),
    }
}

fn item_at_position(items: &Vec<Ipld>, number: usize) -> Option<&Ipld>
    ensures { option_map (λ v. tree_of v.now) result ≡ item_at number (items_of items.now.items) }
{
    if number < items.len() {
        Some(&items[number])
    } else {
        None
    }
}

fn member_at<'t>(members: &'t BTreeMap<String, Ipld>, index: &IpldIndex) -> Option<&'t Ipld>
    ensures { option_map (λ v. tree_of v.now) result ≡ value_at (key_meant (index_of index.now))
        (members_of members.now.entries) }
{
    match index {
        IpldIndex::List(number) => member_of_key(members, Buffer::new().format(*number)),
        IpldIndex::Map(key) => member_of_key(members, key),
        IpldIndex::MapRef(key) => member_of_key(members, key),
    }
}

fn member_of_key<'t>(members: &'t BTreeMap<String, Ipld>, key: &str) -> Option<&'t Ipld>
    ensures { option_map (λ v. tree_of v.now) result ≡ value_at key.now
        (members_of members.now.entries) }
{
    members.get(key)
}

fn take_item_at<'a>(items: Vec<Ipld>, index: IpldIndex<'a>) -> Result<Option<Ipld>, IndexError<'a>>
    ensures { outcome_of_take result ≡ numbered (number_meant (index_of index.entry))
        (index_of index.entry) (items_of items.items) }
{
    match list_position(&index) {
        Some(number) => Ok(take_item_at_position(items, number)),
        None => {
            Ipld::List(items).discard();
            Err(IndexError::ParseInteger(index))
        }
    }
}

fn take_item_at_position(mut items: Vec<Ipld>, number: usize) -> Option<Ipld>
    ensures { option_map tree_of result ≡ item_at number (items_of items.items) }
{
    if number >= items.len() {
        Ipld::List(items).discard();
        return None;
    }
    let item = items.swap_remove(number);
    Ipld::List(items).discard();
    Some(item)
}

fn take_member_at(members: BTreeMap<String, Ipld>, index: &IpldIndex) -> Option<Ipld>
    ensures { option_map tree_of result ≡ value_at (key_meant (index_of index.now))
        (members_of members.entries) }
{
    match index {
        IpldIndex::List(number) => take_member_of_key(members, Buffer::new().format(*number)),
        IpldIndex::Map(key) => take_member_of_key(members, key),
        IpldIndex::MapRef(key) => take_member_of_key(members, key),
    }
}

fn take_member_of_key(mut members: BTreeMap<String, Ipld>, key: &str) -> Option<Ipld>
    ensures { option_map tree_of result ≡ value_at key.now (members_of members.entries) }
{
    let value = members.remove(key);
    Ipld::Map(members).discard();
    value
}
