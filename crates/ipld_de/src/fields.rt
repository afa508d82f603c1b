//! Reading a struct from a map by the names of its fields.

ghost use Rattle.std.specs.Prelude.{◌≡◌, ◌≢◌, ◌+◌, ◌-◌, ◌<◌, ◌≤◌, ◌⊎◌, ℕ, List, [], ◌∷◌, length, slice_get, Bool, Option, Some, None, true, false, is_none, option_map, codes, Err, IfOk, IfErr, IfSome, IfNone, OnOk, OnErr, refl};
ghost use Rattle.std.specs.Str.{bytes_eq};
ghost use Rattle.ipld_de.specs.Cursors.{entries_left};
ghost use Rattle.ipld_de.specs.ImageFields.{ValueRead};
ghost use Rattle.ipld_de.specs.Fields.{named_or, only_fields, reads_fields, struct_reading, found_or_named, strings, under_first, under_each, Part, part, accepts_at, RejectsAt, waits_first, FieldsError, StructReadError};
ghost use Rattle.ipld_ser.specs.Names.{among, AreDistinct};
ghost use Rattle.ipld_de.specs.Reading.{RejectsToRead, IsCustom};
ghost use Rattle.ipld_ser.specs.Image.{RejectsAs};
ghost use Rattle.ipld_tree.specs.Index.{value_at};
ghost use Rattle.ipld_tree.specs.IsWhole.{Ascends};
ghost use Rattle.ipld_de.specs.Lemmas.Skipping.{found_skips, first_skips, each_skips, found_by_name, first_by_name, each_by_name};
ghost use Rattle.ipld_ser.specs.declared.error.SerdeError.TheVariants as error;
ghost use Rattle.ipld_tree.specs.Tree.{Members, no_members, member};
ghost use Rattle.ipld_tree.specs.TreeOf.{tree_of};

use crate::deserialize::Deserialize;
use crate::deserializer::Deserializer;
use crate::image_reader::{ImageReader, Unread};
use crate::map::MapDeserializer;
use crate::missing::{IfMissing, Optional, Required};
use crate::part::{Part, read_part};
use ipld_ser::SerdeError;
use ipld_tree::Ipld;
use std::alloc::Global;
use std::marker::PhantomData;

/// The fields of a struct, with the values that were found in a map so far: a [`Field`], an
/// [`OptionalField`], or a pair of one and the fields after it. A struct without fields has `()`. A
/// struct of a `u8`, a `bool` and a `String` is read by
/// `(Field<u8>, (Field<bool>, Field<String>))`.
///
/// Its meaning is `named_reads`: every field is read from the value of its name among the members
/// of the map. The names are given in the order of the fields.
///
/// The trait is sealed: no other type can implement it.
pub trait Fields: sealed::Sealed + Sized + Drop {
    /// The values of the fields, in pairs like the fields.
    type Values: Drop;

    // the contents of the fields, in nested pairs
    ghost Contents: { Type 0 };

    // the contents of the values that were found
    ghost contents: { Self.Values → Contents };

    // the number of fields
    ghost count: { ℕ };

    // the reading of the fields of these names from the entries of a map
    ghost named_reads: { List (List ℕ) → Members → Option Contents };

    // the reading of every field, in the order of the fields
    ghost parts: { List {1} Part };

    // the reading of the fields from the values that were found so far and the entries of a map
    ghost reads: { Self → List (List ℕ) → Members → Option Contents };

    // whether the field at an index has no value yet
    ghost waits: { Self → ℕ → Bool };

    /// Creates fields without values: nothing was found yet.
    fn new() -> Self
        ensures reads { (names : List (List ℕ)) (ms : Members)
            → reads result names ms ≡ named_reads names ms }
        ensures wait { (i : ℕ) → i < count → waits result i ≡ true };

    /// Reads a value as the field at `index`, or drops it if the fields are `()`. A field keeps its
    /// first value, and drops later ones.
    ///
    /// If the call fails, every field is as before: a field with a value keeps it, and the field at
    /// `index` still waits for one.
    ///
    /// # Errors
    ///
    /// The error of the field's type, or [`SerdeError::Memory`] if an allocation fails.
    fn offer(&mut self, alloc: Global, index: usize, value: Ipld) -> Result<(), SerdeError>
        requires { index ≤ count - 1 }
        ensures ok { (names : List (List ℕ)) (k : List ℕ) → AreDistinct names
            → slice_get names index ≡ Some k
            → OnOk result ((ms : Members) → reads self.new names ms ≡ reads self.old names
            (member k (tree_of value) ms)) }
        ensures err { (names : List (List ℕ)) (k : List ℕ) → slice_get names index ≡ Some k
            → IfErr result (λ e. (e ≡ error.Memory) ⊎ ((ms : Members)
            → reads self.old names (member k (tree_of value) ms) ≡ None)) }
        ensures why { IfErr result (λ e. (e ≡ error.Memory)
            ⊎ RejectsAt parts index (tree_of value) e) }
        ensures accepts { OnOk result (waits self.old index ≡ true
            → accepts_at parts index (tree_of value) ≡ true) }
        ensures others { (i : ℕ) → (i ≡ index → ⊥) → waits self.new i ≡ waits self.old i }
        ensures unchanged { (names : List (List ℕ)) → OnErr result ((ms : Members)
            → reads self.new names ms ≡ reads self.old names ms) };

    /// Reads the next value part by part as the field at `index`. The value nests at most `levels`
    /// levels deep.
    ///
    /// # Errors
    ///
    /// [`Unread::Memory`] if an allocation fails. [`Unread::Rejected`] if the field's type does not
    /// read the value. It is always `Rejected` if the field already has a value or the fields are
    /// `()`.
    fn read_value<R: ImageReader>(
        &mut self,
        alloc: Global,
        index: usize,
        reader: &mut R,
        levels: usize,
    ) -> Result<(), Unread>
        requires { index ≤ count - 1 }
        ensures ok { (names : List (List ℕ)) (k : List ℕ) → AreDistinct names
            → slice_get names index ≡ Some k
            → OnOk result (ValueRead (R.Begins levels) (accepts_at parts index)
            (reads self.old names) (reads self.new names) k (R.contents reader.old)
            (R.contents reader.new)) }
        ensures never_missing { IfErr result (λ e. e ≢ Unread.MissingField) }
        ensures second { waits self.old index ≡ false → result ≡ Err Unread.Rejected };

    /// Returns the values, after every member of the map was read.
    ///
    /// # Errors
    ///
    /// `Custom("missing field")` if a required field has no value.
    fn finish(self) -> Result<Self::Values, SerdeError>
        ensures ok { (names : List (List ℕ)) → length names ≡ count
            → IfOk result (λ v. reads self names no_members ≡ Some (contents v)) }
        ensures err { (names : List (List ℕ))
            → IfErr result (λ _. reads self names no_members ≡ None) }
        ensures missing { IfErr result (IsCustom (codes "missing field")) };

    // the law that an entry of another name changes nothing
    ghost skips: { (f : Self) (names : List (List ℕ)) (k : List ℕ) (t : _) (ms : Members) → among k names ≡ false → reads f names (member k t ms) ≡ reads f names ms };

    // the law that entries with the same values at the same names are read the same
    ghost by_name: { (f : Self) (names : List (List ℕ)) (es ms : Members) → ((name : List ℕ) → value_at name es ≡ value_at name ms) → reads f names es ≡ reads f names ms };
}

pub(crate) mod sealed {
    pub trait Sealed {}
}

/// A field of a struct, with its value if that was found. Its name is required, unless `M` is
/// [`Optional`].
///
/// Its drop is the [`discard`](Deserialize::discard) of the value.
pub struct Field<T: Deserialize, M: IfMissing<T> = Required> {
    value: Option<T>,
    missing: PhantomData<M>,
}

/// A field of a struct whose name may be missing. It is `None` if its name is missing or holds
/// Null.
///
/// ```
/// use ipld_de::{Field, OptionalField, read_struct};
///
/// let (title, likes) =
///     read_struct::<(OptionalField<String>, Field<u32>)>(alloc, tree, "Photo", &["title", "likes"])?;
/// ```
pub type OptionalField<T> = Field<Option<T>, Optional>;

impl<T: Deserialize, M: IfMissing<T>> Drop for Field<T, M> {
    #[inline(always)]
    fn drop(self) {
        let Field { value, missing: _ } = self;
        if let Some(value) = value {
            value.discard();
        }
    }
}

impl<T: Deserialize, M: IfMissing<T>> sealed::Sealed for Field<T, M> {}

impl<T: Deserialize, M: IfMissing<T>> Fields for Field<T, M> {
    type Values = T;

    ghost Contents = { T.Contents };

    ghost contents = { T.contents };

    ghost count = { 1 };

    ghost named_reads = { under_first (λ name. named_or (option_map T.contents M.missing) name T.reads) };

    ghost parts = { part T.reads T.read_error ∷ [] };

    ghost reads = { λ f. under_first (found_or_named T.contents T.reads M.missing f.value) };

    ghost waits = { λ f. waits_first (is_none f.value) (λ _. false) };

    #[inline(always)]
    fn new() -> Field<T, M> {
        Field {
            value: None,
            missing: PhantomData,
        }
    }

    #[inline(always)]
    fn offer(&mut self, alloc: Global, _index: usize, value: Ipld) -> Result<(), SerdeError> {
        if self.value.is_none() {
            self.value = Some(T::deserialize(alloc, value)?);
        } else {
            value.discard();
        }
        Ok(())
    }

    #[inline(always)]
    fn read_value<R: ImageReader>(
        &mut self,
        alloc: Global,
        _index: usize,
        reader: &mut R,
        levels: usize,
    ) -> Result<(), Unread> {
        if self.value.is_some() {
            return Err(Unread::Rejected);
        }
        self.value = Some(read_part(alloc, reader, levels)?);
        Ok(())
    }

    #[inline(always)]
    fn finish(self) -> Result<T, SerdeError> {
        let Field { value, missing: _ } = self;
        match value {
            Some(value) => Ok(value),
            None => M::if_missing(),
        }
    }

    ghost skips = { λ f names k t ms none. first_skips (found_or_named T.contents T.reads M.missing f.value) names k t ms (found_skips T.contents T.reads M.missing f.value k t ms) none };

    ghost by_name = { λ f names es ms same. first_by_name (found_or_named T.contents T.reads M.missing f.value) names es ms (found_by_name T.contents T.reads M.missing f.value es ms same) };
}

impl<T: Deserialize, M: IfMissing<T>, F> sealed::Sealed for (Field<T, M>, F) {}

impl<T: Deserialize, M: IfMissing<T>, F: Fields> Fields for (Field<T, M>, F) {
    type Values = (T, F::Values);

    ghost Contents = { T.Contents × F.Contents };

    ghost contents = { λ v. (T.contents v.0, F.contents v.1) };

    ghost count = { F.count + 1 };

    ghost named_reads = { under_each (λ name. named_or (option_map T.contents M.missing) name T.reads) F.named_reads };

    ghost parts = { part T.reads T.read_error ∷ F.parts };

    ghost reads = { λ f. under_each (found_or_named T.contents T.reads M.missing f.0.value) (F.reads f.1) };

    ghost waits = { λ f. waits_first (is_none f.0.value) (F.waits f.1) };

    #[inline(always)]
    fn new() -> (Field<T, M>, F) {
        (
            Field {
                value: None,
                missing: PhantomData,
            },
            F::new(),
        )
    }

    #[inline(always)]
    fn offer(&mut self, alloc: Global, index: usize, value: Ipld) -> Result<(), SerdeError> {
        if index == 0 {
            self.0.offer(alloc, 0, value)
        } else {
            self.1.offer(alloc, index - 1, value)
        }
    }

    #[inline(always)]
    fn read_value<R: ImageReader>(
        &mut self,
        alloc: Global,
        index: usize,
        reader: &mut R,
        levels: usize,
    ) -> Result<(), Unread> {
        if index == 0 {
            self.0.read_value(alloc, 0, reader, levels)
        } else {
            self.1.read_value(alloc, index - 1, reader, levels)
        }
    }

    #[inline(always)]
    fn finish(self) -> Result<(T, F::Values), SerdeError> {
        let (first, others) = self;
        let first = Part::new(first.finish()?);
        let others = others.finish()?;
        Ok((first.into_value(), others))
    }

    ghost skips = { λ f names k t ms none. each_skips (found_or_named T.contents T.reads M.missing f.0.value) (F.reads f.1) names k t ms (found_skips T.contents T.reads M.missing f.0.value k t ms) (λ more other. F.skips f.1 more k t ms other) none };

    ghost by_name = { λ f names es ms same. each_by_name (found_or_named T.contents T.reads M.missing f.0.value) (F.reads f.1) names es ms (found_by_name T.contents T.reads M.missing f.0.value es ms same) (λ more. F.by_name f.1 more es ms same) };
}

impl sealed::Sealed for () {}

/// No fields. Any Map is read, or only the empty Map if the reading is strict.
impl Fields for () {
    type Values = ();

    ghost Contents = { Unit {0} };

    ghost contents = { λ _. tt };

    ghost count = { 0 };

    ghost named_reads = { λ _ _. Some tt };

    ghost parts = { [] };

    ghost reads = { λ _ _ _. Some tt };

    ghost waits = { λ _ _. false };

    #[inline(always)]
    fn new() {}

    #[inline(always)]
    fn offer(&mut self, _alloc: Global, _index: usize, value: Ipld) -> Result<(), SerdeError> {
        value.discard();
        Ok(())
    }

    #[inline(always)]
    fn read_value<R: ImageReader>(
        &mut self,
        _alloc: Global,
        _index: usize,
        _reader: &mut R,
        _levels: usize,
    ) -> Result<(), Unread> {
        Err(Unread::Rejected)
    }

    #[inline(always)]
    fn finish(self) -> Result<(), SerdeError> {
        Ok(())
    }

    ghost skips = { λ _ _ _ _ _ _. refl };

    ghost by_name = { λ _ _ _ _ _. refl };
}

/// Reads the fields with these names from a map. Ignores other entries. Reads the keys in byte
/// order.
///
/// # Errors
///
/// - The error of the first field that does not read its value.
/// - Otherwise `Custom("missing field")` if a required name is not in the map.
/// - [`SerdeError::Memory`] if an allocation fails.
pub fn read_fields<F: Fields>(
    alloc: Global,
    map: MapDeserializer,
    names: &[&str],
) -> Result<F::Values, SerdeError>
    requires count { length names.now ≡ F.count }
    requires distinct { AreDistinct (strings names.now) }
    ensures ok { IfOk result (λ v. F.named_reads (strings names.now) (entries_left map) ≡ Some
        (F.contents v)) }
    ensures err { IfErr result (λ e. RejectsToRead (F.named_reads (strings names.now)
        (entries_left map)) e) }
    ensures why { Ascends (entries_left map) → IfErr result (λ e. (e ≡ error.Memory)
        ⊎ FieldsError false F.parts (strings names.now) (entries_left map) e) }
{
    read_named::<F>(alloc, map, names, false)
}

/// Reads the fields from a map that has these names and no others. Reads the keys in byte order.
///
/// # Errors
///
/// - The first error in the order of the keys: that of a field's type, or `Custom("unknown field")`
///   for a key that is not one of the names.
/// - Otherwise `Custom("missing field")` if a required name is not in the map.
/// - [`SerdeError::Memory`] if an allocation fails.
pub fn read_only_fields<F: Fields>(
    alloc: Global,
    map: MapDeserializer,
    names: &[&str],
) -> Result<F::Values, SerdeError>
    requires count { length names.now ≡ F.count }
    requires distinct { AreDistinct (strings names.now) }
    ensures ok { IfOk result (λ v. only_fields (strings names.now)
        (F.named_reads (strings names.now)) (entries_left map) ≡ Some (F.contents v)) }
    ensures err { IfErr result (λ e. RejectsToRead (only_fields (strings names.now)
        (F.named_reads (strings names.now)) (entries_left map)) e) }
    ensures why { Ascends (entries_left map) → IfErr result (λ e. (e ≡ error.Memory)
        ⊎ FieldsError true F.parts (strings names.now) (entries_left map) e) }
{
    read_named::<F>(alloc, map, names, true)
}

// Reads the fields from a map. If `strict`, the map may not have other names.
#[inline(always)]
fn read_named<F: Fields>(
    alloc: Global,
    mut map: MapDeserializer,
    names: &[&str],
    strict: bool,
) -> Result<F::Values, SerdeError>
    requires count { length names.now ≡ F.count }
    requires distinct { AreDistinct (strings names.now) }
    ensures ok { IfOk result (λ v. reads_fields strict (strings names.now)
        (F.named_reads (strings names.now)) (entries_left map) ≡ Some (F.contents v)) }
    ensures err { IfErr result (λ e. RejectsToRead (reads_fields strict (strings names.now)
        (F.named_reads (strings names.now)) (entries_left map)) e) }
    ensures why { Ascends (entries_left map) → IfErr result (λ e. (e ≡ error.Memory)
        ⊎ FieldsError strict F.parts (strings names.now) (entries_left map) e) }
{
    let mut fields = F::new();
    while let Some((name, value)) = map.next_entry() {
        let Some(index) = position_of(names, name.as_str()) else {
            value.discard();
            if strict {
                return Err(SerdeError::Custom("unknown field"));
            }
            continue;
        };
        fields.offer(alloc, index, value)?;
    }
    fields.finish()
}

/// Reads the fields of a struct with these names from a Map. Ignores other entries and the name of
/// the struct.
///
/// # Errors
///
/// [`SerdeError::WrongKind`] if the tree is not a Map. Otherwise the errors of [`read_fields`].
#[inline(always)]
pub fn read_struct<F: Fields>(
    alloc: Global,
    value: Ipld,
    name: &str,
    names: &[&str],
) -> Result<F::Values, SerdeError>
    requires count { length names.now ≡ F.count }
    requires distinct { AreDistinct (strings names.now) }
    ensures ok { IfOk result (λ v. struct_reading (F.named_reads (strings names.now))
        (tree_of value) ≡ Some (F.contents v)) }
    ensures err { IfErr result (λ e. RejectsAs (struct_reading (F.named_reads (strings names.now))
        (tree_of value)) (StructReadError false F.parts (strings names.now) (tree_of value)) e) }
{
    let map = value.deserialize_struct(name, names)?;
    read_fields::<F>(alloc, map, names)
}

/// Reads the fields of a struct from a Map that has these names and no others. Ignores the name of
/// the struct.
///
/// # Errors
///
/// [`SerdeError::WrongKind`] if the tree is not a Map. Otherwise the errors of
/// [`read_only_fields`].
#[inline(always)]
pub fn read_strict_struct<F: Fields>(
    alloc: Global,
    value: Ipld,
    name: &str,
    names: &[&str],
) -> Result<F::Values, SerdeError>
    requires count { length names.now ≡ F.count }
    requires distinct { AreDistinct (strings names.now) }
    ensures ok { IfOk result (λ v. struct_reading (only_fields (strings names.now)
        (F.named_reads (strings names.now))) (tree_of value) ≡ Some (F.contents v)) }
    ensures err { IfErr result (λ e. RejectsAs (struct_reading (only_fields (strings names.now)
        (F.named_reads (strings names.now))) (tree_of value)) (StructReadError true F.parts
        (strings names.now) (tree_of value)) e) }
{
    let map = value.deserialize_struct(name, names)?;
    read_only_fields::<F>(alloc, map, names)
}

/// Returns the index of a key among the names, or `None` if it is not one of them. Does not
/// allocate.
pub fn position_of(names: &[&str], key: &str) -> Option<usize>
    ensures found { IfSome result (λ i. slice_get (strings names.now) i ≡ Some key.now) }
    ensures within { IfSome result (λ i. i < length names.now) }
    ensures none { IfNone result (among key.now (strings names.now) ≡ false) }
{
    names.iter().position(|name| is_same_name(name, key))
}

// Returns whether the strings are equal. Short ones are compared byte by byte, which takes fewer
// steps than to compare them as words.
#[inline(always)]
fn is_same_name(a: &str, b: &str) -> bool
    ensures { result ≡ bytes_eq a.now b.now }
{
    if b.len() < 8 {
        a.as_bytes() == b.as_bytes()
    } else {
        a == b
    }
}
