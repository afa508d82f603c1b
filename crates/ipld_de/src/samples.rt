//! Custom types, written as a user of the crates would write them.
//!
//! Every type states its image. It writes the image by one call of the [`Serializer`], or by one of
//! its builders with the calls in the order of the image. The contract of [`Serialize::serialize`]
//! then proves that the image is written.
//!
//! A struct states its reading by the names of its fields, and reads them by [`read_struct`]. An
//! enum is read by the name of its variant. The law of a type is that a written value is read as
//! the same value. It is composed of the laws of the type's parts.

ghost use Rattle.std.specs.Prelude.{◌≡◌, [], ◌∷◌, Some, None, codes, string_bytes, ⊤, ℕ, List, Bool, true, false, IfOk, IfErr, refl, map};
ghost use Rattle.ipld_cid.specs.LinkOf.{link_of};
ghost use Rattle.ipld_ser.specs.Composites.{list_of, list_image, struct_image, ListError, StructError};
ghost use Rattle.ipld_ser.specs.Image.{NoError, RejectsAs};
ghost use Rattle.ipld_de.specs.Samples.{my_enum_image, my_pair_image, Variants, Pairs, my_enum_variant, my_enum_reading, MyEnumError, my_pair_reading, MyPairError, my_enum_round_trip, my_pair_round_trip, my_enum_faithful, my_pair_faithful};
ghost use Rattle.ipld_ser.specs.Scalars.{unsigned_image};
ghost use Rattle.ipld_ser.specs.declared.error.SerdeError.TheVariants as error;
ghost use Rattle.ipld_tree.specs.Tree.{boolean, text, link};
ghost use Rattle.ipld_cid.specs.Cid.{Link};
ghost use Rattle.ipld_de.specs.Composites.{list_reading, read_end, read_part, tuple_reading, ListReadError, PartError, LeftoverError, TupleReadError};
ghost use Rattle.ipld_de.specs.Cursors.{content_of};
ghost use Rattle.ipld_de.specs.Lemmas.FaithfulOf.{around_faithful, more_faithful, pair_faithful, regrouped, list_faithful, unsigned_faithful, boolean_faithful, bytes_faithful, link_faithful, only_faithful};
ghost use Rattle.ipld_de.specs.Fields.{field_named, and_fields, only_fields, struct_reading, part, StructReadError};
ghost use Rattle.ipld_de.specs.Lemmas.LawOf.{around_round_trip, plainly, all_plain, end_parts, first_part, tuple_round_trip, list_round_trip, unsigned_round_trip, boolean_round_trip, text_round_trip, link_round_trip, never_round_trip};
ghost use Rattle.ipld_de.specs.Enums.{EnumReadError};
ghost use Rattle.ipld_de.specs.Reading.{OtherKind, KindError};
ghost use Rattle.ipld_de.specs.Scalars.{unsigned_reading, NumberError};
ghost use Rattle.ipld_de.specs.Lemmas.StructLaw.{one_field, more_fields, struct_round_trip, strict_struct_round_trip};
ghost use Rattle.ipld_tree.specs.Convert.{boolean_in, text_in, link_in, list_in};

use crate::{
    Deserialize, Deserializer, Faithful, Field, ImageReader, Lawful, Unread, VariantDeserializer,
    from_ipld, read_strict_struct, read_struct, read_struct_image,
};
use ipld_cid::Cid;
use ipld_ser::{ImageWriter, SerdeError, Serialize, Serializer, Unwritten, write_fields};
use ipld_tree::Ipld;
use std::alloc::Global;

/// A struct of values of many kinds: a Map of its fields.
#[derive(Debug, PartialEq, Eq, Drop)]
pub struct Person {
    /// A string.
    pub name: String,
    /// A small integer.
    pub age: u8,
    /// A list of strings.
    pub hobbies: Vec<String>,
    /// A bool.
    pub is_cool: bool,
    /// A link to other content.
    pub link: Cid,
}

/// The fields are added in the order of the struct. The Map has them in the order of their names.
impl Serialize for Person {
    ghost image = { λ p. struct_image (
        (codes "name", Some (text (string_bytes p.name)))
        ∷ (codes "age", unsigned_image 8 p.age)
        ∷ (codes "hobbies", list_image (λ h. Some (text (string_bytes h))) p.hobbies.items)
        ∷ (codes "is_cool", Some (boolean p.is_cool))
        ∷ (codes "link", Some (link (link_of p.link))) ∷ []) };

    ghost write_error = { λ p. StructError (
        (Some (text (string_bytes p.name)), NoError p.name)
        ∷ (unsigned_image 8 p.age, NoError p.age)
        ∷ (list_image (λ h. Some (text (string_bytes h))) p.hobbies.items, ListError (λ h. Some (text (string_bytes h))) NoError p.hobbies.items)
        ∷ (Some (boolean p.is_cool), NoError p.is_cool)
        ∷ (Some (link (link_of p.link)), NoError p.link) ∷ []) };

    fn serialize(&self, alloc: Global, serializer: Serializer) -> Result<Ipld, SerdeError> {
        let mut map = serializer.serialize_struct(alloc, "Person", 5)?;
        map.serialize_field("name", &self.name)?;
        map.serialize_field("age", &self.age)?;
        map.serialize_field("hobbies", &self.hobbies)?;
        map.serialize_field("is_cool", &self.is_cool)?;
        map.serialize_field("link", &self.link)?;
        map.end()
    }

    fn write_image<W: ImageWriter>(&self, alloc: Global, writer: &mut W) -> Result<(), Unwritten> {
        let lists = (
            ("hobbies", &self.hobbies),
            (("is_cool", &self.is_cool), (("link", &self.link), ())),
        );
        write_fields(
            alloc,
            writer,
            &(("name", &self.name), (("age", &self.age), lists)),
        )
    }
}

/// A Map of the five fields. Other names are ignored.
impl Deserialize for Person {
    ghost Contents = { List ℕ × (ℕ × (List (List ℕ) × (Bool × Link))) };

    ghost contents = { λ p. (string_bytes p.name, (p.age, (map string_bytes p.hobbies.items, (p.is_cool, link_of p.link)))) };

    ghost reads = { struct_reading
        (and_fields (field_named (codes "name") text_in)
        (and_fields (field_named (codes "age") (unsigned_reading 8))
        (and_fields (field_named (codes "hobbies") (list_reading text_in))
        (and_fields (field_named (codes "is_cool") boolean_in)
        (field_named (codes "link") link_in))))) };

    ghost read_error = { StructReadError false
        (part text_in OtherKind ∷ part (unsigned_reading 8) NumberError ∷ part (list_reading text_in) (ListReadError text_in OtherKind) ∷ part boolean_in OtherKind ∷ part link_in OtherKind ∷ [])
        (codes "name" ∷ codes "age" ∷ codes "hobbies" ∷ codes "is_cool" ∷ codes "link" ∷ []) };

    fn deserialize(alloc: Global, value: Ipld) -> Result<Person, SerdeError> {
        let (name, (age, (hobbies, (is_cool, link)))) = read_struct::<PersonFields>(
            alloc,
            value,
            "Person",
            &["name", "age", "hobbies", "is_cool", "link"],
        )?;
        Ok(Person {
            name,
            age,
            hobbies,
            is_cool,
            link,
        })
    }

    fn read_image<R: ImageReader>(
        alloc: Global,
        reader: &mut R,
        levels: usize,
    ) -> Result<Person, Unread> {
        let (name, (age, (hobbies, (is_cool, link)))) = read_struct_image::<PersonFields, R>(
            alloc,
            reader,
            levels,
            &["name", "age", "hobbies", "is_cool", "link"],
        )?;
        Ok(Person {
            name,
            age,
            hobbies,
            is_cool,
            link,
        })
    }
}

type PersonFields = (
    Field<String>,
    (Field<u8>, (Field<Vec<String>>, (Field<bool>, Field<Cid>))),
);

impl Lawful for Person {
    ghost plain = { λ _. ⊤ };

    ghost round_trip = { plainly (λ _. ⊤) (λ p _. (tt, (tt, (all_plain p.hobbies.items, (tt, tt))))) (struct_round_trip
        (more_fields (codes "name") (λ (p : Self). p.name) (text_round_trip string_bytes)
        (more_fields (codes "age") (λ (p : Self). p.age) (unsigned_round_trip 8)
        (more_fields (codes "hobbies") (λ (p : Self). p.hobbies.items) (list_round_trip (text_round_trip string_bytes))
        (more_fields (codes "is_cool") (λ (p : Self). p.is_cool) boolean_round_trip
        (one_field (codes "link") (λ (p : Self). p.link) (link_round_trip link_of))))))
        (λ _. refl)) };
}

impl Faithful for Person {
    ghost equal_by_contents = { more_faithful (λ (p : Self). p.name) (bytes_faithful string_bytes)
        (more_faithful (λ (p : Self). p.age) unsigned_faithful
        (more_faithful (λ (p : Self). p.hobbies.items) (list_faithful (bytes_faithful string_bytes))
        (more_faithful (λ (p : Self). p.is_cool) boolean_faithful
        (around_faithful (λ (p : Self). p.link) (link_faithful link_of))))) };
}

/// A small struct: a Map of its two fields.
#[derive(Debug, PartialEq, Eq, Drop)]
pub struct MyStruct {
    /// A small integer.
    pub hello: u8,
    /// A bool.
    pub world: bool,
}

impl Serialize for MyStruct {
    ghost image = { λ s. struct_image (
        (codes "hello", unsigned_image 8 s.hello) ∷ (codes "world", Some (boolean s.world)) ∷ []) };

    ghost write_error = { NoError };

    fn serialize(&self, alloc: Global, serializer: Serializer) -> Result<Ipld, SerdeError> {
        let mut map = serializer.serialize_struct(alloc, "MyStruct", 2)?;
        map.serialize_field("hello", &self.hello)?;
        map.serialize_field("world", &self.world)?;
        map.end()
    }
}

/// A Map with an Integer under `hello` and a Bool under `world`. Other names are ignored.
impl Deserialize for MyStruct {
    ghost Contents = { ℕ × Bool };

    ghost contents = { λ s. (s.hello, s.world) };

    ghost reads = { struct_reading (and_fields (field_named (codes "hello") (unsigned_reading 8)) (field_named (codes "world") boolean_in)) };

    ghost read_error = { StructReadError false (part (unsigned_reading 8) NumberError ∷ part boolean_in OtherKind ∷ []) (codes "hello" ∷ codes "world" ∷ []) };

    fn deserialize(alloc: Global, value: Ipld) -> Result<MyStruct, SerdeError> {
        let (hello, world) = read_struct::<(Field<u8>, Field<bool>)>(
            alloc,
            value,
            "MyStruct",
            &["hello", "world"],
        )?;
        Ok(MyStruct { hello, world })
    }
}

impl Lawful for MyStruct {
    ghost plain = { λ _. ⊤ };

    ghost round_trip = { plainly (λ _. ⊤) (λ _ _. (tt, tt)) (struct_round_trip
        (more_fields (codes "hello") (λ (s : Self). s.hello) (unsigned_round_trip 8) (one_field (codes "world") (λ (s : Self). s.world) boolean_round_trip))
        (λ _. refl)) };
}

impl Faithful for MyStruct {
    ghost equal_by_contents = { around_faithful (λ (s : Self). (s.hello, s.world)) (pair_faithful unsigned_faithful boolean_faithful) };
}

/// A struct with the image of [`MyStruct`] that is read strictly: from a Map with only its fields.
#[derive(Debug, PartialEq, Eq, Drop)]
pub struct MyStrict {
    /// A small integer.
    pub hello: u8,
    /// A bool.
    pub world: bool,
}

impl Serialize for MyStrict {
    ghost image = { λ s. struct_image (
        (codes "hello", unsigned_image 8 s.hello) ∷ (codes "world", Some (boolean s.world)) ∷ []) };

    ghost write_error = { NoError };

    fn serialize(&self, alloc: Global, serializer: Serializer) -> Result<Ipld, SerdeError> {
        let mut map = serializer.serialize_struct(alloc, "MyStrict", 2)?;
        map.serialize_field("hello", &self.hello)?;
        map.serialize_field("world", &self.world)?;
        map.end()
    }
}

/// A Map with an Integer under `hello`, a Bool under `world` and nothing else.
impl Deserialize for MyStrict {
    ghost Contents = { ℕ × Bool };

    ghost contents = { λ s. (s.hello, s.world) };

    ghost reads = { struct_reading (only_fields (codes "hello" ∷ codes "world" ∷ []) (and_fields (field_named (codes "hello") (unsigned_reading 8)) (field_named (codes "world") boolean_in))) };

    ghost read_error = { StructReadError true (part (unsigned_reading 8) NumberError ∷ part boolean_in OtherKind ∷ []) (codes "hello" ∷ codes "world" ∷ []) };

    fn deserialize(alloc: Global, value: Ipld) -> Result<MyStrict, SerdeError> {
        let (hello, world) = read_strict_struct::<(Field<u8>, Field<bool>)>(
            alloc,
            value,
            "MyStrict",
            &["hello", "world"],
        )?;
        Ok(MyStrict { hello, world })
    }
}

impl Lawful for MyStrict {
    ghost plain = { λ _. ⊤ };

    ghost round_trip = { plainly (λ _. ⊤) (λ _ _. (tt, tt)) (strict_struct_round_trip (codes "hello" ∷ codes "world" ∷ [])
        (more_fields (codes "hello") (λ (s : Self). s.hello) (unsigned_round_trip 8) (one_field (codes "world") (λ (s : Self). s.world) boolean_round_trip))
        (λ _. refl) (λ _. refl)) };
}

impl Faithful for MyStrict {
    ghost equal_by_contents = { around_faithful (λ (s : Self). (s.hello, s.world)) (pair_faithful unsigned_faithful boolean_faithful) };
}

/// A struct over any type of values: a Map of its two fields, `item` before `label`.
#[derive(Debug, PartialEq, Eq, Drop)]
pub struct Tagged<T> {
    /// A string.
    pub label: String,
    /// A value of any type that can be written.
    pub item: T,
}

/// The image is stated for every `T`, by the image of the item.
impl<T: Serialize> Serialize for Tagged<T> {
    ghost image = { λ v. struct_image (
        (codes "label", Some (text (string_bytes v.label))) ∷ (codes "item", T.image v.item) ∷ []) };

    ghost write_error = { λ v. StructError ((Some (text (string_bytes v.label)), NoError v.label) ∷ (T.image v.item, T.write_error v.item) ∷ []) };

    fn serialize(&self, alloc: Global, serializer: Serializer) -> Result<Ipld, SerdeError> {
        let mut map = serializer.serialize_struct(alloc, "Tagged", 2)?;
        map.serialize_field("label", &self.label)?;
        map.serialize_field("item", &self.item)?;
        map.end()
    }

    fn write_image<W: ImageWriter>(&self, alloc: Global, writer: &mut W) -> Result<(), Unwritten> {
        write_fields(
            alloc,
            writer,
            &(("label", &self.label), (("item", &self.item), ())),
        )
    }
}

/// A Map with a String under `label` and the item under `item`. Other names are ignored.
impl<T: Deserialize> Deserialize for Tagged<T> {
    ghost Contents = { List ℕ × T.Contents };

    ghost contents = { λ v. (string_bytes v.label, T.contents v.item) };

    ghost reads = { struct_reading (and_fields (field_named (codes "label") text_in) (field_named (codes "item") T.reads)) };

    ghost read_error = { StructReadError false (part text_in OtherKind ∷ part T.reads T.read_error ∷ []) (codes "label" ∷ codes "item" ∷ []) };

    fn deserialize(alloc: Global, value: Ipld) -> Result<Tagged<T>, SerdeError> {
        let (label, item) = read_struct::<(Field<String>, Field<T>)>(
            alloc,
            value,
            "Tagged",
            &["label", "item"],
        )?;
        Ok(Tagged { label, item })
    }

    // [begin: discard]
    fn discard(self) {
        let Tagged { label: _, item } = self;
        item.discard();
    }
    // [end: discard]
}

/// Plain if the item is.
impl<T: Lawful> Lawful for Tagged<T> {
    ghost plain = { λ v. T.plain v.item };

    ghost round_trip = { plainly (λ (v : Self). T.plain v.item) (λ _ plain. (tt, plain)) (struct_round_trip
        (more_fields (codes "label") (λ (v : Self). v.label) (text_round_trip string_bytes) (one_field (codes "item") (λ (v : Self). v.item) T.round_trip))
        (λ _. refl)) };
}

impl<T: Faithful> Faithful for Tagged<T> {
    ghost equal_by_contents = { around_faithful (λ (v : Self). (v.label, v.item)) (pair_faithful (bytes_faithful string_bytes) T.equal_by_contents) };
}

/// A tuple struct: a List of its two fields, since they have no names.
#[derive(Debug, PartialEq, Eq, Drop)]
pub struct TupleStruct(pub u8, pub bool);

impl Serialize for TupleStruct {
    ghost image = { λ t. list_of (unsigned_image 8 t.0 ∷ Some (boolean t.1) ∷ []) };

    ghost write_error = { NoError };

    fn serialize(&self, alloc: Global, serializer: Serializer) -> Result<Ipld, SerdeError> {
        let mut list = serializer.serialize_tuple_struct(alloc, "TupleStruct", 2)?;
        list.serialize_field(&self.0)?;
        list.serialize_field(&self.1)?;
        list.end()
    }
}

/// A List of exactly an Integer and a Bool.
impl Deserialize for TupleStruct {
    ghost Contents = { ℕ × (Bool × Unit {0}) };

    ghost contents = { λ s. (s.0, (s.1, tt)) };

    ghost reads = { tuple_reading (read_part (unsigned_reading 8) (read_part boolean_in read_end)) };

    ghost read_error = { TupleReadError (PartError (unsigned_reading 8) NumberError (PartError boolean_in OtherKind LeftoverError)) };

    fn deserialize(alloc: Global, value: Ipld) -> Result<TupleStruct, SerdeError> {
        let (number, value) = from_ipld(alloc, value)?;
        Ok(TupleStruct(number, value))
    }
}

impl Lawful for TupleStruct {
    ghost plain = { λ _. ⊤ };

    ghost round_trip = { plainly (λ _. ⊤) (λ _ _. (tt, (tt, tt))) (tuple_round_trip (λ (s : Self). (s.0, (s.1, tt))) (first_part (unsigned_round_trip 8) (first_part boolean_round_trip end_parts))) };
}

impl Faithful for TupleStruct {
    ghost equal_by_contents = { regrouped (λ (c : ℕ × Bool). (c.0, (c.1, tt))) (λ (d : ℕ × (Bool × Unit {0})). (d.0, d.1.0)) (λ c. refl) (around_faithful (λ (s : Self). (s.0, s.1)) (pair_faithful unsigned_faithful boolean_faithful)) };
}

/// A struct without fields. The data model has nothing for it, so it does not have an image.
#[derive(Debug, PartialEq, Eq, Drop)]
pub struct UnitStruct;

impl Serialize for UnitStruct {
    ghost image = { λ _. None };

    ghost write_error = { λ _ e. e ≡ error.UnitStruct };

    fn serialize(&self, _alloc: Global, serializer: Serializer) -> Result<Ipld, SerdeError> {
        serializer.serialize_unit_struct("UnitStruct")
    }
}

/// Not read from any tree.
impl Deserialize for UnitStruct {
    ghost Contents = { Unit {0} };

    ghost contents = { λ _. tt };

    ghost reads = { λ _. None };

    ghost read_error = { λ _ e. e ≡ error.UnitStruct };

    fn deserialize(_alloc: Global, value: Ipld) -> Result<UnitStruct, SerdeError> {
        value.deserialize_unit_struct("UnitStruct")?;
        Ok(UnitStruct)
    }
}

impl Lawful for UnitStruct {
    ghost plain = { λ _. ⊤ };

    ghost round_trip = { never_round_trip };
}

impl Faithful for UnitStruct {
    ghost equal_by_contents = { only_faithful };
}

/// A newtype, written as only its content.
#[derive(Debug, PartialEq, Eq, Drop)]
pub struct Wrapped<T>(pub T);

/// The image is the image of the content, so it is stated for every `T`.
impl<T: Serialize> Serialize for Wrapped<T> {
    ghost image = { λ w. T.image w.0 };

    ghost write_error = { λ w. T.write_error w.0 };

    fn serialize(&self, alloc: Global, serializer: Serializer) -> Result<Ipld, SerdeError> {
        serializer.serialize_newtype_struct(alloc, "Wrapped", &self.0)
    }
}

/// Read as the content.
impl<T: Deserialize> Deserialize for Wrapped<T> {
    ghost Contents = { T.Contents };

    ghost contents = { λ w. T.contents w.0 };

    ghost reads = { T.reads };

    ghost read_error = { T.read_error };

    fn deserialize(alloc: Global, value: Ipld) -> Result<Wrapped<T>, SerdeError> {
        let content = value.deserialize_newtype_struct("Wrapped")?;
        Ok(Wrapped(T::deserialize(alloc, content)?))
    }

    fn discard(self) {
        let Wrapped(content) = self;
        content.discard();
    }
}

/// Plain if the content is.
impl<T: Lawful> Lawful for Wrapped<T> {
    ghost plain = { λ w. T.plain w.0 };

    ghost round_trip = { around_round_trip (λ (w : Self). w.0) T.round_trip };
}

impl<T: Faithful> Faithful for Wrapped<T> {
    ghost equal_by_contents = { around_faithful (λ (w : Self). w.0) T.equal_by_contents };
}

/// An enum with a variant of every form except the tuple: only the name, or a Map of the name to
/// the content.
#[derive(Debug, PartialEq, Eq, Drop)]
pub enum MyEnum {
    /// Without content: the String `One`.
    One,
    /// With one value: a Map of `Two` to the number.
    Two(u8),
    /// With named fields: a Map of `Three` to the Map of the fields.
    Three {
        /// A bool.
        value: bool,
    },
}

impl Serialize for MyEnum {
    ghost image = { my_enum_image };

    ghost write_error = { NoError };

    fn serialize(&self, alloc: Global, serializer: Serializer) -> Result<Ipld, SerdeError> {
        match self {
            MyEnum::One => serializer.serialize_unit_variant(alloc, "MyEnum", 0, "One"),
            MyEnum::Two(number) => {
                serializer.serialize_newtype_variant(alloc, "MyEnum", 1, "Two", number)
            }
            MyEnum::Three { value } => {
                let mut map = serializer.serialize_struct_variant(alloc, "MyEnum", 2, "Three", 1)?;
                map.serialize_field("value", value)?;
                map.end()
            }
        }
    }
}

/// Read from one of these trees:
///
/// - the String `One`, or a Map of `One` to Null
/// - a Map of `Two` to an Integer
/// - a Map of `Three` to a Map with a Bool under `value`
impl Deserialize for MyEnum {
    ghost Contents = { Variants };

    ghost contents = { λ v. v };

    ghost reads = { my_enum_reading };

    ghost read_error = { EnumReadError MyEnumError };

    fn deserialize(alloc: Global, value: Ipld) -> Result<MyEnum, SerdeError> {
        let (name, content) = value
            .deserialize_enum("MyEnum", &["One", "Two", "Three"])?
            .variant();
        read_variant(alloc, name.as_str(), content)
    }
}

// Reads the variant of this name from its content.
fn read_variant(
    alloc: Global,
    name: &str,
    content: VariantDeserializer,
) -> Result<MyEnum, SerdeError>
    ensures ok { IfOk result (λ v. my_enum_variant name.now (content_of content) ≡ Some v) }
    ensures err { IfErr result (λ e. RejectsAs (my_enum_variant name.now (content_of content))
        (MyEnumError name.now (content_of content)) e) }
{
    match name {
        "One" => {
            content.unit_variant()?;
            Ok(MyEnum::One)
        }
        "Two" => Ok(MyEnum::Two(content.newtype_variant(alloc)?)),
        "Three" => {
            let value = content.struct_fields::<Field<bool>>(alloc, &["value"])?;
            Ok(MyEnum::Three { value })
        }
        _ => Err(SerdeError::Custom("unknown variant")),
    }
}

impl Lawful for MyEnum {
    ghost plain = { λ _. ⊤ };

    ghost round_trip = { my_enum_round_trip };
}

impl Faithful for MyEnum {
    ghost equal_by_contents = { my_enum_faithful };
}

/// An enum with a tuple variant: a Map of the name to the List of the fields.
#[derive(Debug, PartialEq, Eq, Drop)]
pub enum MyPair {
    /// With two values: a Map of `Two` to the List of the two.
    Two(u8, bool),
}

impl Serialize for MyPair {
    ghost image = { my_pair_image };

    ghost write_error = { NoError };

    fn serialize(&self, alloc: Global, serializer: Serializer) -> Result<Ipld, SerdeError> {
        let MyPair::Two(number, value) = self;
        let mut pair = serializer.serialize_tuple_variant(alloc, "MyPair", 0, "Two", 2)?;
        pair.serialize_field(number)?;
        pair.serialize_field(value)?;
        pair.end()
    }
}

/// A Map of `Two` to the List of exactly an Integer and a Bool.
impl Deserialize for MyPair {
    ghost Contents = { Pairs };

    ghost contents = { λ v. v };

    ghost reads = { my_pair_reading };

    ghost read_error = { EnumReadError MyPairError };

    fn deserialize(alloc: Global, value: Ipld) -> Result<MyPair, SerdeError> {
        let (name, content) = value.deserialize_enum("MyPair", &["Two"])?.variant();
        match name.as_str() {
            "Two" => {
                let mut fields = content.tuple_variant(2)?;
                let Some(number) = fields.next_element(alloc)? else {
                    unreachable!();
                };
                let Some(value) = fields.next_element(alloc)? else {
                    unreachable!();
                };
                Ok(MyPair::Two(number, value))
            }
            _ => Err(SerdeError::Custom("unknown variant")),
        }
    }
}

impl Lawful for MyPair {
    ghost plain = { λ _. ⊤ };

    ghost round_trip = { my_pair_round_trip };
}

impl Faithful for MyPair {
    ghost equal_by_contents = { my_pair_faithful };
}
