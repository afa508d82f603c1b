//! Types that contain CIDs and own no memory: structs, an enum and a newtype.

ghost use Rattle.std.specs.Prelude.{[], ◌∷◌, codes};
ghost use Rattle.ipld_de.specs.Described.{inl, inr, refl, structure, field, optional, around, enumeration, holds, has_fields, named, u32, i64, cid};

use ipld_cid::Cid;
use ipld_de::{
    Described, Deserialize, Deserializer, ImageReader, Lawful, Unread, deserialize_struct,
    deserialize_variant, from_ipld, read_struct_image, serialize_struct, serialize_variant,
    write_struct,
};
use ipld_ser::{ImageWriter, SerdeError, Serialize, Serializer, Unwritten};
use ipld_tree::Ipld;
use std::alloc::Global;

/// The first block of a site.
#[derive(Debug, Drop)]
pub struct Root(pub Cid);

impl Described for Root {
    ghost known = { around (λ r. r.0) cid };
}

impl Serialize for Root {
    ghost image = { ⟦<Root as Described>⟧.known.image };

    ghost write_error = { ⟦<Root as Described>⟧.known.write_error };

    fn serialize(&self, alloc: Global, serializer: Serializer) -> Result<Ipld, SerdeError> {
        self.0.serialize(alloc, serializer)
    }
}

impl Deserialize for Root {
    ghost Contents = { ⟦<Root as Described>⟧.known.Contents };

    ghost contents = { ⟦<Root as Described>⟧.known.contents };

    ghost reads = { ⟦<Root as Described>⟧.known.reads };

    ghost read_error = { ⟦<Root as Described>⟧.known.read_error };

    // [begin: newtype]
    fn deserialize(alloc: Global, value: Ipld) -> Result<Root, SerdeError> {
        match from_ipld(alloc, value) {
            Ok(block) => Ok(Root(block)),
            Err(error) => Err(error),
        }
    }
    // [end: newtype]
}

impl Lawful for Root {
    ghost plain = { ⟦<Root as Described>⟧.known.plain };

    ghost round_trip = { ⟦<Root as Described>⟧.known.law };
}

/// A post that links to something.
#[derive(Debug, Drop)]
pub struct Post {
    /// The block that it links to.
    pub link: Cid,
}

impl Described for Post {
    ghost known = { structure (field (codes "link") (λ p. p.link) cid ∷ []) (λ _. refl) };
}

impl Serialize for Post {
    ghost image = { ⟦<Post as Described>⟧.known.image };

    ghost write_error = { ⟦<Post as Described>⟧.known.write_error };

    fn serialize(&self, alloc: Global, serializer: Serializer) -> Result<Ipld, SerdeError> {
        serialize_struct!(alloc, serializer, self => Post { link })
    }
}

impl Deserialize for Post {
    ghost Contents = { ⟦<Post as Described>⟧.known.Contents };

    ghost contents = { ⟦<Post as Described>⟧.known.contents };

    ghost reads = { ⟦<Post as Described>⟧.known.reads };

    ghost read_error = { ⟦<Post as Described>⟧.known.read_error };

    fn deserialize(alloc: Global, value: Ipld) -> Result<Post, SerdeError> {
        deserialize_struct!(alloc, value => Post { link })
    }
}

impl Lawful for Post {
    ghost plain = { ⟦<Post as Described>⟧.known.plain };

    ghost round_trip = { ⟦<Post as Described>⟧.known.law };
}

/// A file that belongs to a post.
#[derive(Debug, Drop)]
pub struct Attachment {
    /// Its first block.
    pub file: Cid,
    /// Its length in bytes.
    pub size: i64,
}

// [begin: key]
impl Described for Attachment {
    ghost known = { structure (field (codes "ref") (λ a. a.file) cid
        ∷ field (codes "size") (λ a. a.size) i64 ∷ []) (λ _. refl) };
}

impl Serialize for Attachment {
    ghost image = { ⟦<Attachment as Described>⟧.known.image };

    ghost write_error = { ⟦<Attachment as Described>⟧.known.write_error };

    fn serialize(&self, alloc: Global, serializer: Serializer) -> Result<Ipld, SerdeError> {
        serialize_struct!(alloc, serializer, self => Attachment { file as "ref", size })
    }

    fn write_image<W: ImageWriter>(&self, alloc: Global, writer: &mut W) -> Result<(), Unwritten> {
        write_struct!(alloc, writer, self => Attachment { file as "ref", size })
    }
}
// [end: key]

impl Deserialize for Attachment {
    ghost Contents = { ⟦<Attachment as Described>⟧.known.Contents };

    ghost contents = { ⟦<Attachment as Described>⟧.known.contents };

    ghost reads = { ⟦<Attachment as Described>⟧.known.reads };

    ghost read_error = { ⟦<Attachment as Described>⟧.known.read_error };

    fn deserialize(alloc: Global, value: Ipld) -> Result<Attachment, SerdeError> {
        deserialize_struct!(alloc, value => Attachment { file as "ref", size })
    }

    fn read_image<R: ImageReader>(
        alloc: Global,
        reader: &mut R,
        levels: usize,
    ) -> Result<Attachment, Unread> {
        read_struct_image!(alloc, reader, levels => Attachment { file as "ref", size })
    }
}

impl Lawful for Attachment {
    ghost plain = { ⟦<Attachment as Described>⟧.known.plain };

    ghost round_trip = { ⟦<Attachment as Described>⟧.known.law };
}

/// A way from one block to another.
#[derive(Debug, Drop)]
pub struct Edge {
    /// The first block.
    pub from: Cid,
    /// The last block.
    pub to: Cid,
}

impl Described for Edge {
    ghost known = { structure (field (codes "from") (λ e. e.from) cid
        ∷ field (codes "to") (λ e. e.to) cid ∷ []) (λ _. refl) };
}

impl Serialize for Edge {
    ghost image = { ⟦<Edge as Described>⟧.known.image };

    ghost write_error = { ⟦<Edge as Described>⟧.known.write_error };

    fn serialize(&self, alloc: Global, serializer: Serializer) -> Result<Ipld, SerdeError> {
        serialize_struct!(alloc, serializer, self => Edge { from, to })
    }
}

impl Deserialize for Edge {
    ghost Contents = { ⟦<Edge as Described>⟧.known.Contents };

    ghost contents = { ⟦<Edge as Described>⟧.known.contents };

    ghost reads = { ⟦<Edge as Described>⟧.known.reads };

    ghost read_error = { ⟦<Edge as Described>⟧.known.read_error };

    fn deserialize(alloc: Global, value: Ipld) -> Result<Edge, SerdeError> {
        deserialize_struct!(alloc, value => Edge { from, to })
    }
}

impl Lawful for Edge {
    ghost plain = { ⟦<Edge as Described>⟧.known.plain };

    ghost round_trip = { ⟦<Edge as Described>⟧.known.law };
}

/// A version of a file.
#[derive(Debug, Drop)]
pub struct Version {
    /// The file as it is now.
    pub content: Cid,
    /// The number of versions up to it.
    pub number: u32,
    /// The version that it was made from.
    pub parent: Option<Cid>,
}

impl Described for Version {
    ghost known = { structure (field (codes "content") (λ v. v.content) cid
        ∷ field (codes "number") (λ v. v.number) u32
        ∷ optional (codes "parent") (λ v. v.parent) cid ∷ []) (λ _. refl) };
}

impl Serialize for Version {
    ghost image = { ⟦<Version as Described>⟧.known.image };

    ghost write_error = { ⟦<Version as Described>⟧.known.write_error };

    fn serialize(&self, alloc: Global, serializer: Serializer) -> Result<Ipld, SerdeError> {
        serialize_struct!(alloc, serializer, self => Version { content, number, parent })
    }
}

impl Deserialize for Version {
    ghost Contents = { ⟦<Version as Described>⟧.known.Contents };

    ghost contents = { ⟦<Version as Described>⟧.known.contents };

    ghost reads = { ⟦<Version as Described>⟧.known.reads };

    ghost read_error = { ⟦<Version as Described>⟧.known.read_error };

    fn deserialize(alloc: Global, value: Ipld) -> Result<Version, SerdeError> {
        deserialize_struct!(alloc, value => Version { content, number, parent: optional })
    }

    // [begin: discard]
    fn discard(self) {
        let _ = self;
    }
    // [end: discard]
}

impl Lawful for Version {
    ghost plain = { ⟦<Version as Described>⟧.known.plain };

    ghost round_trip = { ⟦<Version as Described>⟧.known.law };
}

/// A change of a file.
#[derive(Debug, Drop)]
pub enum Change {
    /// The file was created.
    Created(Cid),
    /// The file was moved to another directory.
    Moved {
        /// The directory that it was in.
        from: Cid,
        /// The directory that it is in.
        to: Cid,
    },
    /// The file has another length.
    Resized {
        /// Its first block.
        file: Cid,
        /// Its length in bytes.
        size: i64,
    },
}

impl Described for Change {
    ghost use Rattle.test_rows.specs.declared.own.linked.Change.TheVariants.{Created, Moved, Resized};

    ghost known = { enumeration (holds (codes "Created") cid
        ∷ has_fields (codes "Moved") (named (codes "from") cid ∷ named (codes "to") cid ∷ []) (λ _. refl)
        ∷ has_fields (codes "Resized") (named (codes "file") cid ∷ named (codes "size") i64 ∷ []) (λ _. refl) ∷ [])
        (elim [ Created c ↦ inl c | Moved f t ↦ inr (inl (f, t)) | Resized f s ↦ inr (inr (inl (f, s))) ]) refl };
}

impl Serialize for Change {
    ghost image = { ⟦<Change as Described>⟧.known.image };

    ghost write_error = { ⟦<Change as Described>⟧.known.write_error };

    fn serialize(&self, alloc: Global, serializer: Serializer) -> Result<Ipld, SerdeError> {
        match self {
            Change::Created(file) => {
                serializer.serialize_newtype_variant(alloc, "Change", 0, "Created", file)
            }
            Change::Moved { from, to } => {
                serialize_variant!(alloc, serializer => Moved { from, to })
            }
            Change::Resized { file, size } => {
                serialize_variant!(alloc, serializer => Resized { file, size })
            }
        }
    }
}

impl Deserialize for Change {
    ghost Contents = { ⟦<Change as Described>⟧.known.Contents };

    ghost contents = { ⟦<Change as Described>⟧.known.contents };

    ghost reads = { ⟦<Change as Described>⟧.known.reads };

    ghost read_error = { ⟦<Change as Described>⟧.known.read_error };

    // [begin: variants]
    fn deserialize(alloc: Global, value: Ipld) -> Result<Change, SerdeError> {
        let names = ["Created", "Moved", "Resized"];
        let (index, content) = value
            .deserialize_enum("Change", &names)?
            .variant_among(&names)?;
        match index {
            0 => match content.newtype_variant(alloc) {
                Ok(file) => Ok(Change::Created(file)),
                Err(error) => Err(error),
            },
            1 => deserialize_variant!(alloc, content => Change::Moved { from, to }),
            _ => deserialize_variant!(alloc, content => Change::Resized { file, size }),
        }
    }
    // [end: variants]
}

impl Lawful for Change {
    ghost plain = { ⟦<Change as Described>⟧.known.plain };

    ghost round_trip = { ⟦<Change as Described>⟧.known.law };
}
