//! A post of atproto (the lexicon `app.bsky.feed.post`): a struct.

ghost use Rattle.std.specs.Prelude.{[], ◌∷◌, codes};
ghost use Rattle.ipld_de.specs.Described.{refl, structure, field, optional, string, u64, vec, cid};

use ipld_core::cid::Cid;
use ipld_core::ipld::Ipld;
use ipld_de::{Described, Deserialize, ImageReader, Unread, deserialize_struct, read_struct_image};
use ipld_ser::SerdeError;
use std::alloc::Global;

/// A record of another repository: its address, and its CID as a text.
#[derive(Drop)]
pub struct Reference {
    pub cid: String,
    pub uri: String,
}

/// The posts that a post replies to.
#[derive(Drop)]
pub struct Reply {
    pub parent: Reference,
    pub root: Reference,
}

/// A range of bytes of the text.
#[derive(Drop)]
pub struct Slice {
    pub start: u64,
    pub end: u64,
}

/// The target of a facet.
#[derive(Drop)]
pub struct Feature {
    pub uri: String,
}

/// A part of the text that links to a target.
#[derive(Drop)]
pub struct Facet {
    pub index: Slice,
    pub features: Vec<Feature>,
}

/// A file that belongs to the post.
#[derive(Drop)]
pub struct Blob {
    pub link: Cid,
    pub mime_type: String,
    pub size: u64,
}

/// An image with its description.
#[derive(Drop)]
pub struct Image {
    pub alt: String,
    pub image: Blob,
}

/// The images of a post.
#[derive(Drop)]
pub struct Embed {
    pub images: Vec<Image>,
}

/// A post.
#[derive(Drop)]
pub struct Post {
    pub text: String,
    pub created_at: String,
    pub langs: Vec<String>,
    pub reply: Option<Reply>,
    pub facets: Option<Vec<Facet>>,
    pub embed: Option<Embed>,
}

impl Described for Reference {
    ghost known = { structure (field (codes "cid") (λ r. r.cid) string
        ∷ field (codes "uri") (λ r. r.uri) string ∷ []) (λ _. refl) };
}

impl Deserialize for Reference {
    ghost Contents = { ⟦<Reference as Described>⟧.known.Contents };

    ghost contents = { ⟦<Reference as Described>⟧.known.contents };

    ghost reads = { ⟦<Reference as Described>⟧.known.reads };

    ghost read_error = { ⟦<Reference as Described>⟧.known.read_error };

    fn deserialize(alloc: Global, value: Ipld) -> Result<Reference, SerdeError> {
        deserialize_struct!(alloc, value => Reference { cid, uri })
    }

    fn read_image<R: ImageReader>(
        alloc: Global,
        reader: &mut R,
        levels: usize,
    ) -> Result<Reference, Unread> {
        read_struct_image!(alloc, reader, levels => Reference { cid, uri })
    }
}

impl Described for Reply {
    ghost known = { structure (field (codes "parent") (λ r. r.parent) ⟦<Reference as Described>⟧.known
        ∷ field (codes "root") (λ r. r.root) ⟦<Reference as Described>⟧.known ∷ []) (λ _. refl) };
}

impl Deserialize for Reply {
    ghost Contents = { ⟦<Reply as Described>⟧.known.Contents };

    ghost contents = { ⟦<Reply as Described>⟧.known.contents };

    ghost reads = { ⟦<Reply as Described>⟧.known.reads };

    ghost read_error = { ⟦<Reply as Described>⟧.known.read_error };

    fn deserialize(alloc: Global, value: Ipld) -> Result<Reply, SerdeError> {
        deserialize_struct!(alloc, value => Reply { parent, root })
    }

    fn read_image<R: ImageReader>(
        alloc: Global,
        reader: &mut R,
        levels: usize,
    ) -> Result<Reply, Unread> {
        read_struct_image!(alloc, reader, levels => Reply { parent, root })
    }
}

impl Described for Slice {
    ghost known = { structure (field (codes "byteStart") (λ s. s.start) u64
        ∷ field (codes "byteEnd") (λ s. s.end) u64 ∷ []) (λ _. refl) };
}

impl Deserialize for Slice {
    ghost Contents = { ⟦<Slice as Described>⟧.known.Contents };

    ghost contents = { ⟦<Slice as Described>⟧.known.contents };

    ghost reads = { ⟦<Slice as Described>⟧.known.reads };

    ghost read_error = { ⟦<Slice as Described>⟧.known.read_error };

    fn deserialize(alloc: Global, value: Ipld) -> Result<Slice, SerdeError> {
        deserialize_struct!(alloc, value => Slice { start as "byteStart", end as "byteEnd" })
    }

    fn read_image<R: ImageReader>(
        alloc: Global,
        reader: &mut R,
        levels: usize,
    ) -> Result<Slice, Unread> {
        read_struct_image!(alloc, reader, levels => Slice { start as "byteStart", end as "byteEnd" })
    }
}

impl Described for Feature {
    ghost known = { structure (field (codes "uri") (λ f. f.uri) string ∷ []) (λ _. refl) };
}

impl Deserialize for Feature {
    ghost Contents = { ⟦<Feature as Described>⟧.known.Contents };

    ghost contents = { ⟦<Feature as Described>⟧.known.contents };

    ghost reads = { ⟦<Feature as Described>⟧.known.reads };

    ghost read_error = { ⟦<Feature as Described>⟧.known.read_error };

    fn deserialize(alloc: Global, value: Ipld) -> Result<Feature, SerdeError> {
        deserialize_struct!(alloc, value => Feature { uri })
    }

    fn read_image<R: ImageReader>(
        alloc: Global,
        reader: &mut R,
        levels: usize,
    ) -> Result<Feature, Unread> {
        read_struct_image!(alloc, reader, levels => Feature { uri })
    }
}

impl Described for Facet {
    ghost known = { structure (field (codes "index") (λ f. f.index) ⟦<Slice as Described>⟧.known
        ∷ field (codes "features") (λ f. f.features) (vec ⟦<Feature as Described>⟧.known) ∷ []) (λ _. refl) };
}

impl Deserialize for Facet {
    ghost Contents = { ⟦<Facet as Described>⟧.known.Contents };

    ghost contents = { ⟦<Facet as Described>⟧.known.contents };

    ghost reads = { ⟦<Facet as Described>⟧.known.reads };

    ghost read_error = { ⟦<Facet as Described>⟧.known.read_error };

    fn deserialize(alloc: Global, value: Ipld) -> Result<Facet, SerdeError> {
        deserialize_struct!(alloc, value => Facet { index, features })
    }

    fn read_image<R: ImageReader>(
        alloc: Global,
        reader: &mut R,
        levels: usize,
    ) -> Result<Facet, Unread> {
        read_struct_image!(alloc, reader, levels => Facet { index, features })
    }
}

impl Described for Blob {
    ghost known = { structure (field (codes "ref") (λ b. b.link) cid
        ∷ field (codes "mimeType") (λ b. b.mime_type) string
        ∷ field (codes "size") (λ b. b.size) u64 ∷ []) (λ _. refl) };
}

impl Deserialize for Blob {
    ghost Contents = { ⟦<Blob as Described>⟧.known.Contents };

    ghost contents = { ⟦<Blob as Described>⟧.known.contents };

    ghost reads = { ⟦<Blob as Described>⟧.known.reads };

    ghost read_error = { ⟦<Blob as Described>⟧.known.read_error };

    fn deserialize(alloc: Global, value: Ipld) -> Result<Blob, SerdeError> {
        deserialize_struct!(alloc, value => Blob { link as "ref", mime_type as "mimeType", size })
    }

    fn read_image<R: ImageReader>(
        alloc: Global,
        reader: &mut R,
        levels: usize,
    ) -> Result<Blob, Unread> {
        read_struct_image!(alloc, reader, levels => Blob { link as "ref", mime_type as "mimeType", size })
    }
}

impl Described for Image {
    ghost known = { structure (field (codes "alt") (λ i. i.alt) string
        ∷ field (codes "image") (λ i. i.image) ⟦<Blob as Described>⟧.known ∷ []) (λ _. refl) };
}

impl Deserialize for Image {
    ghost Contents = { ⟦<Image as Described>⟧.known.Contents };

    ghost contents = { ⟦<Image as Described>⟧.known.contents };

    ghost reads = { ⟦<Image as Described>⟧.known.reads };

    ghost read_error = { ⟦<Image as Described>⟧.known.read_error };

    fn deserialize(alloc: Global, value: Ipld) -> Result<Image, SerdeError> {
        deserialize_struct!(alloc, value => Image { alt, image })
    }

    fn read_image<R: ImageReader>(
        alloc: Global,
        reader: &mut R,
        levels: usize,
    ) -> Result<Image, Unread> {
        read_struct_image!(alloc, reader, levels => Image { alt, image })
    }
}

impl Described for Embed {
    ghost known = { structure (field (codes "images") (λ e. e.images) (vec ⟦<Image as Described>⟧.known) ∷ []) (λ _. refl) };
}

impl Deserialize for Embed {
    ghost Contents = { ⟦<Embed as Described>⟧.known.Contents };

    ghost contents = { ⟦<Embed as Described>⟧.known.contents };

    ghost reads = { ⟦<Embed as Described>⟧.known.reads };

    ghost read_error = { ⟦<Embed as Described>⟧.known.read_error };

    fn deserialize(alloc: Global, value: Ipld) -> Result<Embed, SerdeError> {
        deserialize_struct!(alloc, value => Embed { images })
    }

    fn read_image<R: ImageReader>(
        alloc: Global,
        reader: &mut R,
        levels: usize,
    ) -> Result<Embed, Unread> {
        read_struct_image!(alloc, reader, levels => Embed { images })
    }
}

impl Described for Post {
    ghost known = { structure (field (codes "text") (λ p. p.text) string
        ∷ field (codes "createdAt") (λ p. p.created_at) string
        ∷ field (codes "langs") (λ p. p.langs) (vec string)
        ∷ optional (codes "reply") (λ p. p.reply) ⟦<Reply as Described>⟧.known
        ∷ optional (codes "facets") (λ p. p.facets) (vec ⟦<Facet as Described>⟧.known)
        ∷ optional (codes "embed") (λ p. p.embed) ⟦<Embed as Described>⟧.known ∷ []) (λ _. refl) };
}

impl Deserialize for Post {
    ghost Contents = { ⟦<Post as Described>⟧.known.Contents };

    ghost contents = { ⟦<Post as Described>⟧.known.contents };

    ghost reads = { ⟦<Post as Described>⟧.known.reads };

    ghost read_error = { ⟦<Post as Described>⟧.known.read_error };

    fn deserialize(alloc: Global, value: Ipld) -> Result<Post, SerdeError> {
        deserialize_struct!(alloc, value => Post { text, created_at as "createdAt", langs, reply: optional, facets: optional, embed: optional })
    }

    fn read_image<R: ImageReader>(
        alloc: Global,
        reader: &mut R,
        levels: usize,
    ) -> Result<Post, Unread> {
        read_struct_image!(alloc, reader, levels => Post { text, created_at as "createdAt", langs, reply: optional, facets: optional, embed: optional })
    }
}
