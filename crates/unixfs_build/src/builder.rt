//! Files whose chunks come one after another.

ghost use Rattle.std.specs.Prelude.{◌≡◌, ◌⊎◌, ◌+◌, ◌≤◌, ◌<◌, ◌++◌, ◌∷◌, [], ℕ, List, length, map, take, drop, IfOk, IfErr, OnOk, OnErr, Err, MatchResult};
ghost use Rattle.unixfs_build.specs.Blocks.{Built, leaf_of, no_attributes};
ghost use Rattle.unixfs_build.specs.Building.{HasChunks, Pushes, PushFault, Stays, pushed_blocks, finished_blocks, FinishFault};
ghost use Rattle.unixfs_build.specs.Levels.{added, new_nodes, last_nodes, AddFault, LastFault, Wait};
ghost use Rattle.unixfs_build.specs.Roots.{EndsInFile, EndsInRoot};
ghost use Rattle.unixfs_build.specs.Views.{built, block_of};

use crate::block::{BuiltPart, FileBlock};
use crate::error::BuildError;
use crate::layout::{Attributes, Layout};
use crate::level::Level;
use crate::node::{make_leaf, make_parent};
use std::alloc::Global;

// Appends a block.
fn append(blocks: &mut Vec<FileBlock>, block: FileBlock) -> Result<(), BuildError>
    ensures appended { OnOk result (map block_of blocks.new.items
        ≡ map block_of blocks.old.items ++ block_of block ∷ []) }
    ensures fault { IfErr result (λ error. error ≡ BuildError.Memory) }
{
    blocks.push(block)?;
    Ok(())
}

// Adds a level with one part.
fn add_level(alloc: Global, levels: &mut Vec<Level>, part: &BuiltPart) -> Result<(), BuildError>
    ensures added { OnOk result (levels.new.items
        ≡ levels.old.items ++ (built part.now ∷ []) ∷ []) }
    ensures fault { IfErr result (λ error. error ≡ BuildError.Memory) }
    ensures stays { OnErr result (levels.new.items ≡ levels.old.items) }
{
    let level = Level::of(alloc, part)?;
    levels.push(level)?;
    Ok(())
}

// Adds a part to the level of this index, and appends the nodes of the levels that are then full.
#[cycle(add_part)]
fn add_part(
    alloc: Global,
    layout: &Layout,
    levels: &mut Vec<Level>,
    index: usize,
    part: &BuiltPart,
    blocks: &mut Vec<FileBlock>,
) -> Result<(), BuildError>
    requires { index ≤ length levels.old.items }
    ensures added { OnOk result (drop index levels.new.items
        ≡ added layout.now (drop index levels.old.items) (built part.now)) }
    ensures below { OnOk result (take index levels.new.items ≡ take index levels.old.items) }
    ensures nodes { OnOk result (map block_of blocks.new.items ≡ map block_of blocks.old.items
        ++ new_nodes layout.now (drop index levels.old.items) (built part.now)) }
    ensures wait { (parts : List Built) → 1 < layout.now.width
        → Wait layout.now (drop index levels.old.items) parts
        → OnOk result (Wait layout.now (drop index levels.new.items) (parts ++ built part.now ∷ [])) }
    ensures fault { IfErr result
        (AddFault layout.now (drop index levels.old.items) (built part.now)) }
    ensures stays { OnErr result (levels.new.items ≡ levels.old.items) }
{
    let Some(low) = levels.get(index) else {
        return add_level(alloc, levels, part);
    };
    if low.parts().len() + 1 < layout.width {
        return match levels[index].push(part) {
            Ok(()) => Ok(()),
            Err(_) => Err(BuildError::Memory),
        };
    }
    let node = match make_parent(alloc, layout.version, &Attributes::NONE, low.parts(), part) {
        Ok(node) => node,
        Err(error) => return Err(error),
    };
    let upper = node.part();
    if let Err(error) = append(blocks, node) {
        return Err(error);
    }
    if let Err(error) = add_part(alloc, layout, levels, index + 1, &upper, blocks) {
        return Err(error);
    }
    levels[index].clear();
    Ok(())
}

// Adds the last part to the lowest of these levels, and appends the nodes over all parts. The last of
// them is the root.
#[cycle(finish_levels)]
fn finish_levels(
    alloc: Global,
    layout: &Layout,
    attributes: &Attributes,
    levels: &[Level],
    part: &BuiltPart,
    blocks: &mut Vec<FileBlock>,
) -> Result<(), BuildError>
    ensures nodes { OnOk result (map block_of blocks.new.items ≡ map block_of blocks.old.items
        ++ last_nodes layout.now attributes.now levels.now (built part.now)) }
    ensures root { (parts : List Built) → 0 < length levels.now → Wait layout.now levels.now parts
        → OnOk result (EndsInRoot layout.now attributes.now (parts ++ built part.now ∷ [])
        (map block_of blocks.new.items)) }
    ensures fault { IfErr result
        (LastFault layout.now attributes.now levels.now (built part.now)) }
{
    let Some((low, above)) = levels.split_first() else {
        return Ok(());
    };
    if above.is_empty() {
        return match make_parent(alloc, layout.version, attributes, low.parts(), part) {
            Ok(root) => append(blocks, root),
            Err(error) => Err(error),
        };
    }
    let node = match make_parent(alloc, layout.version, &Attributes::NONE, low.parts(), part) {
        Ok(node) => node,
        Err(error) => return Err(error),
    };
    let upper = node.part();
    if let Err(error) = append(blocks, node) {
        return Err(error);
    }
    finish_levels(alloc, layout, attributes, above, &upper, blocks)
}

/// A file that is packed chunk by chunk.
///
/// A chunk goes into a leaf. A full group of leaves gets a node, and so does a full group of nodes
/// (the balanced layout of `ipfs add`). The CIDs have SHA2-256 digests. The chunks may have any
/// lengths: `ipfs add` cuts a file into chunks of 262,144 bytes, and the last may have fewer. The
/// builder holds no bytes of the file. For each level of the tree it holds fewer CIDs than a node
/// has links.
#[derive(Drop)]
pub struct FileBuilder {
    pub(crate) layout: Layout,
    // The parts that wait for a node, from the leaves up.
    pub(crate) levels: Vec<Level>,
}

impl FileBuilder {
    /// Creates a builder without chunks. Does not allocate.
    ///
    /// # Errors
    ///
    /// `Width` if the layout has fewer than 2 links in a node.
    pub fn new(alloc: Global, layout: &Layout) -> Result<FileBuilder, BuildError>
        ensures empty { IfOk result (λ builder. (builder.layout ≡ layout.now) × HasChunks [] builder) }
        ensures exact { MatchResult result (λ _. 1 < layout.now.width)
            (λ error. (error ≡ BuildError.Width) × (layout.now.width ≤ 1)) }
    {
        if layout.width < 2 {
            return Err(BuildError::Width);
        }
        Ok(FileBuilder {
            layout: *layout,
            levels: Vec::new(alloc),
        })
    }

    /// Adds a chunk that isn't the last of the file. Returns the blocks that are then complete: the
    /// leaf of the chunk first, and each node after the blocks to which it has links.
    ///
    /// It allocates for each block and its links.
    ///
    /// # Errors
    ///
    /// - `TooLarge` if the bytes of the file or of all its blocks are 2^64 or more.
    /// - `Memory` if an allocation fails.
    ///
    /// The builder is then as it was.
    pub fn push(&mut self, alloc: Global, chunk: &[u8]) -> Result<Vec<FileBlock>, BuildError>
        ensures blocks { IfOk result (λ blocks. map block_of blocks.items
            ≡ pushed_blocks self.old chunk.now) }
        ensures pushes { OnOk result (Pushes self.old self.new chunk.now) }
        ensures chunks { (chunks : List (List ℕ)) → HasChunks chunks self.old
            → OnOk result (HasChunks (chunks ++ chunk.now ∷ []) self.new) }
        ensures fault { IfErr result (PushFault self.old chunk.now) }
        ensures stays { OnErr result (Stays self.old self.new) }
    {
        let leaf = make_leaf(alloc, &self.layout, &Attributes::NONE, chunk)?;
        let part = leaf.part();
        let mut blocks = Vec::new(alloc);
        append(&mut blocks, leaf)?;
        add_part(alloc, &self.layout, &mut self.levels, 0, &part, &mut blocks)?;
        Ok(blocks)
    }

    /// Adds the last chunk of the file, which may be empty. Returns the blocks that are then complete,
    /// each node after the blocks to which it has links. The last of them is the root.
    ///
    /// It allocates for each block and its links.
    ///
    /// # Errors
    ///
    /// - `TooLarge` if the bytes of the file or of all its blocks are 2^64 or more.
    /// - `Nanoseconds` if the time has more than 999,999,999 nanoseconds.
    /// - `Memory` if an allocation fails.
    pub fn finish(
        self,
        alloc: Global,
        chunk: &[u8],
        attributes: &Attributes,
    ) -> Result<Vec<FileBlock>, BuildError>
        ensures blocks { IfOk result (λ blocks. map block_of blocks.items
            ≡ finished_blocks self attributes.now chunk.now) }
        ensures root { (chunks : List (List ℕ)) → HasChunks chunks self
            → IfOk result (λ blocks. EndsInFile self.layout attributes.now
            (chunks ++ chunk.now ∷ []) (map block_of blocks.items)) }
        ensures fault { IfErr result (FinishFault self attributes.now chunk.now) }
    {
        let mut blocks = Vec::new(alloc);
        if self.levels.is_empty() {
            let root = match make_leaf(alloc, &self.layout, attributes, chunk) {
                Ok(root) => root,
                Err(error) => return Err(error),
            };
            append(&mut blocks, root)?;
            return Ok(blocks);
        }
        let leaf = make_leaf(alloc, &self.layout, &Attributes::NONE, chunk)?;
        let part = leaf.part();
        append(&mut blocks, leaf)?;
        finish_levels(
            alloc,
            &self.layout,
            attributes,
            &self.levels,
            &part,
            &mut blocks,
        )?;
        Ok(blocks)
    }
}
