//! Files and folders before they are read: names, types and sizes.

use crate::error::{PackError, PackErrorKind};
use crate::files::{self, Found};
use crate::options::{PackOptions, Top};
use crate::plan::FilePlan;
use ipld_cid::{Cid, DAG_PB, Multihash, RAW, Version};
use std::alloc::{AllocError, Global};
use unixfs_build::{Attributes, NewEntry, NodeBlock, SHARDED_ABOVE, build_folder, build_symlink};

// The code of SHA2-256 in the table of multicodecs.
const SHA2_256: u64 = 0x12;

// The most entries of a tree. There is no memory for as many.
pub(crate) const MOST_NODES: usize = 1 << 40;

// The most folders above an entry. A path of so many names is too long for any system.
pub(crate) const MOST_DEPTH: usize = 1 << 20;

// The entries of a folder, among those of the tree.
#[derive(Clone, Copy)]
pub(crate) struct Entries {
    pub(crate) first: usize,
    pub(crate) count: usize,
}

impl Entries {
    // Those of an empty folder, or of one that was not listed yet.
    pub(crate) const NONE: Entries = Entries { first: 0, count: 0 };
}

#[derive(Drop)]
pub(crate) enum NodeKind {
    // A file of this length.
    File(u64),
    Folder(Entries),
    // A symbolic link with this target.
    Link(String),
}

// A file, a folder or a link.
#[derive(Drop)]
pub(crate) struct Node {
    pub(crate) name: String,
    // The folder that it is in. The top of the tree is in itself.
    pub(crate) folder: usize,
    // Which of the tops it is, if it is one.
    pub(crate) top: Option<usize>,
    // The device and the number of a folder there.
    pub(crate) identity: (u64, u64),
    pub(crate) kind: NodeKind,
    pub(crate) attributes: Attributes,
    // The CID. Before it is known, a CID of its form.
    pub(crate) cid: Cid,
    // The number of bytes of its block, with all blocks below it.
    pub(crate) total: u64,
}

/// Files and folders that are to be packed: names, types and sizes.
#[derive(Drop)]
pub struct Tree<'a> {
    pub(crate) tops: &'a [Top<'a>],
    pub(crate) options: PackOptions<'a>,
    // Each folder stands before its entries, and these stand together, in the order of their names.
    pub(crate) nodes: Vec<Node>,
}

// Returns a CID of the form that the CID of a node, or of a raw leaf, has.
fn planned_cid(version: Version, is_raw: bool) -> Cid {
    let digest = [0; 32];
    let Ok(hash) = Multihash::wrap(SHA2_256, &digest) else {
        unreachable!()
    };
    if is_raw {
        return Cid::new_v1(RAW, hash);
    }
    match version {
        Version::V0 => match Cid::new_v0(hash) {
            Ok(cid) => cid,
            Err(_) => unreachable!(),
        },
        Version::V1 => Cid::new_v1(DAG_PB, hash),
    }
}

impl<'a> Tree<'a> {
    /// Looks at these files and folders, and at all that is in them. If there are several, or if
    /// `wrap` is true, they are the entries of a folder that has nothing else.
    ///
    /// It allocates for each file and folder. It reads no file.
    ///
    /// # Errors
    ///
    /// The first error that it finds, with the path.
    pub fn scan(
        rt: &HostRuntime,
        tops: &'a [Top<'a>],
        options: &PackOptions<'a>,
        wrap: bool,
    ) -> Result<Tree<'a>, PackError> {
        let mut tree = Tree {
            tops,
            options: *options,
            nodes: Vec::new(rt.alloc()),
        };
        tree.add_tops(rt, wrap)?;
        for index in 0..MOST_NODES {
            if index >= tree.nodes.len() {
                break;
            }
            tree.add_entries(rt, index)?;
        }
        tree.plan(rt.alloc())?;
        Ok(tree)
    }

    /// Returns a CID of the form that the root will have: the same version, codec and length.
    pub fn planned_root(&self) -> Cid {
        match self.nodes.first() {
            Some(top) => top.cid,
            None => planned_cid(self.options.layout.version, false),
        }
    }

    /// Returns whether a file or a folder that is packed is the one with this number on this
    /// device.
    pub fn contains(&self, device: u64, number: u64) -> bool {
        self.nodes
            .iter()
            .any(|node| node.identity == (device, number))
    }

    // Returns the length of the CID of a node.
    pub(crate) fn planned_node_len(&self) -> u64 {
        planned_cid(self.options.layout.version, false).encoded_len() as u64
    }

    // Adds a file, a folder or a link. The entries of a folder are still to be added.
    fn add(
        &mut self,
        alloc: Global,
        name: &str,
        folder: usize,
        top: Option<usize>,
        found: Found,
    ) -> Result<(), AllocError> {
        let node = Node {
            name: String::from_str(alloc, name)?,
            folder,
            top,
            identity: found.identity,
            kind: found.kind,
            attributes: found.attributes,
            cid: planned_cid(self.options.layout.version, false),
            total: 0,
        };
        match self.nodes.push(node) {
            Ok(()) => Ok(()),
            Err(_) => Err(AllocError),
        }
    }

    // Adds the tops, and the folder around them.
    fn add_tops(&mut self, rt: &HostRuntime, wrap: bool) -> Result<(), PackError> {
        let tops = self.tops;
        let wraps = wrap || tops.len() != 1;
        if wraps {
            let around = Found {
                identity: (0, 0),
                kind: NodeKind::Folder(Entries::NONE),
                attributes: Attributes::default(),
            };
            if self.add(rt.alloc(), "", 0, None, around).is_err() {
                return Err(PackError::memory(rt.alloc()));
            }
        }
        for (index, top) in tops.iter().enumerate() {
            let found = match files::look(rt, top, &self.options) {
                Ok(found) => found,
                Err(kind) => return Err(PackError::at(rt.alloc(), top.path, kind)),
            };
            if self
                .add(rt.alloc(), top.name, 0, Some(index), found)
                .is_err()
            {
                return Err(PackError::memory(rt.alloc()));
            }
        }
        if wraps {
            self.set_entries(0, 1);
            return self.check_names(rt.alloc());
        }
        Ok(())
    }

    // Fails if two tops have one name.
    fn check_names(&self, alloc: Global) -> Result<(), PackError> {
        let entries = self.nodes.get(1..).unwrap_or(&[]);
        for (index, (entry, next)) in entries.iter().zip(entries.iter().skip(1)).enumerate() {
            if entry.name == next.name {
                return Err(self.error_at(alloc, index + 2, PackErrorKind::SameName));
            }
        }
        Ok(())
    }

    // Has the folder with this index have all entries from `first` on, in the order of their names.
    fn set_entries(&mut self, folder: usize, first: usize) {
        let count = self.nodes.len().saturating_sub(first);
        if count > 0 {
            let entries = &mut self.nodes[first..];
            entries.sort_unstable_by(|a, b| a.name.as_bytes().cmp(b.name.as_bytes()));
        }
        if let Some(node) = self.nodes.get_mut(folder) {
            node.kind = NodeKind::Folder(Entries { first, count });
        }
    }

    // Returns whether a folder above this one, or it itself, is the folder that was found.
    fn is_in(&self, folder: usize, found: &Found) -> bool {
        let mut index = folder;
        for _ in 0..MOST_DEPTH {
            let Some(node) = self.nodes.get(index) else {
                return false;
            };
            if node.identity == found.identity {
                return true;
            }
            if node.folder == index {
                return false;
            }
            index = node.folder;
        }
        true
    }

    // Adds the entries of the folder with this index, if it is a folder that was found.
    fn add_entries(&mut self, rt: &HostRuntime, index: usize) -> Result<(), PackError> {
        let Some(node) = self.nodes.get(index) else {
            return Ok(());
        };
        let is_found = matches!(node.kind, NodeKind::Folder(_)) && node.identity != (0, 0);
        if !is_found {
            return Ok(());
        }
        let path = match self.path_of(rt.alloc(), index) {
            Ok(path) => path,
            Err(_) => return Err(PackError::memory(rt.alloc())),
        };
        let inside = match self.path_inside(rt.alloc(), index) {
            Ok(inside) => inside,
            Err(_) => return Err(PackError::memory(rt.alloc())),
        };
        let first = self.nodes.len();
        let entries = match files::entries_of(rt, &path, &inside, &self.options) {
            Ok(entries) => entries,
            Err(error) => return Err(error),
        };
        for (name, found) in entries {
            if matches!(found.kind, NodeKind::Folder(_)) && self.is_in(index, &found) {
                let path = files::joined(rt.alloc(), &path, &name);
                let path = path.unwrap_or(String::new(rt.alloc()));
                return Err(PackError::at(rt.alloc(), &path, PackErrorKind::Cycle));
            }
            if self.add(rt.alloc(), &name, index, None, found).is_err() {
                return Err(PackError::memory(rt.alloc()));
            }
        }
        self.set_entries(index, first);
        Ok(())
    }

    // Returns the index of the top that an entry is in, if it is in one.
    fn top_of(&self, index: usize) -> Option<usize> {
        let mut at = index;
        for _ in 0..MOST_DEPTH {
            let node = self.nodes.get(at)?;
            if node.top.is_some() || node.folder == at {
                return node.top;
            }
            at = node.folder;
        }
        None
    }

    // Returns the path of the entry with this index below its top.
    fn path_inside(&self, alloc: Global, index: usize) -> Result<String, AllocError> {
        let mut names = Vec::new(alloc);
        let mut at = index;
        for _ in 0..MOST_DEPTH {
            let Some(node) = self.nodes.get(at) else {
                break;
            };
            if node.top.is_some() || node.folder == at {
                break;
            }
            names.push(at)?;
            at = node.folder;
        }
        let mut path = String::new(alloc);
        for at in names.iter().rev() {
            if let Some(node) = self.nodes.get(*at) {
                path = files::joined(alloc, &path, &node.name)?;
            }
        }
        Ok(path)
    }

    // Returns the path of the entry with this index.
    pub(crate) fn path_of(&self, alloc: Global, index: usize) -> Result<String, AllocError> {
        let inside = self.path_inside(alloc, index)?;
        let Some(top) = self.top_of(index).and_then(|top| self.tops.get(top)) else {
            return Ok(inside);
        };
        if inside.is_empty() {
            return String::from_str(alloc, top.path);
        }
        files::joined(alloc, top.path, &inside)
    }

    // Returns an error of the entry with this index.
    pub(crate) fn error_at(&self, alloc: Global, index: usize, kind: PackErrorKind) -> PackError {
        match self.path_of(alloc, index) {
            Ok(path) => PackError { path, kind },
            Err(_) => PackError::memory(alloc),
        }
    }

    // Plans the blocks of everything. A folder comes after its entries.
    fn plan(&mut self, alloc: Global) -> Result<(), PackError> {
        for index in (0..self.nodes.len()).rev() {
            let planned = match self.planned(alloc, index) {
                Ok(planned) => planned,
                Err(kind) => return Err(self.error_at(alloc, index, kind)),
            };
            if let Some(node) = self.nodes.get_mut(index) {
                (node.cid, node.total) = planned;
            }
        }
        Ok(())
    }

    // Returns the form of the CID of an entry, and the number of bytes of its blocks.
    fn planned(&self, alloc: Global, index: usize) -> Result<(Cid, u64), PackErrorKind> {
        let version = self.options.layout.version;
        let Some(node) = self.nodes.get(index) else {
            return Ok((planned_cid(version, false), 0));
        };
        match &node.kind {
            NodeKind::File(len) => {
                let plan = self.plan_of(alloc, &node.attributes, *len)?;
                let root = plan.root();
                let is_raw = self.options.layout.raw_leaves
                    && plan.levels() == 1
                    && node.attributes == Attributes::default();
                Ok((planned_cid(version, is_raw), root.total))
            }
            NodeKind::Folder(entries) => {
                let blocks = self.folder_blocks(alloc, &node.attributes, *entries)?;
                match blocks.first() {
                    Some(root) => Ok((planned_cid(version, false), root.total)),
                    None => Err(PackErrorKind::Changed),
                }
            }
            NodeKind::Link(target) => {
                let block = build_symlink(alloc, version, &node.attributes, target)?;
                Ok((block.cid, block.total))
            }
        }
    }

    // Plans a file of this length.
    pub(crate) fn plan_of(
        &self,
        alloc: Global,
        attributes: &Attributes,
        len: u64,
    ) -> Result<FilePlan, AllocError> {
        let options = &self.options;
        FilePlan::new(alloc, &options.layout, attributes, options.chunk, len)
    }

    // Makes the blocks of a folder of the CIDs that its entries have. If these are only forms of
    // CIDs, the blocks have their lengths.
    pub(crate) fn folder_blocks(
        &self,
        alloc: Global,
        attributes: &Attributes,
        entries: Entries,
    ) -> Result<Vec<NodeBlock>, PackErrorKind> {
        let Entries { first, count } = entries;
        let nodes = self
            .nodes
            .get(first..first.saturating_add(count))
            .unwrap_or(&[]);
        let mut links = Vec::with_capacity(alloc, nodes.len())?;
        for node in nodes {
            let link = NewEntry {
                name: &node.name,
                cid: node.cid,
                total: node.total,
            };
            if links.push(link).is_err() {
                return Err(PackErrorKind::Memory);
            }
        }
        let version = self.options.layout.version;
        let blocks = build_folder(alloc, version, attributes, SHARDED_ABOVE, &links)?;
        Ok(blocks)
    }
}
