//! The walk over a tree that reads each file, and hands on its blocks.

use crate::error::{PackError, PackErrorKind};
use crate::files::read_full_at;
use crate::plan::FilePlan;
use crate::sink::{BlockSink, Room};
use crate::tree::{Entries, MOST_NODES, NodeKind, Tree};
use ipld_cid::Cid;
use std::alloc::Global;
use std::fs::{self, File};
use unixfs_build::{Attributes, FileBlock, FileBuilder, build_symlink};
use unixfs_folders::FolderWalk;

// What comes next in a folder.
#[derive(Clone, Copy)]
enum Step {
    // A block of the folder, of this length.
    Block(u64),
    // The entry with this index.
    Entry(usize),
}

// A folder whose entries are being packed.
#[derive(Drop)]
struct OpenFolder {
    index: usize,
    // What is still to be done, the next at the end.
    steps: Vec<Step>,
    // The room for its blocks, in their order.
    rooms: Vec<Room>,
}

// The state of the walk.
#[derive(Drop)]
struct Packing {
    // The bytes of a chunk.
    chunk: Vec<u8>,
    folders: Vec<OpenFolder>,
}

// Leaves room for the nodes of a file that begin with this chunk. The node of a level is at its
// index in `rooms`.
fn leave_rooms<S: BlockSink>(
    sink: &mut S,
    plan: &FilePlan,
    chunk: u64,
    rooms: &mut [Room],
) -> Result<(), PackErrorKind> {
    for level in (1..plan.levels()).rev() {
        let Some(node) = plan.node_at(level, chunk) else {
            continue;
        };
        let Some(room) = rooms.get_mut(level) else {
            continue;
        };
        match sink.leave_room(node.cid_len, node.block_len) {
            Ok(left) => *room = left,
            Err(error) => return Err(PackErrorKind::of_writing(error)),
        }
    }
    Ok(())
}

// Hands on a leaf, and the nodes above it that are complete.
fn hand_on<S: BlockSink>(
    sink: &mut S,
    blocks: &[FileBlock],
    rooms: &[Room],
) -> Result<(), PackErrorKind> {
    for (level, block) in blocks.iter().enumerate() {
        let handed = match rooms.get(level) {
            Some(room) if level > 0 => sink.fill_room(room, &block.cid, &block.data),
            _ => sink.put(&block.cid, &block.data),
        };
        match handed {
            Ok(()) => {}
            Err(error) => return Err(PackErrorKind::of_writing(error)),
        }
    }
    Ok(())
}

// Reads the chunk with this index, which replaces the contents of `chunk`.
fn read_chunk(
    file: &File,
    plan: &FilePlan,
    index: u64,
    chunk: &mut Vec<u8>,
) -> Result<(), PackErrorKind> {
    let len = plan.chunk_len(index) as usize;
    chunk.resize(len, 0)?;
    match read_full_at(file, chunk, plan.offset_of(index)) {
        Ok(count) if count == len => Ok(()),
        Ok(_) => Err(PackErrorKind::Changed),
        Err(error) => Err(PackErrorKind::of_reading(error)),
    }
}

// Fails if the file has another length.
fn check_len(file: &File, len: u64) -> Result<(), PackErrorKind> {
    match file.metadata() {
        Ok(metadata) if metadata.is_file() && metadata.len() == len => {}
        Ok(_) => return Err(PackErrorKind::Changed),
        Err(error) => return Err(PackErrorKind::of_reading(error)),
    }
    let mut more = [0];
    match read_full_at(file, &mut more, len) {
        Ok(0) => Ok(()),
        Ok(_) => Err(PackErrorKind::Changed),
        Err(error) => Err(PackErrorKind::of_reading(error)),
    }
}

impl<'a> Tree<'a> {
    /// Reads each file, passes the blocks of everything to the sink, and returns the root. A node
    /// comes, or gets its room, before the blocks below it. So a reader that walks from the root
    /// can read them from a pipe.
    ///
    /// It allocates for one chunk, and for the entries of each open folder that aren't packed yet.
    /// It keeps the CID of each entry.
    ///
    /// # Errors
    ///
    /// The first error, with the path. The sink then has only some of the blocks.
    pub fn pack<S: BlockSink>(&mut self, rt: &HostRuntime, sink: &mut S) -> Result<Cid, PackError> {
        let mut packing = Packing {
            chunk: Vec::new(rt.alloc()),
            folders: Vec::new(rt.alloc()),
        };
        self.pack_entry(rt, sink, &mut packing, 0)?;
        for _ in 0..MOST_NODES {
            if !self.step(rt, sink, &mut packing)? {
                break;
            }
        }
        Ok(self.planned_root())
    }

    // Does what comes next. Returns false if all is done.
    fn step<S: BlockSink>(
        &mut self,
        rt: &HostRuntime,
        sink: &mut S,
        packing: &mut Packing,
    ) -> Result<bool, PackError> {
        let Some(folder) = packing.folders.last_mut() else {
            return Ok(false);
        };
        match folder.steps.pop() {
            Some(Step::Block(len)) => {
                let index = folder.index;
                let cid_len = self.planned_node_len();
                let room = match sink.leave_room(cid_len, len) {
                    Ok(room) => room,
                    Err(error) => {
                        let kind = PackErrorKind::of_writing(error);
                        return Err(self.error_at(rt.alloc(), index, kind));
                    }
                };
                if folder.rooms.push(room).is_err() {
                    return Err(PackError::memory(rt.alloc()));
                }
            }
            Some(Step::Entry(index)) => self.pack_entry(rt, sink, packing, index)?,
            None => self.close_folder(rt, sink, packing)?,
        }
        Ok(true)
    }

    // Packs a file or a link, or begins with a folder.
    fn pack_entry<S: BlockSink>(
        &mut self,
        rt: &HostRuntime,
        sink: &mut S,
        packing: &mut Packing,
        index: usize,
    ) -> Result<(), PackError> {
        let alloc = rt.alloc();
        let Some(node) = self.nodes.get(index) else {
            return Ok(());
        };
        let packed = match &node.kind {
            NodeKind::File(len) => {
                let len = *len;
                self.pack_file(rt, sink, &mut packing.chunk, index, len)
            }
            NodeKind::Link(target) => self.pack_link(alloc, sink, &node.attributes, target),
            NodeKind::Folder(entries) => {
                let entries = *entries;
                return match self.open_folder(alloc, packing, index, entries) {
                    Ok(()) => Ok(()),
                    Err(kind) => Err(self.error_at(alloc, index, kind)),
                };
            }
        };
        match packed {
            Ok((cid, total)) => self.set_packed(alloc, index, cid, total),
            Err(kind) => Err(self.error_at(alloc, index, kind)),
        }
    }

    // Keeps the CID of an entry that is packed.
    fn set_packed(
        &mut self,
        alloc: Global,
        index: usize,
        cid: Cid,
        total: u64,
    ) -> Result<(), PackError> {
        match self.nodes.get_mut(index) {
            Some(node) if node.total == total => {
                node.cid = cid;
                Ok(())
            }
            _ => Err(self.error_at(alloc, index, PackErrorKind::Changed)),
        }
    }

    // Packs a symbolic link.
    fn pack_link<S: BlockSink>(
        &self,
        alloc: Global,
        sink: &mut S,
        attributes: &Attributes,
        target: &str,
    ) -> Result<(Cid, u64), PackErrorKind> {
        let block = build_symlink(alloc, self.options.layout.version, attributes, target)?;
        match sink.put(&block.cid, &block.data) {
            Ok(()) => Ok((block.cid, block.total)),
            Err(error) => Err(PackErrorKind::of_writing(error)),
        }
    }

    // Packs the file of this length.
    fn pack_file<S: BlockSink>(
        &self,
        rt: &HostRuntime,
        sink: &mut S,
        chunk: &mut Vec<u8>,
        index: usize,
        len: u64,
    ) -> Result<(Cid, u64), PackErrorKind> {
        if let Some(file) = self.open_top(index) {
            return self.pack_open_file(rt.alloc(), sink, chunk, index, len, file);
        }
        let path = self.path_of(rt.alloc(), index)?;
        match fs::open(rt, &path) {
            Ok(file) => self.pack_open_file(rt.alloc(), sink, chunk, index, len, &file),
            Err(error) => Err(PackErrorKind::of_reading(error)),
        }
    }

    // Returns the open file of an entry, if it has one.
    fn open_top(&self, index: usize) -> Option<&'a File> {
        let top = self.nodes.get(index)?.top?;
        self.tops.get(top)?.file
    }

    // Packs an open file of this length.
    fn pack_open_file<S: BlockSink>(
        &self,
        alloc: Global,
        sink: &mut S,
        chunk: &mut Vec<u8>,
        index: usize,
        len: u64,
        file: &File,
    ) -> Result<(Cid, u64), PackErrorKind> {
        check_len(file, len)?;
        let attributes = match self.nodes.get(index) {
            Some(node) => node.attributes,
            None => Attributes::default(),
        };
        let plan = self.plan_of(alloc, &attributes, len)?;
        let mut rooms = Vec::with_capacity(alloc, plan.levels())?;
        for _ in 0..plan.levels() {
            rooms.push(Room { offset: 0, len: 0 })?;
        }
        let mut builder = FileBuilder::new(alloc, &self.options.layout)?;
        let last = plan.chunks().saturating_sub(1);
        for at in 0..last {
            leave_rooms(sink, &plan, at, &mut rooms)?;
            read_chunk(file, &plan, at, chunk)?;
            let blocks = builder.push(alloc, chunk)?;
            hand_on(sink, &blocks, &rooms)?;
        }
        leave_rooms(sink, &plan, last, &mut rooms)?;
        read_chunk(file, &plan, last, chunk)?;
        let blocks = builder.finish(alloc, chunk, &attributes)?;
        hand_on(sink, &blocks, &rooms)?;
        check_len(file, len)?;
        match blocks.last() {
            Some(root) => Ok((root.cid, root.total)),
            None => Err(PackErrorKind::Changed),
        }
    }

    // Begins with a folder: what comes next in it follows from blocks that have the lengths, the
    // names and the order of its own.
    fn open_folder(
        &self,
        alloc: Global,
        packing: &mut Packing,
        index: usize,
        entries: Entries,
    ) -> Result<(), PackErrorKind> {
        let attributes = match self.nodes.get(index) {
            Some(node) => node.attributes,
            None => Attributes::default(),
        };
        let blocks = self.folder_blocks(alloc, &attributes, entries)?;
        let Some(root) = blocks.first() else {
            return Err(PackErrorKind::Changed);
        };
        let mut walk = FolderWalk::new(alloc, &root.cid);
        let mut steps = Vec::new(alloc);
        for block in blocks.iter() {
            steps.push(Step::Block(block.data.len() as u64))?;
            let Ok(found) = walk.take(alloc, &block.data) else {
                return Err(PackErrorKind::Changed);
            };
            for entry in found.iter() {
                if let Some(entry) = self.entry_named(entries, entry.name) {
                    steps.push(Step::Entry(entry))?;
                }
            }
        }
        steps.reverse();
        let folder = OpenFolder {
            index,
            steps,
            rooms: Vec::new(alloc),
        };
        match packing.folders.push(folder) {
            Ok(()) => Ok(()),
            Err(_) => Err(PackErrorKind::Memory),
        }
    }

    // Returns the index of the entry with this name.
    fn entry_named(&self, entries: Entries, name: &str) -> Option<usize> {
        let Entries { first, count } = entries;
        let nodes = self.nodes.get(first..first.saturating_add(count))?;
        match nodes.binary_search_by(|node| node.name.as_bytes().cmp(name.as_bytes())) {
            Ok(at) => Some(first.saturating_add(at)),
            Err(_) => None,
        }
    }

    // Ends with the innermost folder: its blocks go into their rooms, the last one first, so that
    // those that were there already give back their room.
    fn close_folder<S: BlockSink>(
        &mut self,
        rt: &HostRuntime,
        sink: &mut S,
        packing: &mut Packing,
    ) -> Result<(), PackError> {
        let alloc = rt.alloc();
        let Some(folder) = packing.folders.pop() else {
            return Ok(());
        };
        match self.filled(alloc, sink, &folder) {
            Ok((cid, total)) => self.set_packed(alloc, folder.index, cid, total),
            Err(kind) => Err(self.error_at(alloc, folder.index, kind)),
        }
    }

    // Fills the rooms of a folder, and returns its root.
    fn filled<S: BlockSink>(
        &self,
        alloc: Global,
        sink: &mut S,
        folder: &OpenFolder,
    ) -> Result<(Cid, u64), PackErrorKind> {
        let Some(node) = self.nodes.get(folder.index) else {
            return Err(PackErrorKind::Changed);
        };
        let NodeKind::Folder(entries) = &node.kind else {
            return Err(PackErrorKind::Changed);
        };
        let blocks = self.folder_blocks(alloc, &node.attributes, *entries)?;
        if blocks.len() != folder.rooms.len() {
            return Err(PackErrorKind::Changed);
        }
        for (block, room) in blocks.iter().zip(folder.rooms.iter()).rev() {
            match sink.fill_room(room, &block.cid, &block.data) {
                Ok(()) => {}
                Err(error) => return Err(PackErrorKind::of_writing(error)),
            }
        }
        match blocks.first() {
            Some(root) => Ok((root.cid, root.total)),
            None => Err(PackErrorKind::Changed),
        }
    }
}
