//! Nodes that own their names and data.

ghost use Rattle.std.specs.Prelude.{◌≡◌, map, option_map, string_bytes, IfOk};
ghost use Rattle.dag_pb.specs.Views.{parts_of_link, parts_of_link_buf, parts_of_node, parts_of_node_buf};

use crate::link::PbLink;
use crate::node::PbNode;
use ipld_cid::Cid;
use std::alloc::{AllocError, Global};

/// A link of a node of DAG-PB that owns its name: an owned [`PbLink`].
#[derive(Drop)]
pub struct PbLinkBuf {
    /// The CID to which the link leads.
    pub hash: Cid,
    /// The name of the link, if it has one. An empty name is not the same as no name.
    pub name: Option<String>,
    /// The size of the block to which the link leads, with all blocks below it, if the link has a
    /// size. It is the claim of the block's author. Nothing checks it.
    pub tsize: Option<u64>,
}

/// A node of DAG-PB that owns its names and its data: an owned [`PbNode`].
#[derive(Drop)]
pub struct PbNodeBuf {
    /// The links, in the order of the block.
    pub links: Vec<PbLinkBuf>,
    /// The data, if the block has data. Data of no bytes are not the same as no data.
    pub data: Option<Vec<u8>>,
}

impl<'a> PbLink<'a> {
    /// Returns a copy of the link that owns its name. It allocates only the name.
    ///
    /// # Errors
    ///
    /// `AllocError` if the allocation fails.
    pub fn to_owned(&self, alloc: Global) -> Result<PbLinkBuf, AllocError>
        ensures { IfOk result (λ link. parts_of_link_buf link ≡ parts_of_link self.now) }
    {
        let name = match self.name {
            Some(name) => Some(String::from_str(alloc, name)?),
            None => None,
        };
        Ok(PbLinkBuf {
            hash: self.hash,
            name,
            tsize: self.tsize,
        })
    }
}

impl<'a> PbNode<'a> {
    /// Returns a copy of the node that owns its names and its data. It allocates the vector of the
    /// links once, each name, and the data.
    ///
    /// # Errors
    ///
    /// `AllocError` if an allocation fails.
    pub fn to_owned(&self, alloc: Global) -> Result<PbNodeBuf, AllocError>
        ensures { IfOk result (λ node. parts_of_node_buf node ≡ parts_of_node self.now) }
    {
        let links = copy_links(alloc, &self.links)?;
        let data = match self.data {
            Some(data) => Some(Vec::from_slice(alloc, data)?),
            None => None,
        };
        Ok(PbNodeBuf { links, data })
    }
}

// Returns copies of the links that own their names.
fn copy_links(alloc: Global, links: &[PbLink<'_>]) -> Result<Vec<PbLinkBuf>, AllocError>
    ensures { IfOk result (λ copies. map parts_of_link_buf copies.items
        ≡ map parts_of_link links.now) }
{
    let mut copies = Vec::with_capacity(alloc, links.len())?;
    for link in links {
        copies.push(link.to_owned(alloc)?)?;
    }
    Ok(copies)
}

impl PbLinkBuf {
    /// Returns the link with its name borrowed.
    pub fn as_link(&self) -> PbLink<'_>
        ensures { parts_of_link result ≡ parts_of_link_buf self.now }
    {
        let name = match &self.name {
            Some(name) => Some(name.as_str()),
            None => None,
        };
        PbLink {
            hash: self.hash,
            name,
            tsize: self.tsize,
        }
    }
}

impl PbNodeBuf {
    /// Returns the node with its names and its data borrowed. It allocates only the vector of the
    /// links, once.
    ///
    /// # Errors
    ///
    /// `AllocError` if the allocation fails.
    pub fn as_node(&self, alloc: Global) -> Result<PbNode<'_>, AllocError>
        ensures { IfOk result (λ node. parts_of_node node ≡ parts_of_node_buf self.now) }
    {
        let links = lend_links(alloc, &self.links)?;
        let data = match &self.data {
            Some(data) => Some(data.as_slice()),
            None => None,
        };
        Ok(PbNode { links, data })
    }
}

// Returns the links with their names borrowed.
fn lend_links(alloc: Global, links: &[PbLinkBuf]) -> Result<Vec<PbLink<'_>>, AllocError>
    ensures { IfOk result (λ lent. map parts_of_link lent.items
        ≡ map parts_of_link_buf links.now) }
{
    let mut lent = Vec::with_capacity(alloc, links.len())?;
    for link in links {
        if lent.push(link.as_link()).is_err() {
            return Err(AllocError);
        }
    }
    Ok(lent)
}
