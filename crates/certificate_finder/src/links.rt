// Going back over puts past those that can no longer be read.
ghost use Rattle.std.specs.Prelude.{◌<◌, ◌^◌, IfOk, length};
ghost use Rattle.certificate_finder.specs.Offering.{AreLinks, AreLinksUpto, IsLink};

use crate::items::item_at;
use crate::put::Put;
use std::alloc::{AllocError, Global};

/// For each put an index no later than its own: no put from there to it can be read longer than it.
pub(crate) fn links_of(alloc: Global, puts: &[Put]) -> Result<Vec<u32>, AllocError>
    requires { length puts.now < 2 ^ 31 }
    ensures { IfOk result (λ links. AreLinks puts.now links.items) }
{
    let mut links = Vec::new(alloc);
    for index in 0..puts.len() {
        let link = link_of(puts, links.as_slice(), index);
        links.push(link as u32)?;
    }
    Ok(links)
}

/// The index of the first of the puts next before one that can be read no longer than it.
fn link_of(puts: &[Put], links: &[u32], index: usize) -> usize
    requires within { index < length puts.now }
    requires links { AreLinksUpto puts.now index links.now }
    ensures { IsLink puts.now index result }
{
    let put = item_at(puts, index);
    let rank = put.last();
    let mut link = index;
    while link > 0 {
        let before = item_at(puts, link - 1);
        if rank < before.last() {
            return link;
        }
        link = item_at(links, link - 1) as usize;
    }
    link
}
