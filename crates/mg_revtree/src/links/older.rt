ghost use Rattle.std.specs.Prelude.{◌≡◌, [], IfOk, length, option_copied, option_map};
ghost use Rattle.mg_revtree.specs.Tree.{AreSorted, find};
ghost use Rattle.mg_revtree.specs.Known.{parent_below, with_links};

use crate::links::list::Links;
use mg_value::NoMemory;
use std::alloc::Global;
use std::marker::Model;
use std::sync::Arc;

/// Links that the copies of a tree share, and that never change. Contracts see the list of them. The empty list is `None` and
/// takes no memory.
#[derive(Drop)]
pub struct Older {
    links: Option<Arc<Links>>,
}

impl Model for Older {
    ghost use Rattle.std.specs.Prelude.{List, [], option_map};
    ghost use Rattle.std.specs.Arc.{arc_value};
    ghost use Rattle.std.specs.Coded.{coded_list};
    ghost use Rattle.std.specs.Option.{unwrap_or};
    ghost use Rattle.mg_revtree.specs.History.{Link};
    ghost use Rattle.mg_revtree.specs.Tree.{link_code};

    ghost Value = { List Link };

    ghost coded = { coded_list link_code };

    ghost view = { λ o. unwrap_or (option_map arc_value o.links) [] };
}

impl Older {
    /// Makes the list without links. Takes no memory.
    pub fn none() -> Older
        ensures { result ≡ [] }
    {
        Older { links: None }
    }

    /// Puts links into a block that the copies of a tree can share. Errors: `NoMemory` if an allocation fails.
    pub fn new(alloc: Global, links: Links) -> Result<Older, NoMemory>
        ensures { IfOk result (λ older. older ≡ links) }
    {
        Ok(Older {
            links: Some(Arc::new(alloc, links)?),
        })
    }

    /// Returns the number of revisions.
    pub fn len(&self) -> usize
        ensures { result ≡ length self.now }
    {
        match &self.links {
            Some(links) => links.len(),
            None => 0,
        }
    }

    /// Looks up a revision: the id of its parent, `Some(None)` if it has no known parent, `None` if it is unknown. Cost: the
    /// logarithm of the revisions.
    pub fn look_up_parent(&self, pos: u32, id: &[u8]) -> Option<Option<&[u8]>>
        ensures { AreSorted self.now
            → option_map (λ p. parent_below pos (option_copied p)) result ≡ find (pos, id.now) self.now }
    {
        match &self.links {
            Some(links) => links.look_up_parent(pos, id),
            None => None,
        }
    }

    /// Makes another reference to the links. Takes no memory. Errors: `NoMemory` if there are too many references.
    pub fn share(&self) -> Result<Older, NoMemory>
        ensures { IfOk result (λ older. older ≡ self.now) }
    {
        match &self.links {
            Some(links) => Ok(Older {
                links: Some(links.clone()?),
            }),
            None => Ok(Older::none()),
        }
    }

    /// Makes a list of these links with newer ones joined. Errors and cost: as for `Links::with`; if there are no older links, as for
    /// `Links::copy`.
    pub fn with(&self, alloc: Global, newer: &Links) -> Result<Links, NoMemory>
        ensures { IfOk result
            (λ links. AreSorted self.now → AreSorted newer.now → links ≡ with_links self.now newer.now) }
    {
        match &self.links {
            Some(older) => older.with(alloc, newer),
            None => newer.copy(alloc),
        }
    }
}
