ghost use Rattle.std.specs.Prelude.{◌≡◌, ◌+◌, ◌<◌, ◌≤◌, ◌++◌, ◌*◌, List, [], IfOk, IfSome, OnErr, OnOk, is_some, length, map, nat_le, string_bytes};
ghost use Rattle.mg_revtree.specs.Revision.{run_from};
ghost use Rattle.mg_revtree.specs.History.{Link, are_known_whole, fit, links};
ghost use Rattle.mg_revtree.specs.Tree.{AreKnownLinks, AreSorted, find};
ghost use Rattle.mg_revtree.specs.Pair.{pair_links};

use crate::links::list::Links;
use crate::links::lookup::{LookUp, all_agree, all_known};
use crate::links::older::Older;
use crate::revision::Rev;
use mg_value::NoMemory;
use std::alloc::Global;
use std::marker::Model;

// The newer list may always hold this many revisions.
const FEW: usize = 64;

// The newer list may also hold up to about ROOTS times the square root of the number of older revisions. With more ROOTS, a copy
// costs more, and many edits of one document in one bulk cost less.
const ROOTS: usize = 4;

// Whether `number` is at most the square root of `square`.
fn is_within_root(number: usize, square: usize) -> bool
    ensures { result ≡ nat_le (number * number) square }
{
    number == 0 || number <= square / number
}

// Whether the newer list may hold `newer` revisions: at most 64, or about four times the square root of `older` (the division
// rounds down, so up to three more), whichever is more.
fn are_few(newer: usize, older: usize) -> bool {
    newer <= FEW || is_within_root(newer / ROOTS, older)
}

/// The known revisions with their parents, in the order of the revisions. Contracts see the list of them.
///
/// They are kept in two lists: an older one, which copies share, and a newer one, which is copied. A list is older or newer by when its
/// revisions were joined, not by their positions. The newer list holds at most 64 revisions, or about four times the square root of the
/// number of older ones, whichever is more. Before it grows beyond that limit, it is folded into a copy of the older list, and that copy
/// becomes the older list. Therefore a copy of the tree never copies more revisions than the limit. The next fold comes only when the
/// runs that were joined since the last fold have more revisions than the limit, known ones included. The parent of a revision is the one
/// in the older list; if that list has none, the one in the newer list.
#[derive(Drop)]
pub struct KnownLinks {
    older: Older,
    newer: Links,
}

impl Model for KnownLinks {
    ghost use Rattle.std.specs.Prelude.{List};
    ghost use Rattle.std.specs.Coded.{coded_list};
    ghost use Rattle.mg_revtree.specs.History.{Link};
    ghost use Rattle.mg_revtree.specs.Tree.{AreSorted, link_code};
    ghost use Rattle.mg_revtree.specs.Known.{with_links};

    ghost Value = { List Link };

    ghost coded = { coded_list link_code };

    ghost view = { λ k. with_links k.older k.newer };

    ghost invariant = { λ k. AreSorted k.older × AreSorted k.newer };
}

impl KnownLinks {
    /// Makes the list without revisions. Takes no memory.
    pub fn new(alloc: Global) -> KnownLinks
        ensures { result ≡ [] }
    {
        KnownLinks {
            older: Older::none(),
            newer: Links::new(alloc),
        }
    }

    /// Whether a revision is known. Takes no memory. Cost: the logarithm of the known revisions.
    pub fn knows(&self, pos: u32, id: &String) -> bool
        ensures { AreSorted self.now → result ≡ is_some (find (pos, string_bytes id.now) self.now) }
    {
        self.look_up_parent(pos, id.as_bytes()).is_some()
    }

    /// Whether a run, given by its start and its ids, newest first, gives no known revision a parent other than the known one.
    /// Cost: the length of the run times the logarithm of the known revisions.
    pub fn fits(&self, start: u32, ids: &[String]) -> bool
        ensures { (ls : List Link) → AreKnownLinks self.now ls
            → result ≡ fit ls (links (run_from start (map string_bytes ids.now))) }
    {
        all_agree(self, start, ids)
    }

    /// Whether all revisions of a run, given by its start and its ids, newest first, are known with the parents that
    /// the run gives them. Cost: as for `fits`.
    pub fn knows_whole(&self, start: u32, ids: &[String]) -> bool
        ensures { (ls : List Link) → AreKnownLinks self.now ls
            → result ≡ are_known_whole ls (links (run_from start (map string_bytes ids.now))) }
    {
        all_known(self, start, ids)
    }

    /// Adds a run, given by its start and its ids, newest first. Errors: those of `Links::join`, `Older::with` and `Older::new`, all
    /// `NoMemory`; nothing changes then. Cost: if the newer list stays within its limit, that of `Links::join` in that list; else that of
    /// `Older::with`, and of `Links::join` in the list of all revisions.
    pub fn join(&mut self, start: u32, ids: &[String]) -> Result<(), NoMemory>
        requires { length ids.now ≤ start + 1 }
        ensures joined { OnOk result ((ls : List Link) → AreKnownLinks self.old ls
            → AreKnownLinks self.new (ls ++ links (run_from start (map string_bytes ids.now)))) }
        ensures err { OnErr result (self.new ≡ self.old) }
    {
        if are_few(self.newer.len().saturating_add(ids.len()), self.older.len()) {
            self.newer.join(start, ids)?;
            return Ok(());
        }
        let alloc = self.newer.allocator();
        let mut all = self.older.with(alloc, &self.newer)?;
        all.join(start, ids)?;
        self.older = Older::new(alloc, all)?;
        self.newer = Links::new(alloc);
        Ok(())
    }

    /// Makes the list of a revision and its parent, which is given by its id and has no known parent. Errors: `NoMemory` if an allocation
    /// fails, or if the two ids take more than 4,294,967,295 bytes.
    pub fn of_pair(alloc: Global, rev: &Rev, parent: &[u8]) -> Result<KnownLinks, NoMemory>
        requires { 0 < rev.now.0 }
        ensures { IfOk result (λ known. known ≡ pair_links rev.now parent.now) }
    {
        Ok(KnownLinks {
            older: Older::none(),
            newer: Links::of_pair(alloc, rev, parent)?,
        })
    }

    /// Returns the id of a revision's parent. `None` unless exactly these two revisions are known, both in the newer list, and the parent
    /// has no known parent. Takes no memory.
    pub fn parent_in_pair(&self, rev: &Rev) -> Option<&[u8]>
        ensures { IfSome result
            (λ parent. (0 < rev.now.0) × (self.now ≡ pair_links rev.now parent.now)) }
    {
        if self.older.len() != 0 {
            return None;
        }
        self.newer.parent_in_pair(rev)
    }

    /// Makes a copy that shares the older list. Errors: `NoMemory` if an allocation fails, or if there are too many references to the
    /// older list. Cost: a copy of the two blocks of the newer list, with no work for each revision.
    pub fn copy(&self, alloc: Global) -> Result<KnownLinks, NoMemory>
        ensures { IfOk result (λ known. known ≡ self.now) }
    {
        Ok(KnownLinks {
            older: self.older.share()?,
            newer: self.newer.copy(alloc)?,
        })
    }
}

impl LookUp for KnownLinks {
    ghost known_links = { λ known. known };

    fn look_up_parent(&self, pos: u32, id: &[u8]) -> Option<Option<&[u8]>> {
        match self.older.look_up_parent(pos, id) {
            Some(Some(parent)) => Some(Some(parent)),
            Some(None) => Some(self.newer.look_up_parent(pos, id).flatten()),
            None => self.newer.look_up_parent(pos, id),
        }
    }
}
