//! Documents of a shard, read in a direction from a place on.
ghost use Rattle.std.specs.Prelude.{◌≡◌, length};
ghost use Rattle.std.specs.Iterator.{at_most};
ghost use Rattle.std.specs.Map.Iter.{TakesFirst, deref};
ghost use Rattle.mg_pages.specs.Reading.{beyond};

use crate::document::Document;
use mg_collate::Direction;
use mg_pages::{Cursor, Pages, Probe, Shared};
use std::marker::Model;

/// Documents that are left, deleted ones too, in the direction in which they are read.
#[derive(Drop)]
pub struct Documents<'a> {
    documents: Cursor<'a, Shared<Document>>,
}

impl<'a> Model for Documents<'a> {
    ghost use Rattle.std.specs.Prelude.{List};
    ghost use Rattle.mg_shard.specs.declared.document.Document.{Document};

    ghost Value = { List Document };

    ghost use Rattle.std.specs.Coded.{coded_list};
    ghost use Rattle.mg_shard.specs.contracts.document.Document as document;

    ghost coded = { coded_list document.the_row.coded };

    ghost view = { λ d. d.documents };
}

impl<'a> Documents<'a> {
    // Makes an iterator over the documents that come after a key in the direction. Documents that tie with the key are left out; there
    // need be none.
    pub(crate) fn beyond<Q: Probe<Shared<Document>>>(
        pages: &'a Pages<Shared<Document>>,
        key: &Q,
        direction: Direction,
    ) -> Documents<'a>
        ensures { result ≡ beyond direction (Q.against key.now) pages.now }
    {
        let documents = pages.beyond(key, direction);
        Documents { documents }
    }
}

impl<'a> Iterator for Documents<'a> {
    type Item = &'a Document;

    ghost next_gives = { TakesFirst deref };

    ghost remaining = { λ s. at_most (length s) };

    #[inline(always)]
    fn next(&mut self) -> Option<&'a Document> {
        match self.documents.next() {
            Some(document) => Some(document.get()),
            None => None,
        }
    }
}
