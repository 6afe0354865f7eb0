//! The served documents of a shard, one after another, from both ends.
ghost use Rattle.std.specs.Prelude.{◌≡◌, length};
ghost use Rattle.std.specs.Iterator.{at_most};
ghost use Rattle.std.specs.Map.Iter.{TakesFirst, TakesLast};
ghost use Rattle.mg_shard.specs.Documents.{lent_document_view, docs_in};

use crate::document::Document;
use mg_packed::Part;
use mg_pages::{Iter, Shared};
use std::marker::Model;

/// Lists the served documents, each as its id and its form, in the order of the ids; `next_back` lists them from the last to the first. It
/// skips deleted documents. Takes no memory. Cost: a step for each document, deleted ones too.
#[derive(Drop)]
pub struct Docs<'a> {
    documents: Iter<'a, Shared<Document>>,
}

impl<'a> Model for Docs<'a> {
    ghost use Rattle.std.specs.Prelude.{List};
    ghost use Rattle.mg_shard.specs.Histories.{ServedDocument};

    ghost Value = { List ServedDocument };

    ghost use Rattle.std.specs.Coded.{coded×, coded_list, coded_ℕ};
    ghost use Rattle.mg_value.specs.Code.{value_code};

    ghost coded = { coded_list (coded× (coded_list coded_ℕ) value_code) };

    ghost use Rattle.mg_shard.specs.Documents.{docs_in};

    ghost view = { λ d. docs_in d.documents };
}

impl<'a> Docs<'a> {
    // Lists those of these documents that are served, in their order.
    pub(crate) fn over(documents: Iter<'a, Shared<Document>>) -> Docs<'a>
        ensures { result ≡ docs_in documents.entry }
    {
        Docs { documents }
    }
}

impl<'a> Iterator for Docs<'a> {
    type Item = (&'a str, Part<'a>);

    ghost next_gives = { TakesFirst lent_document_view };

    ghost remaining = { λ s. at_most (length s) };

    fn next(&mut self) -> Option<(&'a str, Part<'a>)> {
        while let Some(document) = self.documents.next() {
            if let Some(form) = document.get().form() {
                return Some((document.get().id(), form));
            }
        }
        None
    }
}

impl<'a> DoubleEndedIterator for Docs<'a> {
    ghost next_back_gives = { TakesLast lent_document_view };

    #[tactic(auto, using(crate::proofs::Walks::docs_before_served, crate::proofs::Walks::docs_before_deleted))]
    fn next_back(&mut self) -> Option<(&'a str, Part<'a>)> {
        while let Some(document) = self.documents.next_back() {
            if let Some(form) = document.get().form() {
                return Some((document.get().id(), form));
            }
        }
        None
    }
}
