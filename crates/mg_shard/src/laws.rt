//! Laws of what shards stand for, each the contract of a function that changes nothing.
ghost use Rattle.std.specs.Prelude.{All};
ghost use Rattle.mg_index.specs.Catalog.{IsCatalog};
ghost use Rattle.mg_shard.specs.Laws.{DraftsBecomeShards, ItsShardDecidesEachEdit, ItsShardMakesEachEdit, EachIdHasItsShard, NothingIsDealt, ShardsBecomeDrafts, TheDeletedAreKept, TheServedAreKept};
ghost use Rattle.mg_shard.specs.Shard.{shards_view};

use crate::shard::Shard;
use std::sync::Arc;

/// The served documents of a shard are those of the histories that it stands for.
pub fn the_served_are_kept()
    ensures { TheServedAreKept }
{}

/// The deleted documents of a shard are those of the histories that it stands for.
pub fn the_deleted_are_kept()
    ensures { TheDeletedAreKept }
{}

/// Shards that have no document stand for the empty map of histories.
pub fn nothing_is_dealt()
    ensures { NothingIsDealt }
{}

/// The shard on which an id is placed has the document that stands for the id's history, or no document of the id if it has no history.
pub fn each_id_has_its_shard()
    ensures { EachIdHasItsShard }
{}

/// The outcome of an edit depends only on the draft of its shard.
pub fn its_shard_decides_each_edit()
    ensures { ItsShardDecidesEachEdit }
{}

/// If drafts stand for histories, and then the draft of an edit's shard applies the edit and the others do not change, the drafts stand for
/// the histories after the edit.
pub fn its_shard_makes_each_edit()
    ensures { ItsShardMakesEachEdit }
{}

/// If each draft stands for what the shard at its position stands for, the drafts together stand for what the shards together stand for.
pub fn shards_become_drafts()
    ensures { ShardsBecomeDrafts }
{}

/// If each shard stands for what the draft at its position stands for, the shards together stand for what the drafts together stand for.
pub fn drafts_become_shards()
    ensures { DraftsBecomeShards }
{}

/// The definitions of each shard are a catalog: they are in the order of design document, then name, and no two have both in common.
/// Takes no memory. Cost: the number of shards.
pub fn definitions_are_catalogs(shards: &[Arc<Shard>])
    ensures { All (λ s. IsCatalog s.definitions) (shards_view shards.now) }
{
    for i in 0..shards.len() {
        let shard: &Shard = &shards[i];
        // called only for its contract, which states this for one shard
        let _ = shard.indexes();
    }
}
