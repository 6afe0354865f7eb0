//! The state of the engine: what the database holds.
ghost use Rattle.std.specs.Prelude.{◌≡◌, ◌<◌, All, IfOk, length};
ghost use Rattle.mg_engine.specs.World.{empty_world};
ghost use Rattle.mg_engine.specs.Stands.{HaveRows, StateStandsFor};
ghost use Rattle.mg_shard.specs.Shard.{shards_view};
ghost use Rattle.mg_shard.specs.Dealt.{Placing};

use crate::shards::{empty_shards, share_shards};
use mg_index::Catalog;
use mg_shard::Shard;
use mg_shard::laws::nothing_is_dealt;
use mg_value::NoMemory;
use std::alloc::Global;
use std::marker::Model;
use std::sync::Arc;

/// The database's name, the catalog of its indexes, its shards, and the number that was last given to a document without an id.
/// Each shard has the rows of the indexes of the catalog, and of no other index.
#[derive(Drop)]
pub(crate) struct State {
    pub(crate) name: Arc<String>,
    pub(crate) catalog: Arc<Catalog>,
    pub(crate) shards: Vec<Arc<Shard>>,
    pub(crate) counter: u64,
}

impl Model for State {
    ghost use Rattle.mg_engine.specs.Stands.{StateView, state_view_code};

    ghost Value = { StateView };

    ghost coded = { state_view_code };

    ghost use Rattle.mg_engine.specs.StateView.{IsIndexed, state_view};

    ghost view = { state_view };

    ghost invariant = { IsIndexed };
}

impl State {
    /// Makes the state of an empty database: shards without documents, and no index. Errors: `NoMemory` if an allocation fails. Cost: the
    /// number of shards, and the name.
    pub(crate) fn new(alloc: Global, name: &str, shards: usize) -> Result<State, NoMemory>
        requires { 0 < shards }
        ensures stands { IfOk result
            (λ s. (place : Placing) → StateStandsFor place s (empty_world name.now)) }
        ensures number { IfOk result (λ s. length s.shards ≡ shards) }
    {
        let name = Arc::new(alloc, String::from_str(alloc, name)?)?;
        let catalog = Arc::new(alloc, Catalog::new(alloc))?;
        let shards = empty_shards(alloc, shards)?;
        nothing_is_dealt();
        Ok(State {
            name,
            catalog,
            shards,
            counter: 0,
        })
    }

    /// Makes a state with the name and the catalog of `self`, and with the given shards and counter. There must be a shard, and each must
    /// have the rows of the catalog's indexes and of no other.
    ///
    /// Errors: `NoMemory` if there are too many references to the name or the catalog. Takes no memory. Cost: constant.
    pub(crate) fn with_shards(
        &self,
        shards: Vec<Arc<Shard>>,
        counter: u64,
    ) -> Result<State, NoMemory>
        requires some { 0 < length shards.items }
        requires rows { HaveRows self.now.catalog (shards_view shards.items) }
        ensures { IfOk result
            (λ s. s ≡ record self.now { shards = shards_view shards.items; counter = counter }) }
    {
        Ok(State {
            name: self.name.clone()?,
            catalog: self.catalog.clone()?,
            shards,
            counter,
        })
    }

    /// Makes a state with the name and the counter of `self`, and with the given catalog and shards. There must be a shard, and each must
    /// have the rows of the given catalog's indexes and of no other.
    ///
    /// Errors: `NoMemory` if an allocation fails, or if there are too many references to the name. Cost: constant.
    pub(crate) fn with_catalog(
        &self,
        alloc: Global,
        catalog: Catalog,
        shards: Vec<Arc<Shard>>,
    ) -> Result<State, NoMemory>
        requires some { 0 < length shards.items }
        requires rows { HaveRows catalog (shards_view shards.items) }
        ensures { IfOk result
            (λ s. s ≡ record self.now { catalog = catalog; shards = shards_view shards.items }) }
    {
        Ok(State {
            name: self.name.clone()?,
            catalog: Arc::new(alloc, catalog)?,
            shards,
            counter: self.counter,
        })
    }

    /// Returns the shards. Each has the rows of the indexes of the catalog, and of no other index. Takes no memory.
    pub(crate) fn indexed_shards(&self) -> &[Arc<Shard>]
        ensures shards { shards_view result.now ≡ self.now.shards }
        ensures rows { All (λ s. s.definitions ≡ self.now.catalog) (shards_view result.now) }
    {
        &self.shards
    }

    /// Makes a second state that shares all parts of this one. Errors: `NoMemory` if an allocation fails, or if there are too many
    /// references to one of the parts. Cost: the number of shards.
    pub(crate) fn share(&self, alloc: Global) -> Result<State, NoMemory>
        ensures { IfOk result (λ s. s ≡ self.now) }
    {
        let shards = share_shards(alloc, &self.shards)?;
        let state = self.with_shards(shards, self.counter)?;
        Ok(state)
    }
}
