//! Lists of the shards of a state.
ghost use Rattle.std.specs.Prelude.{◌≡◌, IfOk, replicate};
ghost use Rattle.mg_engine.specs.StateView.{empty_shard};
ghost use Rattle.mg_shard.specs.Shard.{shards_view};

use mg_shard::Shard;
use mg_value::NoMemory;
use std::alloc::Global;
use std::sync::Arc;

/// Makes shards without documents or indexes. Errors: `NoMemory` if an allocation fails. Cost: their number.
pub(crate) fn empty_shards(alloc: Global, shards: usize) -> Result<Vec<Arc<Shard>>, NoMemory>
    ensures { IfOk result (λ v. shards_view v.items ≡ replicate shards empty_shard) }
{
    let mut made = Vec::with_capacity(alloc, shards)?;
    for _ in 0..shards {
        made.push(Arc::new(alloc, Shard::new(alloc))?)?;
    }
    Ok(made)
}

/// Makes a second list that shares these shards. Errors: `NoMemory` if an allocation fails, or if there are too many references to a
/// shard. Cost: their number.
pub(crate) fn share_shards(
    alloc: Global,
    shards: &[Arc<Shard>],
) -> Result<Vec<Arc<Shard>>, NoMemory>
    ensures { IfOk result (λ v. shards_view v.items ≡ shards_view shards.now) }
{
    let mut all = Vec::with_capacity(alloc, shards.len())?;
    for shard in shards {
        all.push(shard.clone()?)?;
    }
    Ok(all)
}

/// Puts each shard into an `Arc`. Errors: `NoMemory` if an allocation fails. Cost: their number.
pub(crate) fn wrap_shards(alloc: Global, shards: Vec<Shard>) -> Result<Vec<Arc<Shard>>, NoMemory>
    ensures { IfOk result (λ v. shards_view v.items ≡ shards.items) }
{
    let mut all = Vec::with_capacity(alloc, shards.len())?;
    for shard in shards {
        all.push(Arc::new(alloc, shard)?)?;
    }
    Ok(all)
}
