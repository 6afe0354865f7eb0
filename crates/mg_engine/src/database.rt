//! The question what the database is.
ghost use Rattle.std.specs.Prelude.{◌≡◌, ◌+◌, IfOk, Some, pos};
ghost use Rattle.mg_value.specs.Value.{whole};
ghost use Rattle.mg_value.specs.View.{view};
ghost use Rattle.mg_shard.specs.Dealt.{Placing};
ghost use Rattle.mg_shard.specs.Shard.{shards_view};
ghost use Rattle.mg_engine.specs.Commands.{ok_answer};
ghost use Rattle.mg_engine.specs.Counted.{deleted_counted, docs_counted};
ghost use Rattle.mg_engine.specs.Questions.{cluster_value, database_of, database_value, sizes_value};
ghost use Rattle.mg_engine.specs.Stands.{StateStandsFor};
ghost use Rattle.mg_engine.specs.View.{reply_view};
ghost use Rattle.mg_engine.specs.World.{World};

use crate::body::line;
use crate::reply::Reply;
use crate::state::State;
use mg_shard::Shard;
use mg_value::{Json, NoMemory};
use std::alloc::Global;
use std::sync::Arc;

impl State {
    /// Makes the reply that says what the database is, after this many commits.
    ///
    /// Errors: `NoMemory` if an allocation fails, or if there are more than 9,223,372,036,854,775,807 documents. Cost: the number of shards.
    pub(crate) fn describe(&self, alloc: Global, commits: u64) -> Result<Reply, NoMemory>
        ensures { IfOk result (λ r. (place : Placing) (w : World) → StateStandsFor place self.now w
            → reply_view r ≡ Some (ok_answer (database_value w commits))) }
    {
        let docs = count_docs(&self.shards)?;
        let deleted = count_deleted(&self.shards)?;
        let database = database_json(alloc, &self.name, docs, deleted, commits)?;
        let body = line(alloc, &database)?;
        Ok(Reply::Full { status: 200, body })
    }
}

/// Adds up the documents of these shards that are not deleted. Errors: `NoMemory` if there are more than a `usize` counts.
pub(crate) fn count_docs(shards: &[Arc<Shard>]) -> Result<usize, NoMemory>
    ensures { IfOk result (λ n. n ≡ docs_counted (shards_view shards.now)) }
{
    let mut count: usize = 0;
    for i in 0..shards.len() {
        let shard: &Shard = &shards[i];
        count = add(count, shard.count_docs())?;
    }
    Ok(count)
}

// Adds up the deleted documents of these shards. Errors: `NoMemory` if there are more than a `usize` counts.
fn count_deleted(shards: &[Arc<Shard>]) -> Result<usize, NoMemory>
    ensures { IfOk result (λ n. n ≡ deleted_counted (shards_view shards.now)) }
{
    let mut count: usize = 0;
    for i in 0..shards.len() {
        let shard: &Shard = &shards[i];
        count = add(count, shard.count_deleted())?;
    }
    Ok(count)
}

/// Adds two counts. Errors: `NoMemory` if the sum is more than a `usize` counts.
pub(crate) fn add(count: usize, more: usize) -> Result<usize, NoMemory>
    ensures { IfOk result (λ n. n ≡ count + more) }
{
    count.checked_add(more).ok_or(NoMemory)
}

/// Makes a count a value. Errors: `NoMemory` if it is more than 9,223,372,036,854,775,807.
pub(crate) fn count_json(count: usize) -> Result<Json, NoMemory>
    ensures { IfOk result (λ v. view v ≡ whole (pos count)) }
{
    match i64::try_from(count) {
        Ok(count) => Ok(Json::Whole(count)),
        Err(_) => Err(NoMemory),
    }
}

// Makes the value that says what a database is. Errors: `NoMemory` if an allocation fails, or as for `count_json`.
fn database_json(
    alloc: Global,
    name: &str,
    docs: usize,
    deleted: usize,
    commits: u64,
) -> Result<Json, NoMemory>
    ensures { IfOk result (λ v. view v ≡ database_of name.now docs deleted commits) }
{
    let zero = String::from_str(alloc, "0")?;
    let mut database = Json::empty_object(alloc);
    database.insert(alloc, "cluster", cluster_json(alloc)?)?;
    database.insert(alloc, "compact_running", Json::Flag(false))?;
    database.insert(alloc, "db_name", Json::Text(String::from_str(alloc, name)?))?;
    database.insert(alloc, "disk_format_version", Json::Whole(1))?;
    database.insert(alloc, "doc_count", count_json(docs)?)?;
    database.insert(alloc, "doc_del_count", count_json(deleted)?)?;
    database.insert(alloc, "instance_start_time", Json::Text(zero.clone()?))?;
    database.insert(alloc, "props", Json::empty_object(alloc))?;
    database.insert(alloc, "purge_seq", Json::Text(zero))?;
    database.insert(alloc, "sizes", sizes_json(alloc)?)?;
    database.insert(
        alloc,
        "update_seq",
        Json::Text(format!(in alloc; "{commits}")?),
    )?;
    Ok(database)
}

fn cluster_json(alloc: Global) -> Result<Json, NoMemory>
    ensures { IfOk result (λ v. view v ≡ cluster_value) }
{
    let mut cluster = Json::empty_object(alloc);
    cluster.insert(alloc, "n", Json::Whole(1))?;
    cluster.insert(alloc, "q", Json::Whole(1))?;
    cluster.insert(alloc, "r", Json::Whole(1))?;
    cluster.insert(alloc, "w", Json::Whole(1))?;
    Ok(cluster)
}

fn sizes_json(alloc: Global) -> Result<Json, NoMemory>
    ensures { IfOk result (λ v. view v ≡ sizes_value) }
{
    let mut sizes = Json::empty_object(alloc);
    sizes.insert(alloc, "active", Json::Whole(0))?;
    sizes.insert(alloc, "external", Json::Whole(0))?;
    sizes.insert(alloc, "file", Json::Whole(0))?;
    Ok(sizes)
}
