ghost use Rattle.std.specs.Arc.{arc_value};
ghost use Rattle.std.specs.Prelude.{◌≡◌, ◌++◌, IfOk, map, option_map, string_bytes};
ghost use Rattle.mg_path.specs.Equal.{path_eq};
ghost use Rattle.mg_path.specs.Part.{part_of};
ghost use Rattle.mg_normal.specs.View.{above_steps};

use mg_path::{Path, part_of};
use mg_value::{LentValue, NoMemory, copy_texts};
use std::alloc::{AllocError, Global};
use std::sync::Arc;

/// The steps that lead from the top of the document to a part: those of the prefix above, then those of a path.
/// Without a prefix above, the path begins at the top. All conditions on the part share its prefix.
#[derive(Debug, Drop)]
pub(crate) struct Prefix {
    above: Option<Arc<Prefix>>,
    path: Arc<Path>,
}

// Shares a prefix. Errors: `AllocError` if it has too many owners to count.
pub(crate) fn share(above: &Option<Arc<Prefix>>) -> Result<Option<Arc<Prefix>>, AllocError>
    ensures { IfOk result (λ shared. above_steps shared ≡ above_steps above.now) }
{
    match above {
        Some(prefix) => Ok(Some(Arc::try_clone(prefix)?)),
        None => Ok(None),
    }
}

// Makes the prefix for the part at the path below a prefix. Errors: `NoMemory` if an allocation fails. Cost: constant.
pub(crate) fn lengthen(
    alloc: Global,
    above: &Option<Arc<Prefix>>,
    path: &Arc<Path>,
) -> Result<Option<Arc<Prefix>>, NoMemory>
    ensures { IfOk result (λ longer. above_steps longer ≡ above_steps above.now ++ arc_value path.now) }
{
    let above = share(above)?;
    let path = Arc::try_clone(path)?;
    Ok(Some(Arc::new(alloc, Prefix { above, path })?))
}

// Finds the part of the document that the steps of the prefix lead to; `None` if it is missing. Takes no memory.
pub(crate) fn part_below<L: LentValue>(above: &Option<Arc<Prefix>>, document: L) -> Option<L>
    ensures { option_map L.value result ≡ part_of (above_steps above.now) (L.value document) }
{
    let Some(prefix) = above else {
        return Some(document);
    };
    match &prefix.above {
        None => part_of(prefix.path.steps(), document),
        Some(_) => prefix.path.get_in(part_below(&prefix.above, document)),
    }
}

// Whether the steps of the prefix are these. Takes no memory. Cost: a comparison of the steps, from the last path to the
// first.
pub(crate) fn has_steps(above: &Option<Arc<Prefix>>, steps: &[String]) -> bool
    ensures { result ≡ path_eq (above_steps above.now) (map string_bytes steps.now) }
{
    let Some(prefix) = above else {
        return steps.is_empty();
    };
    match steps.strip_suffix(prefix.path.steps()) {
        Some(first) => has_steps(&prefix.above, first),
        None => false,
    }
}

// Copies the steps of the prefix. Errors: `NoMemory` if an allocation fails. Cost: the size of the steps.
pub(crate) fn copy_steps(
    alloc: Global,
    above: &Option<Arc<Prefix>>,
) -> Result<Vec<String>, NoMemory>
    ensures { IfOk result (λ steps. map string_bytes steps.items ≡ above_steps above.now) }
{
    let Some(prefix) = above else {
        return Ok(Vec::new(alloc));
    };
    let mut steps = copy_steps(alloc, &prefix.above)?;
    steps.append(&mut copy_texts(alloc, prefix.path.steps())?)?;
    Ok(steps)
}
