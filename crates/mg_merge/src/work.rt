ghost use Rattle.std.specs.Prelude.{◌≡◌, IfOk, length, map};

use mg_value::NoMemory;
use std::alloc::Global;
use std::marker::Model;

/// The lengths of the lists that were given to `merge` or `merge_items`, and the length of the result. Only these two
/// functions make a `Work`.
#[derive(Debug, Drop)]
pub struct Work {
    pub(crate) handed: Vec<u64>,
    pub(crate) taken: u64,
}

impl Model for Work {
    ghost use Rattle.mg_merge.specs.Work.{WorkView, work_view_code};

    ghost Value = { WorkView };

    ghost coded = { work_view_code };

    ghost view = { λ w. record { handed = w.handed.items; taken = w.taken } };
}

impl Work {
    // Makes the `Work` of a merge of `lists`, given the length of its result.
    pub(crate) fn of<T>(alloc: Global, lists: &[Vec<T>], taken: usize) -> Result<Work, NoMemory>
        ensures handed { IfOk result (λ w. w.handed ≡ map (λ l. length l.items) lists.now) }
        ensures taken { IfOk result (λ w. w.taken ≡ taken) }
    {
        let mut handed = Vec::with_capacity(alloc, lists.len())?;
        for list in lists {
            handed.push(list.len() as u64)?;
        }
        Ok(Work {
            handed,
            taken: taken as u64,
        })
    }
}
