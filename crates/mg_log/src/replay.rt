ghost use Rattle.std.specs.Prelude.{[], ◌∷◌, ◌++◌, List, OnOk};
ghost use Rattle.mg_log.specs.Entry.{Entry, entry_of};

use crate::commit::Commit;

/// What takes commits refuses one. It keeps the reason itself.
#[derive(Clone, Copy, PartialEq, Eq, Debug, Drop)]
pub struct Stopped;

/// Takes the commits of a log, in their order.
pub trait Replay {
    /// Holds of the state after these commits.
    ghost follows: { Self → List Entry → Type 0 };

    /// Takes the next commit.
    ///
    /// Errors: `Stopped` if it refuses the commit; then no other follows.
    fn take(&mut self, commit: Commit) -> Result<(), Stopped>
        ensures { (entries : List Entry) → follows self.old entries
            → OnOk result (follows self.new (entries ++ entry_of commit ∷ [])) };
}
