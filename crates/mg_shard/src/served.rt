//! The form in which a document is served.
ghost use Rattle.std.specs.Prelude.{◌≡◌, ℕ, List, Some, option_map};
ghost use Rattle.mg_shard.specs.Own.{form_in, has_own_id, HasOwnId, IsServedOwn};

use mg_packed::Packed;
use mg_revtree::Form;

/// The form in which a document is served, in one block with its compact text, if the document is not deleted. The variant says whether
/// the form has a member `_id`, because a search among all documents checks this for each document.
#[derive(Drop)]
pub(crate) enum Served {
    Deleted,
    WithId(Form),
    WithoutId(Form),
}

// Every document has a `Served`, so the size of this type counts.
const _: () = prove!(size_of::<Served>() == 16);

impl Served {
    /// Wraps the form of a document that is not deleted, by whether it has a member `_id`. Takes no memory. Cost: a look-up of a member.
    pub(crate) fn of(form: Form) -> Served
        ensures form { form_in result ≡ Some form }
        ensures own { (id : List ℕ) → HasOwnId id form → IsServedOwn id result }
    {
        if form.written().part().member("_id").is_some() {
            Served::WithId(form)
        } else {
            Served::WithoutId(form)
        }
    }

    /// Returns the block of the form; `None` if the document is deleted. Takes no memory.
    pub(crate) fn written(&self) -> Option<&Packed>
        ensures { option_map (λ form. form.now) result ≡ form_in self.now }
    {
        match self {
            Served::Deleted => None,
            Served::WithId(form) | Served::WithoutId(form) => Some(form.written()),
        }
    }

    /// Whether the document has a form with a member `_id`. Takes no memory.
    pub(crate) fn has_id(&self) -> bool
        ensures { result ≡ has_own_id self.now }
    {
        match self {
            Served::WithId(_) => true,
            Served::Deleted | Served::WithoutId(_) => false,
        }
    }
}
