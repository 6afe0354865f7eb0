use mg_packed::Packed;
use mg_value::NoMemory;
use std::alloc::Global;
use std::marker::Model;
use std::sync::Arc;

/// The form in which a document is served, in one block of memory. A second, small block counts the owners that share the form, such as
/// a shard's document and the winner in the document's revision tree. Contracts see the form as a value.
#[derive(Drop)]
pub struct Form {
    block: Arc<Packed>,
}

impl Model for Form {
    ghost use Rattle.std.specs.Arc.{arc_value};
    ghost use Rattle.mg_value.specs.Value.{Value as JsonValue};
    ghost use Rattle.mg_value.specs.Code.{value_code};

    ghost Value = { JsonValue };

    ghost coded = { value_code };

    ghost view = { λ f. arc_value f.block };
}

impl Form {
    ghost use Rattle.std.specs.Prelude.{◌≡◌, IfOk};

    // Lets several owners share the block of a form. Errors: `NoMemory` if an allocation fails.
    pub(crate) fn of(alloc: Global, form: Packed) -> Result<Form, NoMemory>
        ensures { IfOk result (λ shared. shared ≡ form) }
    {
        Ok(Form {
            block: Arc::new(alloc, form)?,
        })
    }

    /// Returns the block. Takes no memory.
    pub fn written(&self) -> &Packed
        ensures { result.now ≡ self.now }
    {
        &self.block
    }

    /// Makes another reference to the block. Takes no memory. Errors: `NoMemory` if there are too many references.
    pub fn share(&self) -> Result<Form, NoMemory>
        ensures { IfOk result (λ shared. shared ≡ self.now) }
    {
        Ok(Form {
            block: self.block.clone()?,
        })
    }
}
