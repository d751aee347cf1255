//! Forms that are the same again.

ghost use Rattle.std.specs.Prelude.{◌≡◌, IfOk};
ghost use Rattle.certificate.specs.View as view;

use crate::tree::Form;
use std::alloc::AllocError;

/// The same form once more. It shares its terms with this one.
pub fn copy_of_form(form: &Form) -> Result<Form, AllocError>
    ensures { IfOk result (λ copy. view.form copy ≡ view.form form.now) }
{
    let constant = form.constant;
    let terms = form.terms.copy()?;
    Ok(Form { terms, constant })
}
