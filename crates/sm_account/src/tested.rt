//! A request whose forms were tested.
ghost use Rattle.std.specs.Prelude.{◌≡◌, Some};
ghost use Rattle.sm_forms.specs.Forms.{forms_of};
ghost use Rattle.sm_model.specs.declared.why.Why.TheVariants.{Memory};

use sm_core::forms;
use sm_model::{Request, Why};
use std::alloc::Global;

/// A request, and the first of its forms that fails, or none. The tests need no rows, so they are made before the
/// account is held, and no other connection waits for them.
#[derive(Drop)]
pub struct TestedRequest<'a> {
    pub request: &'a Request,
    pub malformed: Option<Why>,
    ghost tested: { (malformed ≡ Some Memory → ⊥) → malformed ≡ forms_of request.now },
}

impl<'a> TestedRequest<'a> {
    /// Tests the forms of a request.
    pub fn new(alloc: Global, request: &'a Request) -> TestedRequest<'a>
        ensures { result.request.now ≡ request.now }
    {
        TestedRequest {
            request,
            malformed: forms(alloc, request),
        }
    }
}
