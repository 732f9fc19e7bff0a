//! Locks for one seat and for two.
ghost use Rattle.std.specs.Prelude.{◌≡◌, ◌∷◌, [], IfOk, length};
ghost use Rattle.sm_lock.specs.Handles.{IsIn};

use sm_base::List;
use sm_lock::{BuildRefused, Gate, Pass, Storied};
use std::alloc::Global;

/// The one pass of a list.
fn only<T: Storied>(passes: List<Pass<T>>) -> Pass<T>
    requires { length passes ≡ 1 }
    ensures { passes ≡ result ∷ [] }
{
    let mut passes = passes.into_vec();
    let Some(pass) = passes.pop() else {
        unreachable!()
    };
    pass
}

/// The two passes of a list.
fn both<T: Storied>(passes: List<Pass<T>>) -> (Pass<T>, Pass<T>)
    requires { length passes ≡ 2 }
    ensures { passes ≡ result.0 ∷ result.1 ∷ [] }
{
    let mut passes = passes.into_vec();
    let Some(second) = passes.pop() else {
        unreachable!()
    };
    let Some(first) = passes.pop() else {
        unreachable!()
    };
    (first, second)
}

/// A lock over a value for one seat, and its pass.
pub fn for_one<T: Storied>(alloc: Global, value: T) -> Result<(Gate<T>, Pass<T>), BuildRefused<T>>
    ensures { IfOk result (λ r. IsIn r.0 r.1) }
{
    let (gate, passes) = Gate::build(alloc, value, 1)?;
    let pass = only(passes);
    Ok((gate, pass))
}

/// A lock over a value for two seats, and their passes.
pub fn for_two<T: Storied>(
    alloc: Global,
    value: T,
) -> Result<(Gate<T>, Pass<T>, Pass<T>), BuildRefused<T>>
    ensures { IfOk result (λ r. IsIn r.0 r.1 × IsIn r.0 r.2) }
{
    let (gate, passes) = Gate::build(alloc, value, 2)?;
    let (first, second) = both(passes);
    Ok((gate, first, second))
}
