//! The members of objects, each written behind those before it.
ghost use Rattle.std.specs.Prelude.{◌≡◌, OnOk, Some, option_map};
ghost use Rattle.sm_reply.specs.Tokens.{member_behind};

use crate::out::Out;
use crate::render::Render;
use sm_model::NoMemory;
use std::alloc::Global;

/// Writes a member.
pub fn put<T: Render>(alloc: Global, out: &mut Out, name: &str, part: &T) -> Result<(), NoMemory>
    ensures { OnOk result (out.new ≡ member_behind name.now (Some (T.shows part.now)) out.old) }
{
    out.name(name)?;
    part.render(alloc, out)?;
    Ok(())
}

/// Writes a member, where there is something.
pub fn put_if<T: Render>(
    alloc: Global,
    out: &mut Out,
    name: &str,
    part: &Option<T>,
) -> Result<(), NoMemory>
    ensures { OnOk result (out.new ≡ member_behind name.now (option_map T.shows part.now) out.old) }
{
    match part {
        Some(part) => put(alloc, out, name, part),
        None => Ok(()),
    }
}
