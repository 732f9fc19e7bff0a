//! The parts of replies that are no objects: texts, numbers, truth values, bytes and lists.
ghost use Rattle.std.specs.Prelude.{◌≡◌, OnOk};
ghost use Rattle.sm_reply.specs.Tokens.{items_behind};

use crate::out::Out;
use crate::render::Render;
use base64::engine::general_purpose::STANDARD;
use sm_model::{Bytes, Label, List, Moment, NoMemory, Text, Token};
use std::alloc::Global;

impl Render for Text {
    ghost use Rattle.serde_json.specs.Data.{string};

    ghost shows = { string };

    fn render(&self, _alloc: Global, out: &mut Out) -> Result<(), NoMemory> {
        out.text(self.as_str())?;
        Ok(())
    }
}

impl Render for Token {
    ghost use Rattle.serde_json.specs.Data.{string};

    ghost shows = { string };

    fn render(&self, alloc: Global, out: &mut Out) -> Result<(), NoMemory> {
        self.as_text().render(alloc, out)?;
        Ok(())
    }
}

impl Render for Label {
    ghost use Rattle.serde_json.specs.Data.{string};

    ghost shows = { string };

    fn render(&self, alloc: Global, out: &mut Out) -> Result<(), NoMemory> {
        self.as_text().render(alloc, out)?;
        Ok(())
    }
}

impl Render for Bytes {
    ghost use Rattle.serde_json.specs.Data.{string};
    ghost use Rattle.sm_reply.specs.Shown.{binary};

    ghost shows = { binary };

    fn render(&self, alloc: Global, out: &mut Out) -> Result<(), NoMemory> {
        let text = STANDARD.encode(alloc, self.as_slice())?;
        out.text(text.as_str())?;
        Ok(())
    }
}

impl Render for Moment {
    ghost use Rattle.sm_reply.specs.Shown.{date};

    ghost shows = { date };

    fn render(&self, _alloc: Global, out: &mut Out) -> Result<(), NoMemory> {
        out.number(self.0)?;
        Ok(())
    }
}

impl Render for u32 {
    ghost use Rattle.sm_reply.specs.Shown.{count};

    ghost shows = { count };

    fn render(&self, _alloc: Global, out: &mut Out) -> Result<(), NoMemory> {
        out.number(u64::from(*self))?;
        Ok(())
    }
}

impl Render for bool {
    ghost use Rattle.serde_json.specs.Data.{boolean};

    ghost shows = { boolean };

    fn render(&self, _alloc: Global, out: &mut Out) -> Result<(), NoMemory> {
        out.truth(*self)?;
        Ok(())
    }
}

/// Writes the items of a list, in order.
#[tactic(auto, using(crate::proofs::TokenLemmas::items_more, crate::proofs::TokenLemmas::items_all))]
fn render_items<T: Render>(alloc: Global, out: &mut Out, parts: &[T]) -> Result<(), NoMemory>
    ensures { OnOk result (out.new ≡ items_behind T.shows parts.now out.old) }
{
    for part in parts {
        part.render(alloc, out)?;
    }
    Ok(())
}

impl<T: Render> Render for List<T> {
    ghost use Rattle.serde_json.specs.Data.{array};
    ghost use Rattle.sm_reply.specs.Members.{items_of};

    ghost shows = { λ parts. array (items_of T.shows parts) };

    #[tactic(auto, using(crate::proofs::TokenLemmas::array_written))]
    fn render(&self, alloc: Global, out: &mut Out) -> Result<(), NoMemory> {
        out.begin_array()?;
        render_items(alloc, out, self.as_slice())?;
        out.end_array()?;
        Ok(())
    }
}
