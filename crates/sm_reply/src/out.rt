//! The text of a reply, written a token after the other.
ghost use Rattle.std.specs.Prelude.{◌≡◌, [], ◌∷◌, ◌++◌, decimal, IfOk, OnOk};
ghost use Rattle.json.specs.Print.{print};
ghost use Rattle.json.specs.Token.{begin_object, end_object, begin_array, end_array, key, string, number, boolean};

use json::Writer;
use sm_model::{Bytes, NoMemory};
use std::alloc::Global;
use std::marker::Model;

/// How many bytes a reply has room for before it grows: enough for one that shows a short value.
const ROOM: usize = 512;

/// What was written until now, which contracts see as the tokens.
#[derive(Drop)]
pub struct Out {
    writer: Writer,
}

impl Model for Out {
    ghost use Rattle.std.specs.Prelude.{◌≡◌, List, []};
    ghost use Rattle.json.specs.Token.{Token, tokens_code};

    ghost Value = { List Token };

    ghost coded = { tokens_code };

    ghost view = { λ out. out.writer.tokens };

    ghost invariant = { λ out. out.writer.before ≡ [] };
}

impl Out {
    /// Nothing was written yet.
    pub fn new(alloc: Global) -> Result<Out, NoMemory>
        ensures { IfOk result (λ out. out ≡ []) }
    {
        Ok(Out {
            writer: Writer::new(Vec::with_capacity(alloc, ROOM)?),
        })
    }

    /// The text that was written.
    pub fn into_bytes(self) -> Bytes
        ensures { result ≡ print self }
    {
        let Out { writer } = self;
        Bytes::new(writer.into_inner())
    }

    pub fn begin_object(&mut self) -> Result<(), NoMemory>
        ensures { OnOk result (self.new ≡ self.old ++ begin_object ∷ []) }
    {
        self.writer.begin_object()?;
        Ok(())
    }

    pub fn end_object(&mut self) -> Result<(), NoMemory>
        ensures { OnOk result (self.new ≡ self.old ++ end_object ∷ []) }
    {
        self.writer.end_object()?;
        Ok(())
    }

    pub fn begin_array(&mut self) -> Result<(), NoMemory>
        ensures { OnOk result (self.new ≡ self.old ++ begin_array ∷ []) }
    {
        self.writer.begin_array()?;
        Ok(())
    }

    pub fn end_array(&mut self) -> Result<(), NoMemory>
        ensures { OnOk result (self.new ≡ self.old ++ end_array ∷ []) }
    {
        self.writer.end_array()?;
        Ok(())
    }

    /// The name of a member.
    pub fn name(&mut self, name: &str) -> Result<(), NoMemory>
        ensures { OnOk result (self.new ≡ self.old ++ key name.now ∷ []) }
    {
        self.writer.key(name)?;
        Ok(())
    }

    pub fn text(&mut self, text: &str) -> Result<(), NoMemory>
        ensures { OnOk result (self.new ≡ self.old ++ string text.now ∷ []) }
    {
        self.writer.string(text)?;
        Ok(())
    }

    pub fn number(&mut self, n: u64) -> Result<(), NoMemory>
        ensures { OnOk result (self.new ≡ self.old ++ number (decimal n) ∷ []) }
    {
        self.writer.u64(n)?;
        Ok(())
    }

    pub fn truth(&mut self, truth: bool) -> Result<(), NoMemory>
        ensures { OnOk result (self.new ≡ self.old ++ boolean truth ∷ []) }
    {
        self.writer.boolean(truth)?;
        Ok(())
    }
}
