ghost use Rattle.std.specs.Prelude.{◌≡◌, [], ◌∷◌, ◌++◌, OnOk, OnErr};

use sk_types::{Bytes, NoMemory};
use std::alloc::Global;
use std::collections::VecDeque;
use std::marker::Model;

/// A script that logs texts, in order; contracts see their list.
#[derive(Drop)]
pub struct LogScript {
    texts: VecDeque<Bytes>,
}

impl Model for LogScript {
    ghost use Rattle.std.specs.Prelude.{List, ℕ};

    ghost Value = { List (List ℕ) };

    ghost view = { λ s. s.texts.items };
}

impl LogScript {
    pub fn new(alloc: Global) -> LogScript
        ensures { result ≡ [] }
    {
        LogScript {
            texts: VecDeque::new(alloc),
        }
    }

    pub fn push(&mut self, text: Bytes) -> Result<(), NoMemory>
        ensures ok { OnOk result (self.new ≡ self.old ++ text ∷ []) }
        ensures err { OnErr result (self.new ≡ self.old) }
    {
        self.texts.push_back(text)?;
        Ok(())
    }

    /// The texts, the first at the front.
    pub fn into_texts(self) -> VecDeque<Bytes>
        ensures { result.items ≡ self }
    {
        let LogScript { texts } = self;
        texts
    }
}
