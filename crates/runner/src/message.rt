ghost use Rattle.std.specs.Prelude.{◌≡◌, [], ◌∷◌, IfOk};

use sk_types::{Bytes, Handle, Kind, NoMemory, Session};
use std::alloc::Global;
use std::marker::Model;

/// The data of a message, which so far are texts; contracts see their list.
#[derive(Drop)]
pub struct Body {
    texts: Vec<Bytes>,
}

impl Model for Body {
    ghost use Rattle.std.specs.Prelude.{List, ℕ};

    ghost Value = { List (List ℕ) };

    ghost view = { λ b. b.texts.items };
}

impl Body {
    pub fn new(alloc: Global) -> Body
        ensures { result ≡ [] }
    {
        Body {
            texts: Vec::new(alloc),
        }
    }

    /// A body of one text.
    pub fn of_text(alloc: Global, text: Bytes) -> Result<Body, NoMemory>
        ensures { IfOk result (λ body. body ≡ text ∷ []) }
    {
        let mut texts = Vec::new(alloc);
        texts.push(text)?;
        Ok(Body { texts })
    }

    pub fn as_slice(&self) -> &[Bytes]
        ensures { result.now ≡ self.now }
    {
        self.texts.as_slice()
    }
}

/// A message (`struct skynet_message` of skynet_mq.h).
#[derive(Drop)]
pub struct Message {
    /// The service that sent it, or 0 where none did.
    pub source: Handle,
    pub session: Session,
    pub kind: Kind,
    pub body: Body,
}
