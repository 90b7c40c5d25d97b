// The words that a run is given.
ghost use Rattle.std.specs.Prelude.{◌≡◌, ◌↔◌, IfOk, IsTrue};

use ff_alg::NoMemory;
use std::alloc::Global;
use std::marker::Model;

/// A list of bytes. Contracts see it as that list.
#[derive(Drop)]
pub struct ByteList {
    pub bytes: Vec<u8>,
}

impl Model for ByteList {
    ghost use Rattle.std.specs.Prelude.{ℕ, List};

    ghost Value = { List ℕ };

    ghost view = { λ list. list.bytes.items };
}

/// A word, as its bytes.
#[derive(Drop)]
pub struct Word {
    pub text: ByteList,
}

impl Word {
    /// The word with the bytes of a text.
    pub fn from_text(alloc: Global, text: &str) -> Result<Word, NoMemory>
        ensures { IfOk result (λ word. word.text ≡ text.now) }
    {
        let bytes = text.as_bytes().to_vec(alloc)?;
        Ok(Word {
            text: ByteList { bytes },
        })
    }

    /// Whether the word has the bytes of a text.
    pub fn is(&self, text: &str) -> bool
        ensures { IsTrue result ↔ (self.now.text ≡ text.now) }
    {
        self.text.bytes.as_slice() == text.as_bytes()
    }
}
