//! Strings with room for any name, made before they are wanted.
ghost use Rattle.std.specs.Prelude.{◌≡◌, ◌≤◌, length, string_bytes, IfOk};

use io_ports::NoMemory;
use std::alloc::Global;
use std::marker::Model;

/// The longest name that a claim may be on, in bytes: the limit of Cloud Storage on object names.
pub const LONGEST_NAME: usize = 1024;

/// An empty string with room for any name, made before it is wanted.
#[derive(Drop)]
pub struct NameBuffer {
    text: String,
}

impl Model for NameBuffer {
    ghost use Rattle.std.specs.Prelude.{◌≡◌, ℕ, ◌≤◌, string_len, string_bytes, []};
    ghost use Rattle.std.specs.String.{string_capacity};

    ghost Value = { ℕ };

    ghost view = { λ b. string_capacity b.text };

    ghost invariant = { λ b. (1024 ≤ string_capacity b.text) × (string_len b.text ≡ 0) × (string_bytes b.text ≡ []) };
}

impl NameBuffer {
    /// A buffer. `NoMemory` where memory for it was refused.
    pub fn new(alloc: Global) -> Result<NameBuffer, NoMemory>
        ensures ok { IfOk result (λ buffer. 1024 ≤ buffer) }
    {
        let text = String::with_capacity(alloc, LONGEST_NAME)?;
        Ok(NameBuffer { text })
    }

    /// The buffer's string, with a name copied into it: no memory is asked for.
    pub fn hold(self, name: &str) -> String
        requires { length name.now ≤ 1024 }
        ensures bytes { string_bytes result ≡ name.now }
    {
        let NameBuffer { mut text } = self;
        text.push_str(name).unwrap();
        text
    }
}
