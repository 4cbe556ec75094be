//! The names of an application's files.
ghost use Rattle.std.specs.Prelude.{◌≡◌, true, IfOk};
ghost use Rattle.std.specs.List.{list_all};
ghost use Rattle.app_manifest.specs.Names.{is_name_byte, has_two_dots, is_file_name};
ghost use Rattle.app_manifest.specs.Answer.{Names};

use std::alloc::{AllocError, Global};
use std::marker::Model;

/// The name of a file of an application: 1 to 200 characters out of ASCII letters, digits, `.`, `_`, `-` and `/`, of
/// which the first is neither `/` nor `.`, and no `..`.
#[derive(Drop)]
pub struct FileName {
    text: String,
}

impl Model for FileName {
    ghost use Rattle.std.specs.Prelude.{◌≡◌, ℕ, List, true, string_bytes};
    ghost use Rattle.app_manifest.specs.Names.{is_file_name};

    ghost Value = { List ℕ };

    ghost view = { λ name. string_bytes name.text };

    ghost invariant = { λ name. is_file_name (string_bytes name.text) ≡ true };
}

impl FileName {
    /// The name that a text is, or `None` exactly where it is none.
    pub fn of_text(alloc: Global, text: &str) -> Result<Option<FileName>, AllocError>
        ensures { IfOk result (λ name. Names name (is_file_name text.now) text.now) }
    {
        if !is_file_name(text.as_bytes()) {
            return Ok(None);
        }
        let text = String::from_str(alloc, text)?;
        Ok(Some(FileName { text }))
    }

    /// Its text.
    pub fn as_str(&self) -> &str
        ensures text { result.now ≡ self.now }
        ensures name { is_file_name self.now ≡ true }
    {
        self.text.as_str()
    }
}

fn is_name_byte(byte: u8) -> bool
    ensures { result ≡ is_name_byte byte }
{
    byte.is_ascii_alphanumeric() || byte == b'.' || byte == b'_' || byte == b'-' || byte == b'/'
}

fn are_name_bytes(text: &[u8]) -> bool
    ensures { result ≡ list_all is_name_byte text.now }
{
    text.iter().all(|byte| is_name_byte(*byte))
}

// Whether `..` stands somewhere.
fn has_two_dots(text: &[u8]) -> bool
    ensures { result ≡ has_two_dots text.now }
{
    let mut rest = text;
    'bytes: while let Some((first, more)) = rest.split_first() {
        if *first == b'.' && more.first() == Some(&b'.') {
            return true;
        }
        rest = more;
    }
    false
}

// Whether a text is the name of a file.
#[tactic(auto, unfolding(crate::specs::Names::is_file_name))]
fn is_file_name(text: &[u8]) -> bool
    ensures { result ≡ is_file_name text.now }
{
    if text.is_empty() || 200 < text.len() {
        return false;
    }
    are_name_bytes(text) && !matches!(text, [b'.' | b'/', ..]) && !has_two_dots(text)
}
