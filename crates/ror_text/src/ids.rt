//! What may name a criterion or an alternative.

ghost use Rattle.std.specs.Prelude.{◌≡◌, true, false, MatchOption};
ghost use Rattle.ror_text.specs.Ids as spec;

use crate::lines::{has_control_byte, is_utf8};

/// Whether a word is an id: 1 to 64 bytes of UTF-8, none below 0x21 and none 0x7F, the first
/// neither `@` nor `#`.
#[tactic(auto, unfolding(crate::specs::Ids::is_id))]
pub fn is_id(word: &[u8]) -> bool
    ensures { result ≡ spec.is_id word.now }
{
    if word.is_empty() {
        return false;
    }
    if word.len() > 64 {
        return false;
    }
    if !is_utf8(word) {
        return false;
    }
    if has_control_byte(word) {
        return false;
    }
    if word[0] == b'@' {
        return false;
    }
    word[0] != b'#'
}

/// The text of a word that is an id.
pub fn id_text(word: &[u8]) -> Option<&str>
    ensures { MatchOption result (spec.is_id word.now ≡ false)
        (λ text. (spec.is_id word.now ≡ true) × (text.now ≡ word.now)) }
{
    if !is_id(word) {
        return None;
    }
    match std::str::from_utf8(word) {
        Ok(text) => Some(text),
        Err(_) => None,
    }
}
