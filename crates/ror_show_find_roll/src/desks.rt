//! Which desks are meant.

ghost use Rattle.std.specs.Prelude.{◌≡◌};
ghost use Rattle.std.specs.Option.{option_map};
ghost use Rattle.ror_show_find_roll.specs.Choosing as spec;

/// Whether a desk of this name is meant: with or without the sign of a desk before it, and each desk where none is meant.
pub fn is_desk(meant: Option<&str>, name: &str) -> bool
    ensures { result ≡ spec.is_desk (option_map (λ word. word.now) meant.entry) name.now }
{
    match meant {
        Some(word) => word == name || has_sign_before(word, name),
        None => true,
    }
}

/// Whether the word is the name with the sign of a desk before it.
fn has_sign_before(word: &str, name: &str) -> bool
    ensures { result ≡ spec.has_sign_before word.now name.now }
{
    match word.as_bytes().split_first() {
        Some((byte, rest)) => *byte == b'@' && rest == name.as_bytes(),
        None => false,
    }
}
