//! Steps of a reader: a test and a value that has to be there, each with its fault.

ghost use Rattle.std.specs.Prelude.{◌≡◌, true, false, MatchResult};

/// The error, where the test is true.
pub fn refuse_if<E: Drop>(test: bool, error: E) -> Result<(), E>
    ensures { MatchResult result (λ _. test ≡ false) (λ e. (test ≡ true) × (e ≡ error)) }
{
    if test { Err(error) } else { Ok(()) }
}

/// The value that there is, else the error.
pub fn need<T, E: Drop>(option: Option<T>, error: E) -> Result<T, E>
    ensures { MatchResult result (λ x. option ≡ Some x) (λ e. (option ≡ None) × (e ≡ error)) }
{
    match option {
        Some(value) => Ok(value),
        None => Err(error),
    }
}
