//! How a page of advice ends.

ghost use Rattle.ror_show_advice.specs.Apart.{StandsApart};

use ror_show_hints::Page;

/// The text of a page of advice, which an empty line begins; of any other nothing.
pub(crate) fn apart(page: Page) -> Vec<u8>
    ensures { StandsApart result.items }
{
    let Page { alloc, text } = page;
    match text.as_slice() {
        [b'\n', ..] => text,
        _ => Vec::new(alloc),
    }
}
