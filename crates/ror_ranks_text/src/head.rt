//! The first line of a report of extreme ranks.

ghost use Rattle.std.specs.Prelude.{◌≡◌};
ghost use Rattle.ror_ranks_text.specs.Text.{header_text};

/// The first line of a report.
#[tactic(auto, unfolding(crate::specs::Text::header_text, ror_text::specs::SpacedLines::line_text))]
pub fn header() -> &'static [u8]
    ensures { result.now ≡ header_text }
{
    b"ror-ranks 1\n"
}
