//! The first line of a report of spans.

ghost use Rattle.std.specs.Prelude.{◌≡◌};
ghost use Rattle.ror_spans.specs.Text.{header_text};

/// The first line of a report.
#[tactic(auto, unfolding(crate::specs::Text::header_text, ror_text::specs::SpacedLines::line_text))]
pub fn header() -> &'static [u8]
    ensures { result.now ≡ header_text }
{
    b"ror-spans 1\n"
}
