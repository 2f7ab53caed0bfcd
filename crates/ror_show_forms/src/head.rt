//! The first line of a text of certificates.

ghost use Rattle.std.specs.Prelude.{◌≡◌};
ghost use Rattle.ror_show_forms.specs.CertificateText.{header_text};

/// The first line.
#[tactic(auto, unfolding(crate::specs::CertificateText::header_text, ror_text::specs::SpacedLines::line_text))]
pub fn header() -> &'static [u8]
    ensures { result.now ≡ header_text }
{
    b"ror-why 1\n"
}
