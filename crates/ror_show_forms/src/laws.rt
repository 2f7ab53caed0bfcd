//! Each function here states one law, and does nothing.

ghost use Rattle.ror_show_forms.specs.CertificateLaws.{TextsAreRead, ProvedAreReducts, OneFirstUnproved, ProvedAreNotRejected, FoundAreProved, WrittenAreAccepted};
ghost use Rattle.ror_show_forms.specs.CertificateText.{header_text};
ghost use Rattle.ror_show_forms.specs.CertificateTextLaws.{CertificatesAreTheirTexts, CertificatesBeginWithReduct, CertificatesAreUtf8, TextsHaveOneList, TextsAreUtf8, CertificatesFailFirst};
ghost use Rattle.ror_show_forms.specs.CsvLaws.{ListedIsKnown};
ghost use Rattle.std.specs.Str.{IsUtf8};

/// What is listed, with a line of comma-separated values, is what is known of different alternatives.
pub fn listed_is_known()
    ensures { ListedIsKnown }
{}

/// A certificate is read exactly where its text stands and no part of its last answer follows: what was written is read again, and
/// what is read was so written.
pub fn certificates_read_back()
    ensures { CertificatesAreTheirTexts }
{}

/// Bytes are the text of one list of certificates at most.
pub fn one_spelling()
    ensures { TextsHaveOneList }
{}

/// The text of a certificate begins with its first word, and it, the first line and the text of a list are UTF-8.
pub fn texts()
    ensures begin { CertificatesBeginWithReduct }
    ensures utf8 { CertificatesAreUtf8 }
    ensures header { IsUtf8 header_text }
    ensures list { TextsAreUtf8 }
{}

/// Bytes are refused as a certificate exactly with the fault of the first faulty word of the first faulty line.
pub fn the_first_fault_is_given()
    ensures { CertificatesFailFirst }
{}

/// Bytes are read as certificates exactly where they are their text.
pub fn texts_are_read()
    ensures { TextsAreRead }
{}

/// Over lines that are ready, the statements of a proved certificate carry the answer that it names, and none of them can be spared.
pub fn proved_are_reducts()
    ensures { ProvedAreReducts }
{}

/// Certificates are rejected for one thing at most, and where all are proved for none.
pub fn one_rejection()
    ensures one { OneFirstUnproved }
    ensures none { ProvedAreNotRejected }
{}

/// Certificates that are found over lines whose numbers rise stand in order, and a check accepts each.
pub fn found_are_proved()
    ensures { FoundAreProved }
{}

/// What is written of what is found of some of a report's lines is read again, where it isn't too long, and each certificate is proved
/// over all lines: a check accepts it.
pub fn written_are_accepted()
    ensures { WrittenAreAccepted }
{}
