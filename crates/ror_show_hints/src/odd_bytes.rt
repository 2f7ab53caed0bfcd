//! Bytes in a line that people don't see.

ghost use Rattle.std.specs.Prelude.{◌≤◌, length, IfSome, OnOk};
ghost use Rattle.ror_show_hints.specs.Hints.{Extends};

use crate::page::{Page, Span};
use crate::words::span_of;
use std::alloc::AllocError;

/// A character that looks like another one.
#[derive(Clone, Copy, Debug)]
pub struct Odd {
    pub span: Span,
    kind: OddKind,
}

#[derive(Clone, Copy, Debug)]
enum OddKind {
    Mark,
    NoBreakSpace,
    OtherSpace,
    NoWidth,
    CarriageReturn,
    Control,
}

/// Such a character of a line, if it has one. Which ones are found isn't promised, only that the place is within the line.
pub fn odd_in(line: &[u8]) -> Option<Odd>
    ensures { IfSome result (λ odd. odd.span.from ≤ length line.now) }
{
    if let Some(span) = span_of(line, "\u{feff}".as_bytes()) {
        return odd_at(line, span, OddKind::Mark);
    }
    if let Some(span) = span_of(line, "\u{a0}".as_bytes()) {
        return odd_at(line, span, OddKind::NoBreakSpace);
    }
    if let Some(span) = span_of(line, "\u{202f}".as_bytes()) {
        return odd_at(line, span, OddKind::NoBreakSpace);
    }
    if let Some(span) = span_of(line, "\u{200b}".as_bytes()) {
        return odd_at(line, span, OddKind::NoWidth);
    }
    for space in ["\u{2009}", "\u{2002}", "\u{2003}", "\u{3000}", "\u{2007}"] {
        if let Some(span) = span_of(line, space.as_bytes()) {
            return odd_at(line, span, OddKind::OtherSpace);
        }
    }
    control_in(line)
}

fn odd_at(line: &[u8], span: Span, kind: OddKind) -> Option<Odd>
    ensures { IfSome result (λ odd. odd.span.from ≤ length line.now) }
{
    let span = Span {
        from: span.from.min(line.len()),
        length: span.length,
    };
    Some(Odd { span, kind })
}

/// The first control byte of a line, if it has one.
fn control_in(line: &[u8]) -> Option<Odd>
    ensures { IfSome result (λ odd. odd.span.from ≤ length line.now) }
{
    let from = line.iter().position(|byte| is_hidden(*byte))?;
    let span = Span { from, length: 1 };
    match line.get(from) {
        Some(b'\r') => odd_at(line, span, OddKind::CarriageReturn),
        _ => odd_at(line, span, OddKind::Control),
    }
}

fn is_hidden(byte: u8) -> bool {
    (byte < 0x20 && byte != b'\t') || byte == 0x7F
}

/// Adds what such a character is, and what helps.
pub fn advise_on_odd(page: &mut Page, odd: Odd) -> Result<(), AllocError>
    ensures { OnOk result (Extends page.old.text.items page.new.text.items) }
{
    let said: &[u8] = match odd.kind {
        OddKind::Mark => b"a byte order mark stands here: save as UTF-8 without BOM",
        OddKind::NoBreakSpace =>
            b"a no-break space stands here, which parts no words: write a plain blank",
        OddKind::OtherSpace =>
            b"a wide or thin space stands here, which parts no words: write a plain blank",
        OddKind::NoWidth => b"a character without width stands here: take it out",
        OddKind::CarriageReturn =>
            b"a CR stands within the line: end each line with LF alone, or with CR and LF",
        OddKind::Control => b"a control byte stands here: take it out, and write a plain blank",
    };
    page.likely(&[said])
}
