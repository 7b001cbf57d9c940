//! Names of boards, which are lines of the gaps between boards.
ghost use Rattle.std.specs.Prelude.{◌≡◌, List, ℕ, option_copied, ◌∷◌, [], ◌++◌};
ghost use Rattle.xsb.specs.Boards.{cut_end};
ghost use Rattle.xsb.specs.Names.{after_prefix, trimmed, cut_start, is_blank};

use crate::bytes::{SPACE, TAB};

/// The beginning of a line that names the board after it.
pub(crate) const COMMENT: &[u8] = b";";

/// The beginning of a line that names the board before it.
pub(crate) const TITLE: &[u8] = b"Title:";

/// The bytes after a prefix, if they begin with it.
fn after_prefix<'a>(prefix: &[u8], bytes: &'a [u8]) -> Option<&'a [u8]>
    ensures { option_copied result ≡ after_prefix prefix.now bytes.now }
{
    if bytes.starts_with(prefix) {
        return Some(&bytes[prefix.len()..]);
    }
    None
}

/// Whether a byte is removed at both ends of a name.
fn is_blank(byte: u8) -> bool
    ensures { result ≡ is_blank byte }
{
    byte == SPACE || byte == TAB
}

/// The bytes without spaces and tabs at the beginning.
fn trim_start(bytes: &[u8]) -> &[u8]
    ensures { result.now ≡ cut_start is_blank bytes.now }
{
    let mut rest = bytes;
    while let Some((first, after)) = rest.split_first() {
        if !is_blank(*first) {
            break;
        }
        rest = after;
    }
    rest
}

/// The bytes without spaces and tabs at the end.
fn trim_end(bytes: &[u8]) -> &[u8]
    ensures { result.now ≡ cut_end is_blank bytes.now }
{
    let mut rest = bytes;
    while let Some((last, before)) = rest.split_last() {
        if !is_blank(*last) {
            break;
        }
        rest = before;
    }
    rest
}

/// The bytes without spaces and tabs at both ends.
fn trim(bytes: &[u8]) -> &[u8]
    ensures { result.now ≡ trimmed bytes.now }
{
    trim_end(trim_start(bytes))
}

/// The names that the text lines between two boards give.
#[derive(Clone, Copy)]
pub(crate) struct Gap<'a> {
    /// The bytes after the `;` of the last line that begins with it: the name of the board after the gap.
    comment: Option<&'a [u8]>,
    /// The bytes after the `Title:` of the first line that begins with it: the name of the board before the gap, if no
    /// comment names it.
    title: Option<&'a [u8]>,
}

impl<'a> Gap<'a> {
    ghost use Rattle.xsb.specs.inside.Gaps.{IsGap, IsNameBetween};

    /// A gap without a line.
    pub(crate) fn new() -> Gap<'a>
        ensures { IsGap result [] }
    {
        Gap {
            comment: None,
            title: None,
        }
    }

    /// The gap with one more text line.
    pub(crate) fn with(self, line: &'a [u8]) -> Gap<'a>
        ensures { (lines : List (List ℕ)) → IsGap self.entry lines → IsGap result (lines ++ line.now ∷ []) }
    {
        Gap {
            comment: after_prefix(COMMENT, line).or(self.comment),
            title: self.title.or(after_prefix(TITLE, line)),
        }
    }

    /// The name of a board between this gap and the one after it.
    pub(crate) fn name_with(&self, after: &Gap<'a>) -> &'a [u8]
        ensures { IsNameBetween self.now after.now result.now }
    {
        trim(self.comment.or(after.title).unwrap_or(&[]))
    }
}
