//! Gaps: the text lines between two boards.
ghost use Rattle.xsb.specs.inside.Gaps.{ReadsGap};

use crate::lines::Lines;
use crate::names::Gap;
use crate::sizes::line_size;

/// Reads the next text lines, up to a row line or the end.
pub(crate) fn read_gap<'a>(lines: &mut Lines<'a>) -> Gap<'a>
    ensures { ReadsGap lines.old lines.new result }
{
    let mut gap = Gap::new();
    'texts: loop {
        let Some(line) = lines.peek() else {
            break;
        };
        if line_size(line).is_some() {
            break;
        }
        gap = gap.with(line);
        lines.skip();
    }
    gap
}
