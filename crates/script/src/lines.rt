// The lines of a script: where the next one ends, and the numbers in one, with one space between.
ghost use Rattle.std.specs.Prelude.{◌≡◌};
ghost use Rattle.text.specs.Read.{split};
ghost use Rattle.script.specs.lines.Lines.{line_at};
ghost use Rattle.script.specs.lines.Fields.{numbers_of};

use crate::Line;

// The line at a place of a script.
pub fn next_line(s: &[u8], at: usize) -> Line
    ensures { result ≡ line_at s.now at }
{
    if s.len() <= at {
        return Line::Nothing;
    }
    let e = at + text::find(&s[at..], 10);
    if e == s.len() {
        return Line::Open;
    }
    Line::Ended(e)
}

// The numbers of a line, with one space between: so many, and no more. A line has a field always, and the last one is all that is left:
// another space need not be looked for, since what it stands in is no number.
pub fn numbers<const N: usize>(s: &[u8]) -> Option<[u32; N]>
    ensures { result ≡ numbers_of N (split 32 s.now) }
{
    if N == 0 {
        return None;
    }
    let mut found = [0; N];
    let mut pieces = s.splitn(N, |&b| b == 32);
    for x in found.iter_mut() {
        *x = text::number(pieces.next()?)?;
    }
    Some(found)
}
