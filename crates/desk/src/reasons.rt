// Why a box sent what it sent, or nothing, at a close: the line of one node.
ghost use Rattle.std.specs.Prelude.{◌≡◌, ◌≤◌, length};
ghost use Rattle.lists.specs.Bytes.{Put, Tried};
ghost use Rattle.desk.specs.reasons.Reasons.{reason_line, reason};
ghost use Rattle.desk.specs.reasons.Inner.{rule_field};

use node::{Ground, Rule};

// A rule and the space behind it.
fn put_rule(out: &mut [u8], at: usize, r: Rule) -> usize
    ensures { Tried out.old at (rule_field r) result out.new }
{
    match r {
        Rule::RequestMissing => lists::put_bytes(out, at, b"missing "),
        Rule::NoMajority => lists::put_bytes(out, at, b"majority "),
        Rule::OwnLower => lists::put_bytes(out, at, b"lower "),
        Rule::Repeating => lists::put_bytes(out, at, b"repeats "),
        Rule::AtTop => lists::put_bytes(out, at, b"top "),
        Rule::NotDue => lists::put_bytes(out, at, b"determined "),
        Rule::NewSent => lists::put_bytes(out, at, b"sent "),
    }
}

// The line of a node that reports.
fn row(out: &mut [u8], line: u32, number: u32, g: Ground) -> usize
    requires { 44 ≤ length out.old }
    ensures { Put out.old 0 (reason_line line number g) result out.new }
{
    let a = text::put_number(out, 0, line);
    let b = text::put_byte(out, a, 32);
    let c = text::put_number(out, b, number);
    let d = text::put_byte(out, c, 32);
    let e = put_rule(out, d, g.rule);
    let f = text::put_number(out, e, u32::from(g.missing));
    text::put_byte(out, f, 10)
}

// The line of a node that reports; nothing of any other.
pub fn put_reason(out: &mut [u8], at: usize, line: u32, number: u32, t: Option<Ground>) -> usize
    ensures { Tried out.old at (reason line number t) result out.new }
{
    let Some(g) = t else {
        return at;
    };
    let mut b = [0u8; 44];
    let n = row(&mut b, line, number, g);
    lists::put_bytes(out, at, &b[..n])
}
