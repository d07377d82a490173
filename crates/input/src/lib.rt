// Standard input of the desk's programs: a script, read to the start of a lent buffer.
#![tactic(auto)]

ghost use Rattle.input.specs.Counts.{IsPrefixLen, came};

use std::env::{Env, FillError};
use std::io::{Print, Read};

// Why there is nothing to run: the program was given arguments, or a read failed before the input ended, behind so many bytes.
#[derive(Clone, Copy, Debug, PartialEq, Eq)]
pub enum InputError {
    Arguments,
    Unread(usize),
}

// Reads an input until it ends, the buffer is full, or a read fails: how many bytes stand at the start of the buffer, after a failure too.
// Which bytes came, no contract of a read says.
fn read_input<R: Read>(from: &mut R, buffer: &mut [u8]) -> Result<usize, InputError>
    ensures { IsPrefixLen (came result) buffer.new }
{
    let mut n = 0usize;
    while n < buffer.len() {
        let Ok(more) = from.read(&mut buffer[n..]) else {
            return Err(InputError::Unread(n));
        };
        if more == 0 {
            break;
        }
        n += more;
    }
    Ok(n)
}

// Whether a program was given arguments: one stands behind its name. It need not fit anywhere.
fn has_arguments(rt: &HostRuntime) -> bool {
    !matches!(rt.arg(1, &mut []), Err(FillError::NotPresent))
}

// The script of a program that takes no arguments, from standard input: how many bytes it has. It writes `usage` to standard error if there
// are arguments, and `unread` if a read failed.
pub fn script(
    rt: &HostRuntime,
    buffer: &mut [u8],
    usage: &[u8],
    unread: &[u8],
) -> Result<usize, InputError>
    ensures { IsPrefixLen (came result) buffer.new }
{
    if has_arguments(rt) {
        let _ = rt.stderr().write_all(usage);
        return Err(InputError::Arguments);
    }
    let input = read_input(&mut rt.stdin(), buffer);
    if input.is_err() {
        let _ = rt.stderr().write_all(unread);
    }
    input
}
