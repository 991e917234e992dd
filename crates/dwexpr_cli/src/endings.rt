//! The lines that end a run of the program.

ghost use Rattle.std.specs.Prelude.{◌<◌, ◌-◌, ◌^◌};
ghost use Rattle.dwexpr_cli.specs.Endings as endings;
ghost use Rattle.dwexpr_cli.specs.inner.Outputs.{WritesEnding};

use crate::writing::{Word, put_line};
use std::io;
use std::io::Write;

/// The status if all was done.
pub(crate) const DONE: u8 = 0;

/// The status if something failed.
pub(crate) const FAILED: u8 = 1;

/// The status if the words or the lines are wrong.
const MISUSED: u8 = 2;

/// Prints that the words are wrong.
pub(crate) fn bad_words<W: Write>(output: &mut W) -> io::Result<u8>
    ensures { WritesEnding (W.contents output.old) (W.contents output.new) endings.bad_words result }
{
    put_line(output, "bad words", &[])?;
    Ok(MISUSED)
}

/// Prints that memory was refused.
pub(crate) fn no_memory<W: Write>(output: &mut W) -> io::Result<u8>
    ensures { WritesEnding (W.contents output.old) (W.contents output.new) endings.no_memory result }
{
    put_line(output, "no memory", &[])?;
    Ok(FAILED)
}

/// Prints that the line with this number is no step.
pub(crate) fn bad_step<W: Write>(output: &mut W, number: usize) -> io::Result<u8>
    ensures { WritesEnding (W.contents output.old) (W.contents output.new) (endings.bad_step number)
        result }
{
    put_line(output, "bad step", &[Word::Number(number as u64)])?;
    Ok(MISUSED)
}

/// Prints that the step at this index, from 0, isn't allowed.
pub(crate) fn misplaced_step<W: Write>(output: &mut W, index: usize) -> io::Result<u8>
    requires { index < 2 ^ 64 - 1 }
    ensures { WritesEnding (W.contents output.old) (W.contents output.new)
        (endings.misplaced_step index)
        result }
{
    put_line(output, "misplaced", &[Word::Number(index as u64 + 1)])?;
    Ok(MISUSED)
}
