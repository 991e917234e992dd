//! How the program is used, and its version.

ghost use Rattle.dwexpr_cli.specs.inner.Outputs.{Prints};

use crate::endings::DONE;
use crate::writing::put_text;
use std::io;
use std::io::Write;

const HELP: &str = "usage: dwexpr eval|trace ADDR OFFSET VERSION ORDER HEX < STEPS
       dwexpr ops ADDR OFFSET VERSION ORDER HEX
       dwexpr --help | --version

Decodes and evaluates a DWARF expression.

  eval     evaluates it by the steps in standard input, one a line
  trace    also prints each operation that is done, and the stack after it
  ops      lists its operations

  ADDR     the size of an address in bytes, 1 to 8
  OFFSET   the size of an offset in bytes, 4 or 8
  VERSION  the version of DWARF, 2 to 5
  ORDER    the byte order, le or be
  HEX      the expression's bytes, as pairs of hexadecimal digits, or - for none

The first step is evaluate. Each step after it answers the request that was
printed last, as register generic:0x10 answers register 7 0. The manual has all
steps: man dwexpr.
";

/// The version of the Rust crate and of the package.
const VERSION: &str = "dwexpr 0.1.0\n";

/// Prints how the program is used.
pub(crate) fn print_help<W: Write>(output: &mut W) -> io::Result<u8>
    ensures { Prints (W.contents output.old) (W.contents output.new) HELP.now result }
{
    put_text(output, HELP)?;
    Ok(DONE)
}

/// Prints the version.
pub(crate) fn print_version<W: Write>(output: &mut W) -> io::Result<u8>
    ensures { Prints (W.contents output.old) (W.contents output.new) VERSION.now result }
{
    put_text(output, VERSION)?;
    Ok(DONE)
}
