//! What the program says of words that ask for no board.

ghost use Rattle.std.specs.Prelude.{◌≡◌, ◌≢◌, ◌⊎◌};
ghost use Rattle.command_line.specs.CommandLine.{AppendsPrefix, early_line, status_of};

use crate::form::OptionFault;
use crate::parse::status;
use std::io::{self, Write};

/// Writes a text and flushes it.
fn say<W: Write>(output: &mut W, fault: &OptionFault) -> io::Result<()> {
    write!(output, "{fault}")?;
    output.flush()
}

/// Writes a line, or a prefix of it if the stream fails. (`write_all` does not say what it wrote before it failed.)
fn report<F: Write>(faults: &mut F, line: &[u8])
    ensures { AppendsPrefix (F.contents faults.old) (F.contents faults.new) line.now }
{
    let mut rest = line;
    while !rest.is_empty() {
        match faults.write(rest) {
            Ok(0) => return,
            Ok(n) => rest = &rest[n..],
            Err(_) => return,
        }
    }
}

/// Writes help or the version to `output`, and a fault of usage to `faults`, and gives the status: that of the words, or 3 where help or
/// the version could not be written, which is reported as `dispatch: run fault write`. That memory ran out is reported as
/// `dispatch: open fault`.
pub fn told<W: Write, F: Write>(fault: &OptionFault, output: &mut W, faults: &mut F) -> u8
    ensures status { (result ≡ status_of fault.now) ⊎ ((result ≡ 3) × (status_of fault.now ≡ 0)) }
    ensures unwritten { status_of fault.now ≢ 0 → W.contents output.new ≡ W.contents output.old }
    ensures untold { result ≡ 0 → F.contents faults.new ≡ F.contents faults.old }
    ensures reported { result ≡ 3 → AppendsPrefix (F.contents faults.old) (F.contents faults.new) (early_line fault.now) }
{
    match fault {
        OptionFault::Help(_) => match say(output, fault) {
            Ok(()) => status(fault),
            Err(_) => {
                report(faults, "dispatch: run fault write\n".as_bytes());
                3
            }
        },
        OptionFault::Usage(_) => {
            let _ = write!(faults, "{fault}");
            status(fault)
        }
        OptionFault::NoMemory => {
            report(faults, "dispatch: open fault\n".as_bytes());
            status(fault)
        }
    }
}
