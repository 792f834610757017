//! The lines on the stream of faults. They are written part by part, so that no memory is taken for them: it may have run out.

ghost use Rattle.std.specs.Prelude.{◌≡◌, ◌++◌, codes};
ghost use Rattle.line_engine.specs.Running.{AppendsPrefix};
ghost use Rattle.program_parts.specs.Streams.{instance_head, path_line, stop_line};
ghost use Rattle.program_parts.specs.declared.stop.Stop.TheVariants as stops;

use crate::stop::Stop;
use itoa::Buffer;
use line_engine::{RunFault, write_whole};
use solomon_reader::Kind;
use std::io::Write;

/// What stands before the number of a line at which this check of an instance fails.
fn instance_head(kind: Kind) -> &'static str
    ensures { result.now ≡ instance_head kind }
{
    match kind {
        Kind::Name => "dispatch: instance fault name line ",
        Kind::Vehicle => "dispatch: instance fault vehicle line ",
        Kind::Fleet => "dispatch: instance fault fleet line ",
        Kind::Customer => "dispatch: instance fault customer line ",
        Kind::Heading => "dispatch: instance fault heading line ",
        Kind::Fields => "dispatch: instance fault fields line ",
        Kind::Number => "dispatch: instance fault number line ",
        Kind::Order => "dispatch: instance fault order line ",
        Kind::Window => "dispatch: instance fault window line ",
        Kind::Depot => "dispatch: instance fault depot line ",
        Kind::Count => "dispatch: instance fault count line ",
        Kind::End => "dispatch: instance fault end line ",
    }
}

/// Writes a text, or a prefix of it where the stream fails.
fn tell_text<F: Write>(faults: &mut F, text: &str)
    ensures { AppendsPrefix (F.contents faults.old) (F.contents faults.new) text.now }
{
    let _ = write_whole(faults, text.as_bytes());
}

/// The same of two texts and a line end.
fn tell_line<F: Write>(faults: &mut F, head: &str, rest: &str)
    ensures { AppendsPrefix (F.contents faults.old) (F.contents faults.new) (head.now ++ (rest.now ++ codes "\n")) }
{
    let Ok(()) = write_whole(faults, head.as_bytes()) else {
        return;
    };
    let Ok(()) = write_whole(faults, rest.as_bytes()) else {
        return;
    };
    tell_text(faults, "\n");
}

/// The same of an instance's fault.
fn tell_instance<F: Write>(faults: &mut F, kind: Kind, line: usize)
    ensures { AppendsPrefix (F.contents faults.old) (F.contents faults.new) (stop_line (stops.Instance kind line)) }
{
    let mut digits = Buffer::new();
    tell_line(faults, instance_head(kind), digits.format(line));
}

/// The same of a path that cannot be read.
pub(crate) fn tell_path<F: Write>(faults: &mut F, path: &str)
    ensures { AppendsPrefix (F.contents faults.old) (F.contents faults.new) (path_line path.now) }
{
    tell_line(faults, "dispatch: cannot read ", path);
}

/// The same of a run that ended early.
pub(crate) fn tell<F: Write>(faults: &mut F, stop: Stop)
    ensures { AppendsPrefix (F.contents faults.old) (F.contents faults.new) (stop_line stop) }
{
    match stop {
        Stop::Instance(kind, line) => tell_instance(faults, kind, line),
        Stop::Open => tell_text(faults, "dispatch: open fault\n"),
        Stop::Run(RunFault::Read) => tell_text(faults, "dispatch: run fault read\n"),
        Stop::Run(RunFault::Write) => tell_text(faults, "dispatch: run fault write\n"),
        Stop::Run(RunFault::LongLine) => tell_text(faults, "dispatch: run fault long-line\n"),
        Stop::Run(RunFault::NoMemory) => tell_text(faults, "dispatch: run fault no-memory\n"),
    }
}
