//! The line on the stream of faults. No memory is taken for it: it may have run out.

ghost use Rattle.std.specs.Prelude.{◌≡◌, ◌++◌, codes};
ghost use Rattle.line_engine.specs.Running.{AppendsPrefix};
ghost use Rattle.plan_program.specs.Stops.{IsViewReported, view_line};
ghost use Rattle.plan_program.specs.declared.stop.ViewStop.TheVariants.{Rows};

use crate::stop::ViewStop;
use itoa::Buffer;
use line_engine::write_whole;
use program_parts::stopped;
use std::io::Write;

/// Writes two texts and a line end, or a prefix of them where the stream fails.
fn tell_line<F: Write>(faults: &mut F, head: &str, rest: &str)
    ensures { AppendsPrefix (F.contents faults.old) (F.contents faults.new) (head.now ++ (rest.now ++ codes "\n")) }
{
    let Ok(()) = write_whole(faults, head.as_bytes()) else {
        return;
    };
    let Ok(()) = write_whole(faults, rest.as_bytes()) else {
        return;
    };
    tell_text(faults, "\n");
}

/// Writes a text, or a prefix of it where the stream fails.
fn tell_text<F: Write>(faults: &mut F, text: &str)
    ensures { AppendsPrefix (F.contents faults.old) (F.contents faults.new) text.now }
{
    let _ = write_whole(faults, text.as_bytes());
}

/// Says which line of the rows is at fault.
fn tell_rows<F: Write>(faults: &mut F, line: usize)
    ensures { AppendsPrefix (F.contents faults.old) (F.contents faults.new) (view_line (Rows line)) }
{
    let mut digits = Buffer::new();
    tell_line(faults, "dispatch: rows fault line ", digits.format(line));
}

/// Says why a view was not made, as one line that begins with `dispatch: `, or a prefix of it where the stream fails, and gives the status.
pub(crate) fn view_stopped<F: Write>(faults: &mut F, stop: ViewStop) -> u8
    ensures { IsViewReported stop (F.contents faults.old) (F.contents faults.new) result }
{
    match stop {
        ViewStop::Parts(stop) => stopped(faults, stop),
        ViewStop::Rows(line) => {
            tell_rows(faults, line);
            3
        }
    }
}
