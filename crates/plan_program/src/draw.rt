//! The picture, written mark by mark.

ghost use Rattle.std.specs.Prelude.{◌≡◌, ◌≤◌, ◌++◌, [], All, IfOk, IfErr, OnErr, OnOk, length, string_bytes};
ghost use Rattle.std.specs.List.{flat_map};
ghost use Rattle.std.specs.Io.KnownBytes.{Appends};
ghost use Rattle.line_engine.specs.Running.{AppendsPrefix};
ghost use Rattle.plan_sums.specs.Rows.{AreRows};
ghost use Rattle.plan_sums.specs.Tours.{tours_of};
ghost use Rattle.plan_picture.specs.Texts.{mark_text, svg_text};
ghost use Rattle.plan_program.specs.Holding.{IsHeld};
ghost use Rattle.plan_program.specs.Stops.{IsWriting};

use crate::stop::ViewStop;
use limits::MOST_VEHICLES;
use line_engine::{RunFault, write_whole};
use plan_marks::Mark;
use plan_picture::{Layout, picture, push_end, push_head, push_mark};
use plan_sums::{Roads, Row, Tour};
use std::alloc::Global;
use std::io::Write;

/// From this many bytes on the text is written before more marks are.
const FULL_BYTES: usize = 65_536;

/// Writes the text that is held.
fn hand_on<W: Write>(writer: &mut W, text: &mut String) -> Result<(), RunFault>
    ensures ok { OnOk result (Appends (W.contents writer.old) (W.contents writer.new) (string_bytes text.old)) }
    ensures none { OnOk result (string_bytes text.new ≡ []) }
    ensures err { OnErr result (AppendsPrefix (W.contents writer.old) (W.contents writer.new) (string_bytes text.old)) }
    ensures kind { IfErr result (λ e. e ≡ RunFault.Write) }
{
    write_whole(writer, text.as_bytes())?;
    text.clear();
    Ok(())
}

/// Writes it where it is long.
fn hand_on_full<W: Write>(writer: &mut W, text: &mut String) -> Result<(), RunFault>
    ensures ok { OnOk result (IsHeld (W.contents writer.old) (W.contents writer.new) (string_bytes text.new) (string_bytes text.old)) }
    ensures err { OnErr result (AppendsPrefix (W.contents writer.old) (W.contents writer.new) (string_bytes text.old)) }
    ensures kind { IfErr result (λ e. e ≡ RunFault.Write) }
{
    if text.len() < FULL_BYTES {
        return Ok(());
    }
    hand_on(writer, text)
}

/// Writes marks, and holds the last of their text.
fn write_marks<W: Write>(writer: &mut W, text: &mut String, marks: &[Mark]) -> Result<(), ViewStop>
    ensures ok { OnOk result (IsHeld (W.contents writer.old) (W.contents writer.new) (string_bytes text.new)
        (string_bytes text.old ++ flat_map mark_text marks.now)) }
    ensures part { OnErr result (AppendsPrefix (W.contents writer.old) (W.contents writer.new)
        (string_bytes text.old ++ flat_map mark_text marks.now)) }
    ensures err { IfErr result IsWriting }
{
    for mark in marks {
        push_mark(text, mark)?;
        hand_on_full(writer, text)?;
    }
    Ok(())
}

/// Writes the picture of a listing, of which the sums are known.
pub(crate) fn write_picture<W: Write>(
    alloc: Global,
    roads: &Roads,
    rows: &[Row],
    tours: &[Tour],
    writer: &mut W,
) -> Result<(), ViewStop>
    requires rows { AreRows roads.now rows.now }
    requires tours { tours.now ≡ tours_of roads.now rows.now }
    requires few { length tours.now ≤ MOST_VEHICLES }
    requires small { All (λ tour. tour.distance ≤ 1000141421342) tours.now }
    ensures ok { OnOk result (Appends (W.contents writer.old) (W.contents writer.new) (svg_text roads.now rows.now)) }
    ensures part { OnErr result (AppendsPrefix (W.contents writer.old) (W.contents writer.new) (svg_text roads.now rows.now)) }
    ensures err { IfErr result IsWriting }
{
    let layout = Layout::new(roads, rows, tours);
    let marks = picture(alloc, roads, &layout, rows, tours)?;
    let mut text = String::new(alloc);
    push_head(&mut text, &layout, roads.name(), rows, tours)?;
    write_marks(writer, &mut text, marks.as_slice())?;
    push_end(&mut text)?;
    hand_on(writer, &mut text)?;
    Ok(())
}
