//! What stands before and behind the marks.

ghost use Rattle.std.specs.Prelude.{◌≡◌, ◌++◌, ◌-◌, ◌≤◌, All, OnOk, length, string_bytes};
ghost use Rattle.plan_picture.specs.Drawn.{IsLayout};
ghost use Rattle.plan_picture.specs.Texts.{size_text, opening_text, sums_line, heading_text, lanes_heading, head_text, end_text};

use crate::layout::Layout;
use crate::style::{HEADINGS, STYLE};
use limits::MOST_VEHICLES;
use plan_marks::{push_escaped, push_text};
use plan_sums::{Row, Tour, cost, open_count, push_filled};
use std::alloc::AllocError;

/// Appends the size.
fn push_size(out: &mut String, layout: &Layout) -> Result<(), AllocError>
    requires { IsLayout layout.now }
    ensures { OnOk result (string_bytes out.new ≡ string_bytes out.old ++ size_text layout.now) }
{
    push_filled(
        out,
        &[
            "<svg xmlns=\"http://www.w3.org/2000/svg\" width=\"1280\" height=\"",
            "\" viewBox=\"0 0 12800 ",
        ],
        &[(layout.bottom + 400) / 10, layout.bottom + 400],
        "\">\n<title>",
    )
}

/// Appends the size, and the name as the title.
fn push_opening(out: &mut String, layout: &Layout, name: &str) -> Result<(), AllocError>
    requires { IsLayout layout.now }
    ensures { OnOk result (string_bytes out.new ≡ string_bytes out.old ++ opening_text layout.now name.now) }
{
    push_size(out, layout)?;
    push_escaped(out, name)?;
    push_text(out, "</title>\n")
}

/// Appends what the plan costs, and how many customers are planned, and how many are not.
fn push_sums(
    out: &mut String,
    planned: usize,
    unplanned: usize,
    cost: u64,
) -> Result<(), AllocError>
    ensures { OnOk result (string_bytes out.new ≡ string_bytes out.old ++ sums_line planned unplanned cost) }
{
    push_filled(
        out,
        &[
            "</text>\n<text class=\"m\" x=\"200\" y=\"700\">cost ",
            ".",
            ", ",
            " customers planned, ",
        ],
        &[cost / 10, cost % 10, planned as u64, unplanned as u64],
        " not planned</text>\n",
    )
}

/// Appends the name as the heading, what the plan costs, and how many customers are planned and are not.
fn push_heading(
    out: &mut String,
    name: &str,
    planned: usize,
    unplanned: usize,
    cost: u64,
) -> Result<(), AllocError>
    ensures { OnOk result (string_bytes out.new ≡ string_bytes out.old ++ heading_text name.now planned unplanned cost) }
{
    push_text(out, "<text class=\"k\" x=\"200\" y=\"420\">")?;
    push_escaped(out, name)?;
    push_sums(out, planned, unplanned, cost)
}

/// Appends the headings of the timelines, at a height.
fn push_lanes_heading(out: &mut String, y: u64) -> Result<(), AllocError>
    ensures { OnOk result (string_bytes out.new ≡ string_bytes out.old ++ lanes_heading y) }
{
    push_filled(
        out,
        &[
            "<text class=\"e\" x=\"650\" y=\"",
            "\">vehicle</text>\n<text class=\"e\" x=\"1350\" y=\"",
        ],
        &[y, y],
        "\">customer</text>\n",
    )
}

/// Appends all that stands before the marks of the picture of a listing with these sums: the name as the title and as the heading, the colours
/// and the headings.
pub fn push_head(
    out: &mut String,
    layout: &Layout,
    name: &str,
    rows: &[Row],
    tours: &[Tour],
) -> Result<(), AllocError>
    requires layout { IsLayout layout.now }
    requires few { length tours.now ≤ MOST_VEHICLES }
    requires small { All (λ tour. tour.distance ≤ 1000141421342) tours.now }
    ensures { OnOk result (string_bytes out.new ≡ string_bytes out.old ++ head_text layout.now name.now rows.now tours.now) }
{
    let unplanned = open_count(rows);
    push_opening(out, layout, name)?;
    push_text(out, STYLE)?;
    push_heading(out, name, rows.len() - unplanned, unplanned, cost(tours))?;
    push_text(out, HEADINGS)?;
    push_lanes_heading(out, layout.top.saturating_sub(100))
}

/// Appends what stands behind the marks.
pub fn push_end(out: &mut String) -> Result<(), AllocError>
    ensures { OnOk result (string_bytes out.new ≡ string_bytes out.old ++ end_text) }
{
    out.push_str("</svg>\n")
}
