//! Reading an instance.

ghost use Rattle.std.specs.Prelude.{◌≡◌, ℕ, map, OnOk, IfOk, IfErr, Ok, string_bytes};
ghost use Rattle.solomon_reader.specs.Cuts.{full_left, number_after};
ghost use Rattle.solomon_reader.specs.Checks.{fault, tail, checks, IsFirstFailedCheck, heading_test};
ghost use Rattle.solomon_reader.specs.declared.fault.Kind.{Kind};
ghost use Rattle.solomon_reader.specs.Reading.{Gives, read_of, IsFault};
ghost use Rattle.solomon_reader.specs.Instances.{view, IsInstance, IsSound, Plain};
ghost use Rattle.solomon_reader.specs.Parts.{number_field, fleet_of, row_fields_of, row_of, name_read, heading_read, fleet_read, rows_read};

use crate::fault::{Kind, ReadFault};
use crate::fields::{is_heading, is_name, number_in, trimmed};
use crate::instance::{Instance, Node};
use crate::lines::Lines;
use limits::{MOST_NODES, MOST_VEHICLES};
use std::alloc::Global;

/// The greatest number of nodes, including the depot.
const MAX_NODES: usize = MOST_NODES as usize;

/// How many words of a heading line matter at most.
const HEADING_WORDS: usize = 2;

/// How many fields the line of the fleet has.
const FLEET_FIELDS: usize = 2;

/// How many fields a node row has.
const ROW_FIELDS: usize = 7;

fn number_at(word: &[u8], line: usize) -> Result<u32, ReadFault>
    ensures { Gives (λ n. n) result (number_field word.now line) }
{
    number_in(word).ok_or(ReadFault::At(Kind::Number, line))
}

/// The words of the current line, in a buffer that is kept from line to line.
type Words<'a> = Vec<&'a [u8]>;

fn name<'a>(
    alloc: Global,
    lines: &mut Lines<'a>,
    words: &mut Words<'a>,
) -> Result<String, ReadFault>
    ensures read { Gives (λ name. string_bytes name) result
        (name_read (number_after lines.old.number lines.old.rest.now) (full_left lines.old.number lines.old.rest.now)) }
    ensures rest { OnOk result (full_left lines.new.number lines.new.rest.now ≡ tail (full_left lines.old.number lines.old.rest.now)) }
    ensures count { OnOk result (number_after lines.new.number lines.new.rest.now ≡ number_after lines.old.number lines.old.rest.now) }
{
    let Some(line) = lines.next_full(words, 1)? else {
        return Err(ReadFault::At(Kind::Name, lines.number));
    };
    let name = trimmed(line.text);
    if !is_name(name) {
        return Err(ReadFault::At(Kind::Name, line.number));
    }
    let bytes = Vec::from_slice(alloc, name)?;
    Ok(String::from_utf8(bytes).unwrap())
}

/// Reads the heading whose check has that kind.
fn heading<'a>(lines: &mut Lines<'a>, words: &mut Words<'a>, kind: Kind) -> Result<(), ReadFault>
    ensures read { Gives (λ _. tt) result (heading_read kind (heading_test kind)
        (number_after lines.old.number lines.old.rest.now) (full_left lines.old.number lines.old.rest.now)) }
    ensures rest { OnOk result (full_left lines.new.number lines.new.rest.now ≡ tail (full_left lines.old.number lines.old.rest.now)) }
    ensures count { OnOk result (number_after lines.new.number lines.new.rest.now ≡ number_after lines.old.number lines.old.rest.now) }
{
    let Some(line) = lines.next_full(words, HEADING_WORDS + 1)? else {
        return Err(ReadFault::At(kind, lines.number));
    };
    if !is_heading(kind, words.as_slice()) {
        return Err(ReadFault::At(kind, line.number));
    }
    Ok(())
}

#[tactic(auto, unfolding(crate::specs::Parts::fleet_of))]
fn fleet_fields(number: usize, words: &[&[u8]]) -> Result<(u32, u32), ReadFault>
    ensures { Gives (λ pair. (pair.0, pair.1)) result (fleet_of number (map (λ w. w.now) words.now)) }
{
    let [vehicles, capacity] = words else {
        return Err(ReadFault::At(Kind::Fleet, number));
    };
    let vehicles = number_at(vehicles, number)?;
    let capacity = number_at(capacity, number)?;
    if vehicles < 1 || vehicles > MOST_VEHICLES {
        return Err(ReadFault::At(Kind::Count, number));
    }
    Ok((vehicles, capacity))
}

fn fleet<'a>(lines: &mut Lines<'a>, words: &mut Words<'a>) -> Result<(u32, u32), ReadFault>
    ensures read { Gives (λ pair. (pair.0, pair.1)) result
        (fleet_read (number_after lines.old.number lines.old.rest.now) (full_left lines.old.number lines.old.rest.now)) }
    ensures rest { OnOk result (full_left lines.new.number lines.new.rest.now ≡ tail (full_left lines.old.number lines.old.rest.now)) }
    ensures count { OnOk result (number_after lines.new.number lines.new.rest.now ≡ number_after lines.old.number lines.old.rest.now) }
{
    let Some(line) = lines.next_full(words, FLEET_FIELDS + 1)? else {
        return Err(ReadFault::At(Kind::Fleet, lines.number));
    };
    fleet_fields(line.number, words.as_slice())
}

/// The seven fields of a node row: its number, and the node.
#[tactic(auto, unfolding(crate::specs::Parts::row_fields_of))]
fn row_fields(number: usize, words: &[&[u8]]) -> Result<(u32, Node), ReadFault>
    ensures { Gives (λ pair. (pair.0, pair.1)) result (row_fields_of number (map (λ w. w.now) words.now)) }
{
    let [place, x, y, demand, ready, due, service] = words else {
        return Err(ReadFault::At(Kind::Fields, number));
    };
    let place = number_at(place, number)?;
    let node = Node {
        x: number_at(x, number)?,
        y: number_at(y, number)?,
        demand: number_at(demand, number)?,
        ready: number_at(ready, number)?,
        due: number_at(due, number)?,
        service: number_at(service, number)?,
    };
    Ok((place, node))
}

/// The node of a row, with this many rows before it.
#[tactic(auto, unfolding(crate::specs::Parts::row_of))]
fn row(count: usize, number: usize, words: &[&[u8]]) -> Result<Node, ReadFault>
    ensures { Gives (λ node. node) result (row_of count number (map (λ w. w.now) words.now)) }
{
    if count >= MAX_NODES {
        return Err(ReadFault::At(Kind::Count, number));
    }
    let (place, node) = row_fields(number, words)?;
    if place as usize != count {
        return Err(ReadFault::At(Kind::Order, number));
    }
    if node.ready > node.due {
        return Err(ReadFault::At(Kind::Window, number));
    }
    if count == 0 && node.demand != 0 {
        return Err(ReadFault::At(Kind::Depot, number));
    }
    Ok(node)
}

fn rows<'a>(
    alloc: Global,
    lines: &mut Lines<'a>,
    words: &mut Words<'a>,
) -> Result<Vec<Node>, ReadFault>
    ensures { Gives (λ nodes. nodes.items) result
        (rows_read (number_after lines.old.number lines.old.rest.now) 0 (full_left lines.old.number lines.old.rest.now)) }
{
    let mut nodes = Vec::new(alloc);
    'rows: while let Some(line) = lines.next_full(words, ROW_FIELDS + 1)? {
        let node = row(nodes.len(), line.number, words.as_slice())?;
        nodes.push(node)?;
    }
    if nodes.len() < 2 {
        return Err(ReadFault::At(Kind::End, lines.number));
    }
    Ok(nodes)
}

fn all(alloc: Global, text: &[u8]) -> Result<Instance, ReadFault>
    ensures { Gives view result (read_of text.now) }
{
    let mut lines = Lines {
        rest: text,
        number: 1,
    };
    let mut words = Vec::new(alloc);
    let name = name(alloc, &mut lines, &mut words)?;
    heading(&mut lines, &mut words, Kind::Vehicle)?;
    heading(&mut lines, &mut words, Kind::Fleet)?;
    let (vehicles, capacity) = fleet(&mut lines, &mut words)?;
    heading(&mut lines, &mut words, Kind::Customer)?;
    heading(&mut lines, &mut words, Kind::Heading)?;
    let nodes = rows(alloc, &mut lines, &mut words)?;
    Ok(Instance {
        name,
        vehicles,
        capacity,
        nodes,
    })
}

/// The instance that a text gives in Solomon's format for vehicle routing with time windows, which the sets of Gehring and Homberger use
/// too; or its first fault in the order of the file.
///
/// Lines end at a line feed, with or without a carriage return before it; the last line needs no end. Blank lines are skipped anywhere. The
/// parts come in this order: the name, `VEHICLE`, `NUMBER CAPACITY`, their values, `CUSTOMER`, a heading that begins with `CUST`, and the
/// node rows: number, x, y, demand, ready time, due date, service time.
pub fn read(alloc: Global, text: &[u8]) -> Result<Instance, ReadFault>
    // What is read is what the lines say, in order.
    ensures found { IfOk result (λ i. IsInstance (full_left 1 text.now) (view i)) }
    // What the lines say is read, unless memory runs out.
    ensures only { (i : Plain) → IsInstance (full_left 1 text.now) i → Gives view result (Ok i) }

    // A fault is that of the first check of the file that fails, on its line.
    ensures fault { IfErr result (λ e. IsFault text.now e) }
    // The first check that fails is answered, unless memory runs out.
    ensures fault_only { (kind : Kind) (line : ℕ) → IsFirstFailedCheck (checks (number_after 1 text.now) (full_left 1 text.now)) kind line
        → Gives view result (fault kind line) }

    // What every instance keeps.
    ensures sound { IfOk result (λ i. IsSound (view i)) }
    // The same as a function of the text.
    ensures exact { Gives view result (read_of text.now) }
{
    all(alloc, text)
}
