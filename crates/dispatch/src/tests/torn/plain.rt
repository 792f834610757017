//! Solomon's format read slowly: every line and every field is looked for from the start of the text.
use solomon_reader::{Instance, Kind, Node, ReadFault};

/// Where the first line of a text ends.
fn end_of_line(text: &[u8]) -> usize {
    for (at, byte) in text.iter().enumerate() {
        if *byte == b'\n' {
            return at;
        }
    }
    text.len()
}

/// The first line of a text with its end, and what is behind it.
fn cut(text: &[u8]) -> (&[u8], &[u8]) {
    let end = end_of_line(text).saturating_add(1).min(text.len());
    text.split_at(end)
}

/// A line without its end, of which one carriage return is a part.
fn without_end(line: &[u8]) -> &[u8] {
    let line = line.strip_suffix(b"\n".as_slice()).unwrap_or(line);
    line.strip_suffix(b"\r".as_slice()).unwrap_or(line)
}

/// A line by its number, from 1 on.
fn line_at(text: &[u8], number: usize) -> Option<&[u8]> {
    let mut left = text;
    for _ in 1..number {
        left = cut(left).1;
    }
    if left.is_empty() {
        return None;
    }
    Some(without_end(cut(left).0))
}

/// How many lines there are.
fn count_lines(text: &[u8]) -> usize {
    let mut left = text;
    let mut count = 0usize;
    for _ in 0..text.len() {
        if left.is_empty() {
            return count;
        }
        left = cut(left).1;
        count = count.saturating_add(1);
    }
    count
}

fn is_blank(byte: u8) -> bool {
    byte == b' ' || byte == b'\t'
}

/// How many bytes from the start on are blank, or are not.
fn front(line: &[u8], blank: bool) -> usize {
    for (at, byte) in line.iter().enumerate() {
        if is_blank(*byte) != blank {
            return at;
        }
    }
    line.len()
}

/// What is behind the blanks at the start.
fn after_blanks(line: &[u8]) -> &[u8] {
    line.split_at(front(line, true).min(line.len())).1
}

/// A field by its number, from 0 on.
fn field_at(line: &[u8], number: usize) -> Option<&[u8]> {
    let mut left = after_blanks(line);
    for _ in 0..number {
        left = after_blanks(left.split_at(front(left, false).min(left.len())).1);
    }
    if left.is_empty() {
        return None;
    }
    Some(left.split_at(front(left, false).min(left.len())).0)
}

/// Whether there are just so many fields.
fn has_fields(line: &[u8], count: usize) -> bool {
    let last = count.saturating_sub(1);
    field_at(line, last).is_some() && field_at(line, count).is_none()
}

/// The number before a point, if there is one: 1 to 7 digits.
fn digits(bytes: &[u8]) -> Option<u32> {
    if bytes.is_empty() || bytes.len() > 7 {
        return None;
    }
    let mut value = 0u32;
    for byte in bytes {
        if !byte.is_ascii_digit() {
            return None;
        }
        value = value
            .wrapping_mul(10)
            .wrapping_add(u32::from(byte.wrapping_sub(b'0')));
    }
    Some(value)
}

/// Whether there are zeros, and nothing else.
fn is_zeros(bytes: &[u8]) -> bool {
    for byte in bytes {
        if *byte != b'0' {
            return false;
        }
    }
    !bytes.is_empty()
}

/// Where the first point is.
fn point_in(field: &[u8]) -> usize {
    for (at, byte) in field.iter().enumerate() {
        if *byte == b'.' {
            return at;
        }
    }
    field.len()
}

/// The value of a field.
fn number_of(field: &[u8]) -> Option<u32> {
    let (whole, rest) = field.split_at(point_in(field).min(field.len()));
    if rest.is_empty() || is_zeros(rest.split_at(rest.len().min(1)).1) {
        return digits(whole);
    }
    None
}

/// The value of a field of a line.
fn value_at(line: &[u8], number: usize) -> Option<u32> {
    number_of(field_at(line, number)?)
}

/// Whether a field is this word, however its letters are written.
fn is_word(line: &[u8], number: usize, word: &[u8]) -> bool {
    match field_at(line, number) {
        Some(field) => field.eq_ignore_ascii_case(word),
        None => false,
    }
}

/// The first line behind a number that is not blank.
fn part_after(text: &[u8], number: usize) -> Option<(usize, &[u8])> {
    let mut next = number;
    for _ in 0..text.len() {
        next = next.saturating_add(1);
        let line = line_at(text, next)?;
        if !after_blanks(line).is_empty() {
            return Some((next, line));
        }
    }
    None
}

/// A line without blanks at its ends.
fn trimmed(line: &[u8]) -> &[u8] {
    let mut left = after_blanks(line);
    for _ in 0..line.len() {
        match left {
            [front @ .., last] if is_blank(*last) => left = front,
            _ => return left,
        }
    }
    left
}

fn is_name(line: &[u8]) -> bool {
    let name = trimmed(line);
    for byte in name {
        if *byte < b' ' || *byte > b'~' {
            return false;
        }
    }
    name.len() <= 64
}

/// What is wrong with the number of vehicles and their capacity.
fn fleet_fault(line: &[u8]) -> Option<Kind> {
    if !has_fields(line, 2) {
        return Some(Kind::Fleet);
    }
    match (value_at(line, 0), value_at(line, 1)) {
        (Some(vehicles), Some(_)) if 0 < vehicles && vehicles <= 1000 => None,
        (Some(_), Some(_)) => Some(Kind::Count),
        _ => Some(Kind::Number),
    }
}

/// What a part of the head is called where it is missing or is not what it is to be.
fn kind_of(part: u32) -> Kind {
    match part {
        0 => Kind::Name,
        1 => Kind::Vehicle,
        2 | 3 => Kind::Fleet,
        4 => Kind::Customer,
        _ => Kind::Heading,
    }
}

/// What is wrong with a part of the head.
fn part_fault(part: u32, line: &[u8]) -> Option<Kind> {
    let is_right = match part {
        0 => is_name(line),
        1 => has_fields(line, 1) && is_word(line, 0, b"VEHICLE"),
        2 => { has_fields(line, 2) && is_word(line, 0, b"NUMBER") && is_word(line, 1, b"CAPACITY") }
        3 => return fleet_fault(line),
        4 => has_fields(line, 1) && is_word(line, 0, b"CUSTOMER"),
        _ => is_word(line, 0, b"CUST"),
    };
    if is_right { None } else { Some(kind_of(part)) }
}

/// The line of a part of the head, from 0 on, or the first fault up to there.
fn head_line(text: &[u8], part: u32) -> Result<usize, (Kind, usize)> {
    let mut line = 0usize;
    for number in 0..=part {
        let Some((next, bytes)) = part_after(text, line) else {
            return Err((kind_of(number), count_lines(text).saturating_add(1)));
        };
        if let Some(kind) = part_fault(number, bytes) {
            return Err((kind, next));
        }
        line = next;
    }
    Ok(line)
}

/// Whether all seven fields are numbers.
fn has_numbers(line: &[u8]) -> bool {
    for field in 0..7usize {
        if value_at(line, field).is_none() {
            return false;
        }
    }
    true
}

/// What is wrong with a row of a node.
fn row_fault(line: &[u8], row: u32) -> Option<Kind> {
    if row > 1000 {
        return Some(Kind::Count);
    }
    if !has_fields(line, 7) {
        return Some(Kind::Fields);
    }
    if !has_numbers(line) {
        return Some(Kind::Number);
    }
    if value_at(line, 0) != Some(row) {
        return Some(Kind::Order);
    }
    if value_at(line, 4) > value_at(line, 5) {
        return Some(Kind::Window);
    }
    if row == 0 && value_at(line, 3) != Some(0) {
        return Some(Kind::Depot);
    }
    None
}

/// How many rows there are behind the head, or the first fault in them.
fn count_rows(text: &[u8], head: usize) -> Result<u32, (Kind, usize)> {
    let mut line = head;
    let mut row = 0u32;
    for _ in 0..text.len() {
        let Some((next, bytes)) = part_after(text, line) else {
            break;
        };
        if let Some(kind) = row_fault(bytes, row) {
            return Err((kind, next));
        }
        line = next;
        row = row.saturating_add(1);
    }
    if row < 2 {
        return Err((Kind::End, count_lines(text).saturating_add(1)));
    }
    Ok(row)
}

/// How many rows of nodes a text has, or its first fault.
fn read_plainly(text: &[u8]) -> Result<u32, (Kind, usize)> {
    count_rows(text, head_line(text, 5)?)
}

/// A line behind so many others that are not blank.
fn part_at(text: &[u8], number: u32) -> Option<&[u8]> {
    let mut line = 0usize;
    let mut found = None;
    for _ in 0..=number {
        let (next, bytes) = part_after(text, line)?;
        line = next;
        found = Some(bytes);
    }
    found
}

fn node_in(line: &[u8]) -> Option<Node> {
    Some(Node {
        x: value_at(line, 1)?,
        y: value_at(line, 2)?,
        demand: value_at(line, 3)?,
        ready: value_at(line, 4)?,
        due: value_at(line, 5)?,
        service: value_at(line, 6)?,
    })
}

/// Whether an instance has the nodes of a text.
fn has_nodes(text: &[u8], nodes: &[Node]) -> bool {
    let mut part = 6u32;
    for node in nodes {
        let found = match part_at(text, part) {
            Some(line) => node_in(line),
            None => None,
        };
        if found != Some(*node) {
            return false;
        }
        part = part.saturating_add(1);
    }
    true
}

/// Whether an instance has the name and the fleet of a text.
fn has_head(text: &[u8], instance: &Instance) -> bool {
    let (Some(name), Some(fleet)) = (part_at(text, 0), part_at(text, 3)) else {
        return false;
    };
    trimmed(name) == instance.name.as_str().as_bytes()
        && value_at(fleet, 0) == Some(instance.vehicles)
        && value_at(fleet, 1) == Some(instance.capacity)
}

/// Whether an instance, or the fault, is that of a text.
pub(crate) fn agrees(text: &[u8], found: &Result<Instance, ReadFault>) -> bool {
    match (read_plainly(text), found) {
        (Ok(rows), Ok(instance)) => {
            instance.nodes.len() == rows as usize
                && has_head(text, instance)
                && has_nodes(text, instance.nodes.as_slice())
        }
        (Err((kind, line)), Err(ReadFault::At(found, at))) => kind == *found && line == *at,
        _ => false,
    }
}
