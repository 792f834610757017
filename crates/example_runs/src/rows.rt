//! Scripts with the reply to each line beside it: each row is a line, ` => ` and its reply. A row without ` => ` goes on with the reply of the
//! row above.
use std::alloc::{AllocError, Global};

/// The line of a row and its reply; what is not there is empty.
fn cut(row: &str) -> (&str, &str) {
    row.split_once(" => ").unwrap_or(("", row))
}

/// Puts a line at the end of a text, unless it is empty.
fn put(text: &mut Vec<u8>, line: &str) -> Result<(), AllocError> {
    if line.is_empty() {
        return Ok(());
    }
    text.extend_from_slice(line.as_bytes())?;
    text.push(b'\n')?;
    Ok(())
}

/// The lines of rows, or the replies to them.
pub(crate) fn column(alloc: Global, rows: &str, of_replies: bool) -> Result<Vec<u8>, AllocError> {
    let mut text = Vec::new(alloc);
    for row in rows.lines() {
        let (line, reply) = cut(row);
        put(&mut text, if of_replies { reply } else { line })?;
    }
    Ok(text)
}
