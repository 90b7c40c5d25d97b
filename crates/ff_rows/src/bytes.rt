// Bytes that are written as a text.
use super::row::Fault;

// What a byte of the text is a part of.
#[derive(Clone, Copy)]
enum Part {
    // A byte that stands for itself.
    Plain,
    // What follows a backslash.
    Escape,
    // The first digit of a byte.
    High,
    // The second digit of a byte, after this one.
    Low(u8),
}

/// Puts the bytes for which a text stands at the end of `bytes`.
pub fn push_text(bytes: &mut Vec<u8>, text: &str) -> Result<(), Fault> {
    let mut part = Part::Plain;
    for byte in text.bytes() {
        part = push_part(bytes, part, byte)?;
    }
    match part {
        Part::Plain => Ok(()),
        _ => Err(Fault::Line),
    }
}

// Reads a byte of the text, and answers what the next one is.
fn push_part(bytes: &mut Vec<u8>, part: Part, byte: u8) -> Result<Part, Fault> {
    match (part, byte) {
        (Part::Plain, b'\\') => return Ok(Part::Escape),
        (Part::Plain, _) => bytes.push(byte)?,
        (Part::Escape, b'n') => bytes.push(b'\n')?,
        (Part::Escape, b'r') => bytes.push(b'\r')?,
        (Part::Escape, b't') => bytes.push(b'\t')?,
        (Part::Escape, b'\\') => bytes.push(b'\\')?,
        (Part::Escape, b'x') => return Ok(Part::High),
        (Part::Escape, _) => return Err(Fault::Line),
        (Part::High, _) => return Ok(Part::Low(digit(byte)?)),
        (Part::Low(high), _) => bytes.push(high.wrapping_mul(16) | digit(byte)?)?,
    }
    Ok(Part::Plain)
}

// The value of a hexadecimal digit.
fn digit(byte: u8) -> Result<u8, Fault> {
    match byte {
        b'0'..=b'9' => Ok(byte - b'0'),
        b'a'..=b'f' => Ok(byte - b'a' + 10),
        _ => Err(Fault::Line),
    }
}
