use super::*;
use std::alloc::Global;
use std::process::Abort;
use std::test::Fail;
use trace_check::{check, read_trace};

/// The trace of a founder that looks up a key, line by line.
const LINES: [&str; 10] = [
    "trace 1",
    "node 10000000000000000000000000000000",
    "founder 10000000000000000000000000000000",
    "command 10000000000000000000000000000000 1 02ff000000000000000000000000000000",
    "sent 01020000004310000000000000000000000000000000100000000000000000000000000000000000000000000001000000000000000101100000000000000000000000000000000000",
    "note 02100000000000000000000000000000000000000000000001ff0000000000000000000000000000000000",
    "note 0310000000000000000000000000000000000000000000000101100000000000000000000000000000000000",
    "deliver 0",
    "note 0400000000000000010101100000000000000000000000000000000000",
    "end 0",
];

/// The picture of the trace, with this in the place of one line.
fn drawn_with(alloc: Global, place: usize, line: &str) -> Result<Vec<u8>, Fail> {
    let mut text = Vec::new(alloc);
    for at in 0..LINES.len() {
        let line = if at == place { line } else { LINES[at] };
        text.extend_from_slice(line.as_bytes())?;
        text.push(b'\n')?;
    }
    let trace = read_trace(alloc, &text)?;
    let verdict = check(alloc, &trace)?;
    let picture = picture(alloc, &trace, verdict, 0, 120)?;
    let mut bytes = Vec::new(alloc);
    bytes.extend_from_slice(picture.as_slice())?;
    Ok(bytes)
}

/// Whether this stands in the text.
fn has(text: &[u8], part: &str) -> bool {
    let part = part.as_bytes();
    (0..text.len()).any(|place| text[place..].starts_with(part))
}

#[test]
fn a_legal_trace_is_drawn(rt: HostRuntime) -> Result<(), Fail> {
    let picture = drawn_with(rt.alloc(), 0, LINES[0])?;
    assert!(rt; picture.starts_with(b"<?xml version='1.0' encoding='UTF-8'?>\n<svg "));
    assert!(rt; picture.ends_with(b"</g>\n</svg>\n"));
    assert!(rt; has(&picture, "<text class='label' x='8' y='464'>legal</text>\n"));
    assert!(rt; has(&picture, "after entry 2</text>\n"));
    assert!(rt; has(&picture, "ready 1 of 1</text>\n"));
    Ok(())
}

/// A reply that says another node: the ring stands before the entry that sent it, and the entry is marked.
#[test]
fn a_wrong_entry_is_marked(rt: HostRuntime) -> Result<(), Fail> {
    let wrong =
        "note 02100000000000000000000000000000000000000000000001fe0000000000000000000000000000000000";
    let picture = drawn_with(rt.alloc(), 5, wrong)?;
    assert!(rt;
        has(
            &picture,
            "<text class='wrong' x='8' y='464'>wrong entry 1 notes</text>\n"
        )
    );
    assert!(rt; has(&picture, "after entry 0</text>\n"));
    assert!(rt; has(&picture, "<rect class='marked' "));
    Ok(())
}
