use super::*;
use ring_math::Id;
use std::process::Abort;
use std::test::Fail;
use text_writer::Text;

/// Words that would end a piece are spelled, and what is no letter of ASCII is a question mark.
#[test]
fn words_are_spelled(rt: HostRuntime) -> Result<(), Fail> {
    let mut text = Text::new(rt.alloc());
    let at = Point { x: 3, y: 40 };
    put_words(&mut text, Class::Label, at, b"a<b> & \"c\" \n\xc3~")?;
    let frame = text.into_frame();
    let due = b"<text class='label' x='3' y='40'>a&lt;b&gt; &amp; &quot;c&quot; ??~</text>\n";
    assert_eq!(rt; frame.as_slice(), due.as_slice());
    Ok(())
}

/// A turned group with a line and an arc of a quarter of a circle.
#[test]
fn pieces_in_a_group(rt: HostRuntime) -> Result<(), Fail> {
    let mut text = Text::new(rt.alloc());
    let top = Point { x: 100, y: 20 };
    let center = Point { x: 100, y: 100 };
    open_turned(&mut text, 22_050, center)?;
    put_line(&mut text, Class::Sent, top, center)?;
    put_arc(&mut text, Class::Link, top, 80, 125_664)?;
    close_group(&mut text)?;
    let frame = text.into_frame();
    let mut due = Text::new(rt.alloc());
    due.put(b"<g transform='rotate(22.050,100,100)'>\n")?;
    due.put(b"<line class='sent' x1='100' y1='20' x2='100' y2='100'/>\n")?;
    due.put(
        b"<path class='link' d='M100,20 a80,80 0 1 1 0,160 a80,80 0 1 1 0,-160' stroke-dasharray='125.664 9999'/>\n",
    )?;
    due.put(b"</g>\n")?;
    let due = due.into_frame();
    assert_eq!(rt; frame.as_slice(), due.as_slice());
    Ok(())
}

/// Nodes are counted by their identifiers, and called by their first digits.
#[test]
fn nodes_in_order(rt: HostRuntime) -> Result<(), Fail> {
    let nodes = [Id(0x90 << 120), Id(0x10 << 120), Id(0xff << 120)];
    assert_eq!(rt; rank(&nodes, nodes[0]), 1);
    assert_eq!(rt; rank(&nodes, nodes[1]), 0);
    let mut text = Text::new(rt.alloc());
    put_short(&mut text, b"node ", nodes[2])?;
    let frame = text.into_frame();
    assert_eq!(rt; frame.as_slice(), b"node ff000000".as_slice());
    Ok(())
}
