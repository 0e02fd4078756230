use super::*;
use crate::angle::{angle_of, length_of, span_of};
use ring_math::Id;
use std::alloc::Global;
use std::process::Abort;
use std::test::Fail;
use text_writer::Text;
use world_model::Cells;

/// The identifier with these two leading digits, and zeros behind them.
fn at(leading: u8) -> Id {
    Id((leading as u128) << 120)
}

/// A quarter of the circle is 90 degrees; the last identifier stands just before the top.
#[test]
fn angles_of_identifiers(rt: HostRuntime) {
    assert_eq!(rt; angle_of(at(0)), 0);
    assert_eq!(rt; angle_of(at(0x40)), 90_000);
    assert_eq!(rt; angle_of(at(0x10)), 22_500);
    assert_eq!(rt; angle_of(Id(u128::MAX)), 359_999);
    assert_eq!(rt; span_of(at(0xc0), at(0x40)), 180_000);
    assert_eq!(rt; span_of(at(0x40), at(0x40)), 360_000);
}

/// The whole circle of radius 100 is 628.318 long.
#[test]
fn lengths_of_arcs(rt: HostRuntime) {
    assert_eq!(rt; length_of(100, 360_000), 628_318);
    assert_eq!(rt; length_of(100, 0), 0);
}

/// Compares a text with these lines.
fn is_drawn(rt: &impl Abort, alloc: Global, text: Text, lines: &[&str]) -> Result<(), Fail> {
    let mut due = Text::new(alloc);
    for line in lines {
        due.put(line.as_bytes())?;
        due.put(b"\n")?;
    }
    let text = text.into_frame();
    let due = due.into_frame();
    assert_eq!(rt; text.as_slice(), due.as_slice());
    Ok(())
}

/// A founder that is alone, a quarter of a right angle clockwise from the top, has both links to itself. It owns a key that
/// stands a right angle further. Lengths are those of circles of radius 164, 156 and 114.
#[test]
fn one_node_and_a_key(rt: HostRuntime) -> Result<(), Fail> {
    let nodes = [at(0x10)];
    let cells = Cells::new(rt.alloc(), &nodes, nodes[0])?;
    let mut text = Text::new(rt.alloc());
    put_ring(rt.alloc(), &mut text, &cells, &nodes, &[at(0x50)], 3)?;
    is_drawn(
        &rt,
        rt.alloc(),
        text,
        &[
            "<circle class='ring' cx='236' cy='236' r='160'/>",
            "<g transform='rotate(22.500,236,236)'>",
            "<path class='link' d='M236,72 a164,164 0 1 1 0,328 a164,164 0 1 1 0,-328' stroke-dasharray='1030.442 9999'/>",
            "</g>",
            "<g transform='rotate(22.500,236,236)'>",
            "<polygon class='link-head' points='222,68 230,72 222,76'/>",
            "</g>",
            "<g transform='rotate(22.500,236,236)'>",
            "<path class='link' d='M236,80 a156,156 0 1 1 0,312 a156,156 0 1 1 0,-312' stroke-dasharray='980.176 9999'/>",
            "</g>",
            "<g transform='rotate(22.500,236,236)'>",
            "<polygon class='link-head' points='250,76 242,80 250,84'/>",
            "</g>",
            "<g transform='rotate(22.500,236,236)'>",
            "<path class='owner' d='M236,122 a114,114 0 1 1 0,228 a114,114 0 1 1 0,-228' stroke-dasharray='179.070 9999'/>",
            "</g>",
            "<g transform='rotate(22.500,236,236)'>",
            "<line class='owner-head' x1='236' y1='122' x2='236' y2='83'/>",
            "</g>",
            "<g><title>50000000000000000000000000000000</title>",
            "<g transform='rotate(112.500,236,236)'>",
            "<polygon class='key' points='236,117 241,125 231,125'/>",
            "<g transform='rotate(270.000,236,129)'>",
            "<text class='faint-end' x='236' y='132'>50000000</text>",
            "</g>",
            "</g>",
            "</g>",
            "<g><title>10000000000000000000000000000000</title>",
            "<g transform='rotate(22.500,236,236)'>",
            "<circle class='ready' cx='236' cy='76' r='6'/>",
            "<g transform='rotate(270.000,236,62)'>",
            "<text class='label' x='236' y='65'>10000000</text>",
            "</g>",
            "</g>",
            "</g>",
            "<text class='label-middle' x='236' y='232'>after entry 3</text>",
            "<text class='label-middle' x='236' y='248'>ready 1 of 1</text>",
            "<circle class='ready' cx='15' cy='12' r='4'/>",
            "<text class='faint' x='28' y='15'>ready</text>",
            "<circle class='joiner' cx='15' cy='26' r='4'/>",
            "<text class='faint' x='28' y='29'>not ready</text>",
            "<line class='link' x1='8' y1='40' x2='22' y2='40'/>",
            "<text class='faint' x='28' y='43'>links</text>",
            "<line class='gate' x1='8' y1='54' x2='22' y2='54'/>",
            "<text class='faint' x='28' y='57'>gate for a joiner</text>",
            "<polygon class='key' points='15,62 20,70 10,70'/>",
            "<text class='faint' x='28' y='71'>key of a file, to its owner</text>",
        ],
    )
}
