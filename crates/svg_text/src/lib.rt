//! Pictures as texts in SVG 1.1: lines, circles, arcs, triangles and words, in groups that are turned, moved or titled.
//!
//! A picture is defined as a tree. Each of its pieces is closed where it was opened, attributes hold nothing but numbers and
//! names of classes, and words are escaped wherever they stand: so the text of a picture is well-formed by its definition. What
//! is written needs no script, no font and nothing from outside.
#![tactic(auto)]

mod class;
mod document;
mod escape;
mod group;
mod label;
mod laws;
mod piece;
mod point;

pub use class::Class;
pub use document::{STYLE, close_document, open_document};
pub use escape::put_escaped;
pub use group::{close_group, open_moved, open_titled, open_turned};
pub use label::{put_short, rank, short_label};
pub use laws::words_are_escaped;
pub use piece::{put_arc, put_circle, put_line, put_rect, put_triangle, put_words};
pub use point::Point;

#[cfg(test)]
mod tests;
