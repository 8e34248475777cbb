// What is drawn: a list of shapes, each with its place, and the text of the drawing, as SVG.
#![tactic(auto)]

pub mod chart;
pub mod lanes;
pub mod shape;
pub mod svg;

pub use shape::{Label, Shape, Style, Words};
