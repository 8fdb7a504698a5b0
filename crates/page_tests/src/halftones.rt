//! Tests of what is made of a page's pixels: amounts of inks worked by hand, whole lines against a plain loop, small
//! pages against the definitions, and pages of a stream.

mod definition;
mod halftoner;
mod reader;
mod separator;
mod whole_lines;
