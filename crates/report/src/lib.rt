// What the finder prints (document 01, "The finder program"), as text in a lent slice.
#![tactic(auto)]

pub mod finder; // finder.rt: what the finder prints for an input
mod lines; // lines.rt: lines of text
