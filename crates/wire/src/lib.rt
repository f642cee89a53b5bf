// Wire: a file of frames, read line by line.
//
// A frame is one line of hexadecimal digits, two to a byte; its first byte is its kind. Put the
// characters of a line into a `LineBuffer`, and hand its line to `read_line`, with the phase that the
// line before left. It answers the next phase and the frame, whose variable part still stands in the
// decoded bytes, or the first thing that is wrong.
//
// Proved: every line has one answer, and it says exactly what the line spells or why it is refused.
// `at_line` adds the line's number to a refusal.
#![tactic(auto)]

pub mod digits;
pub mod frame;
pub mod kind;
pub mod lines;
pub mod order;
pub mod reader;
