// SPDX-License-Identifier: MIT

//! Tests of the crates of text: those that read the words of the command line and lines of bytes (values, lines, options, the generated
//! input), headers, journals, and the book: what it answers to lines of every command, and what rounds of accepted lines bring. They stand
//! here, since a crate with tests of its own is proved twice. The words of lines, which headers are refused, and the texts of rounds are in
//! `rows/`.
#![tactic(auto)]

#[cfg(test)]
mod answers;
#[cfg(test)]
mod books;
#[cfg(test)]
mod headers;
#[cfg(test)]
mod journals;
#[cfg(test)]
mod lines;
#[cfg(test)]
mod options;
#[cfg(test)]
mod rounds;
#[cfg(test)]
mod storms;
#[cfg(test)]
mod values;
