// SPDX-License-Identifier: MIT

//! What the files of rows cannot show of the top call: streams that fail at a given read or write, what a person sees while typing,
//! journals that a watch is given, and workers that a gate holds or counts. Scripts with what they print stand in `rows/`.
#![tactic(auto)]

#[cfg(test)]
mod example;
#[cfg(test)]
mod inside;
#[cfg(test)]
mod journals;
#[cfg(test)]
mod progress;
#[cfg(test)]
mod runs;
#[cfg(test)]
mod seen;
#[cfg(test)]
mod streams;
