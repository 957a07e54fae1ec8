//! Tests of whole calls of the program: their words, the files that they find, the bytes that they print, and the status
//! that they end with; with each fault of reading and writing, at each limit, and with other orders of workers. They
//! stand apart from checker_calls, so that it is not proved twice.
#![tactic(auto)]

#[cfg(test)]
mod tests;
