// Inputs that come in pieces: which bytes are kept, and that all are read, to the first end.
#![tactic(auto)]

#[cfg(test)]
mod ends;
#[cfg(test)]
mod pieces;
