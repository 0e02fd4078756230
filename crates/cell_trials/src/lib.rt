//! Trials of cells together, which are tests alone: whole scenarios through cells and back, and cells that talk by mailboxes.
#![tactic(auto)]

#[cfg(test)]
mod mailboxes;
#[cfg(test)]
mod rows;
