//! What no clause says: that steps succeed with ample memory, and what the rows give for inputs whose answers are known.

mod files;
mod given;
mod joins;
mod kinds;
mod ring;
mod said;
mod unreached;
