//! The rows of joins, a file for each part that a node plays in them.

pub(crate) mod asking;
pub(crate) mod ending;
pub(crate) mod finishing;
pub(crate) mod gates;
pub(crate) mod granting;
pub(crate) mod leasing;
pub(crate) mod probing;
