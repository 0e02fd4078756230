//! The rows of requests and files: lookups, inserts, fetches, reclaims, replicas, what is handed over, and replies.

pub(crate) mod ended;
pub(crate) mod fetch;
pub(crate) mod handover;
pub(crate) mod insert;
pub(crate) mod lookup;
pub(crate) mod reclaim;
pub(crate) mod replicas;
pub(crate) mod replies;
