//! The parts of a node, what a step may change of them, and how a change comes to pass. A step is planned from the parts
//! as they are; then room is made for what it changes; then the change is made, which takes no memory.
#![tactic(auto)]

mod build;
mod change;
mod commit;
mod lease;
mod life;
mod node;
mod room;
mod seat;
mod view;

pub use build::{one_more, reply_in, send_to_each, sent_to_both};
pub use change::{
    Change, GateChange, Learn, Parts, PastChange, Prepared, Rest, SeatChange, StoreChange, Wait,
};
pub use lease::{Lease, bare, joiner_of};
pub use node::Node;
pub use seat::Seat;
pub use view::{first_left, first_right, leaves_of};
