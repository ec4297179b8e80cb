//! One request, from its bytes to those of its reply: it is read, taken by whoever takes what is asked, and answered.
#![tactic(auto)]

mod answering;
mod desk_taker;
mod fault;
pub mod laws;
mod outgoing;
mod planning;
mod replying;
mod roles;
mod serving;
mod taker;
mod witness;

pub use adr_asked::Asked;
pub use adr_reply::{MEMORY_REPLY, Problem, Reply, render};
pub use adr_request::{HttpRequest, read_request};
pub use adr_routes::Routes;
pub use adr_script::{ScriptFault, run_script};
pub use desk_taker::{DeskTaker, answer, serve_one};
pub use fault::ServeFault;
pub use planning::plan;
pub use replying::problem_bytes;
pub use roles::{Grant, Roles};
pub use serving::serve;
pub use taker::Taker;
pub use witness::{Unseen, Witness};
