//! The routes of all stacks (route(8)). Each stack has routes of its own, and the longest that covers an
//! address is chosen.
#![tactic(auto)]

mod fib;
mod network;
mod route;
mod routes;
mod search;
mod stranded;
mod wanted;

pub use route::Route;
pub use routes::Routes;
pub use vn_rules::Target;
