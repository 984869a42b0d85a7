// The C boundary: the functions of include/maftehon.h, and nothing else. Each calls the library once and lays its answer out.
#![tactic(auto)]

pub mod counts;
pub mod files;
pub mod images;
pub mod messages;
mod replies;
pub mod route_lists;
pub mod segments;
pub mod tables;
