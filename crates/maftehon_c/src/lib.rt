// The C exports: the functions of include/maftehon.h, and nothing else. Each is the function of `maftehon` of its name, with its clauses.
#![tactic(auto)]

pub mod counts;
pub mod files;
pub mod images;
pub mod messages;
pub mod route_lists;
pub mod segments;
pub mod tables;
