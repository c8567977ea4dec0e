// Jobs: records in, printed lines out, over books and tables.
#![tactic(auto)]

mod answer;
mod fault;
mod filter;
mod machine;
mod recorded;
mod reply;
mod running;

pub use answer::Answer;
pub use fault::Fault;
pub use filter::Filter;
pub use machine::Machine;
pub use recorded::Recorded;
pub use reply::Reply;
pub use running::{LONGEST_JOB, run};
