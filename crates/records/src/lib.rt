// The records of a job: walking them inside the job's bytes, and what each asks for.
#![tactic(auto)]

mod bodies;
mod judge;
mod reader;
mod record;
mod refusal;
mod request;

pub use judge::NamedJudge;
pub use reader::Reader;
pub use record::{CutOff, Record};
pub use refusal::Refusal;
pub use request::{Request, Row};
