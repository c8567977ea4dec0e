// Tables in a lent area: laying one, and looking into an area of any content. Written once for every kind.
#![tactic(auto)]

mod entries;
mod laying;
mod looking;
mod spoilt;

pub use laying::lay;
pub use looking::{block, look_up};
pub use spoilt::Spoilt;
