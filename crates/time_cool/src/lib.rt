// Times of paths, the slow-down of short layers, and the fan. What goes in are settings and plans; what
// comes out are the times, speeds and powers that `specs/` defines, in µs, µm/s and 255ths.
#![tactic(auto)]

mod cooling;
mod fans;
#[cfg(test)]
mod tests;
mod times;

pub use cooling::slow_down;
pub use fans::fan;
pub use times::{path_time, plan_time};
