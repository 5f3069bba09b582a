// The window of plans that may still get a preheat. In go the plans of a job's layers, one after another;
// out come the oldest of them with their leads, their times and their preheats. What the window holds and
// remembers is exactly what the definition `taken` says; it takes no memory.
#![tactic(auto)]

mod extruders;
mod leading;
mod marks;
mod placing;
mod store;
mod window;

pub use window::Window;
