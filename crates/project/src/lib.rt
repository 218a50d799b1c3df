//! Projects and scripts, from text to text: loaded, played, listed, and messages for people.
#![tactic(auto)]

pub use listings::listing;
pub use loading::load;
pub use messages::message;
pub use reports::report;

pub mod inputs;
pub mod play;
mod player;
pub mod run;
mod settings;
