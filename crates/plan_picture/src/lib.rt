//! A picture of a plan: a list of marks, and the text of each as SVG.
#![tactic(auto)]

mod drawing;
mod heading;
mod layout;
mod scale;
mod style;
mod text;

pub use drawing::picture;
pub use heading::{push_end, push_head};
pub use layout::Layout;
pub use scale::Clock;
pub use text::push_mark;
