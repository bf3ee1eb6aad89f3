//! What a shader of the first form means, the image of it, and that the image's words do what the shader means.
#![tactic(auto)]

mod body;
mod emitting;
mod ids;
mod laws;
mod numbers;
mod output;
mod sections;
mod spelling;

pub use emitting::emit;
pub use laws::words_mean_source;
pub use spelling::{image_is_short, image_is_spelled};
