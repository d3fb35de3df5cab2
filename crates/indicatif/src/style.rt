//! How a bar looks: the names that the crate `indicatif` has in `indicatif::style`. All of them stand at the root too, except
//! `is_parameter` and `nearest`, which only `indicatif_text` has.
pub use indicatif_bar::style::{ProgressStyle, ProgressTracker, Tracks};
pub use indicatif_text::columns::write_ansi_range;
pub use indicatif_text::template::TemplateError;
