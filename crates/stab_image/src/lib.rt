//! A run at one of its cuts, from which it can go on later.
#![tactic(auto)]

mod at;
mod image;
mod named;
mod put;
mod read;
mod resuming;
mod right;

pub use at::image_at;
pub use image::Image;
pub use image_run::Resumed;
pub use put::put_image;
pub use read::read_image;
pub use resuming::resume;
pub use right::history_is_right;
