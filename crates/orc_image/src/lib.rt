//! Images: compiled functions with their names, counts and code, as bytes and as a listing.
#![tactic(auto)]

mod error;
mod image;
mod listing;
mod naming;
mod reading;
mod writing;

pub use error::ImageError;
pub use image::{Image, ImageFunction, ImageFunctions};
pub use listing::{list, one_listing};
pub use reading::{one_image, read_image};
pub use writing::write_image;
