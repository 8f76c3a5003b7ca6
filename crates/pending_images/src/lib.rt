//! The images of what has left the store buffers: every memory that a crash may leave after further
//! persisting, each once.
//!
//! Of each line some first writes are persisted, between those that the markers that went ask for
//! and those that the next marker allows. So the images are formed by a product over the lines
//! for each number of markers, then sorted, and repeats are dropped. [`closed_set`] goes the other way:
//! of one image it gives the least set of pending entries that leaves it.
//!
//! [`Image`] is seen as the values of a shape's words, in order. Promise: [`list`] gives all images and no other, ascending,
//! each once; [`closed_set`] gives the places of the least closed set that leaves an image, and None exactly when it is none;
//! [`values_of`] gives the values that a word has in the images in which others have given ones, without a list of images.
//! Definitions: `specs/Changes`, `Images` (images as runs of single changes); `Cuts`, `ClosedSets` (as cuts and closed sets);
//! `Candidates`; `Listings`, `Products`; `LeastSets`, `LeastCuts`; `Values`, `Agreements`; `SomeLines`.
#![tactic(auto)]

mod base;
mod candidates;
mod fault;
mod first_cut;
mod fits;
mod formed;
mod gone;
mod image;
mod image_list;
pub mod laws;
mod least_set;
mod place;
mod total;
mod values;

pub use candidates::{Countable, MOST_CANDIDATES, count};
pub use fault::ImageFault;
pub use formed::products;
pub use image::Image;
pub use image_list::list;
pub use least_set::closed_set;
pub use total::Count;
pub use values::values_of;
