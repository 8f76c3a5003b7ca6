//! The crash images of a machine's state: every memory that a crash may leave after further persisting, and which pending
//! entries leave one of them; and whether a condition holds in the state, or in an image.
//!
//! A state's images are those of its shape and of what has left its store buffers: the work is done in `pending_images`, and
//! [`list`] is its function. Where a condition is asked of an image, the image is read as the persisted values; coherent values
//! and registers are the state's.
//!
//! Promise: [`count`] is None exactly where there are too many candidates; [`list`] gives all images and no other, ascending,
//! each once; [`closed_set`] gives the least closed set of entries that leaves an image; [`values_of`] the values of a word in the
//! images in which others have given values, however many candidates there are. [`holds`] is the truth in a state;
//! [`all_images`] and [`some_image`] return the least image of a state's list that breaks a condition, or that meets it.
//! Definitions: `specs/Images` (what an image is, listings, closed sets, in the words of `pending_images`), `Reaching` (what
//! steps of the machine reach, and a crash leaves); `Truth` (conditions in a state and for an image), `Firsts` (the least image
//! that passes a test).
#![tactic(auto)]

mod image_list;
mod image_truth;
pub mod laws;
mod truth;

pub use conditions::{
    Comparison, Cond, CondFault, MAX_DEPTH, MAX_TOKENS, Operand, Term, TokenFault, Values,
    read_cond,
};
pub use image_list::{closed_set, count, products, values_of};
pub use image_truth::{all_images, some_image};
pub use pending_images::{Count, Countable, Image, ImageFault, MOST_CANDIDATES, list};
pub use truth::holds;
