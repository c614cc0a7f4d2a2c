//! The texts of an editor, the four primitives that change them, and the files that hold them.
//!
//! A text is a list of lines of UTF-16 units, in which each surrogate is paired, of a bounded size.
//!
//! - [`fits`] has the misfit of a primitive exactly. One that fits leaves a text; in the text as
//!   one list of units it puts some in place of others at one offset.
//! - [`load`] reads every UTF-8 file of a text, with any line ends and with or without a byte order
//!   mark, and refuses each other file for its exact cause. A file has one text.
//! - [`save`] writes the file of a text, which loads as the same text. [`digest`] is the name that
//!   git gives to a file, and [`digest_of_saved`] that of a file that is not written.
//! - [`matches_at`] is the match of a pattern in a line, of whole words or with letters of either
//!   case.
//!
//! `line` has a line, `text` a text, and `lines` what else may hold the lines of a text;
//! `primitive`, `batch` and `fitting` the primitives; `loading` and `reading`, `saving` and `utf8`,
//! `digests` and `hashing` the files; `words` the matches. `laws` has contracts alone: what holds
//! of all of these.
#![tactic(auto)]

mod batch;
mod digests;
mod fitting;
mod hashing;
pub mod laws;
mod line;
mod lines;
mod loading;
mod primitive;
mod reading;
mod saving;
#[cfg(test)]
mod tests;
mod text;
mod utf8;
mod words;

pub use batch::Batch;
pub use digests::Digest;
pub use fitting::fits;
pub use hashing::{digest, digest_of_saved};
pub use line::{Line, LineFault, is_boundary};
pub use lines::Lines;
pub use loading::{Eol, LoadFault, Loaded, load};
pub use primitive::{Misfit, Primitive};
pub use saving::save;
pub use text::Text;
pub use utf8::{push_utf8, to_utf8};
pub use words::{is_word_unit, matches_at};

/// The greatest size of a text, in units and line ends: 2^26.
pub const MAX_SIZE: u64 = 67_108_864;

/// The longest file that is loaded, in bytes: 3 * 2^26 + 3. A text of the greatest size has at most
/// three bytes for each unit and line end, and a byte order mark has three.
pub const MAX_FILE_LENGTH: u64 = 201_326_595;
