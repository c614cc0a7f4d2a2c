//! The writer of the swap file: each finished transaction is appended to it, and a save empties it.
//!
//! [`Swap`] keeps what the writer must know of the swap file, and each call is lent the disk.
//!
//! - [`Swap::finish`] makes one append, of exactly the bytes of the transaction. The header comes
//!   before the first one.
//! - [`Swap::sync`] makes safe from a crash what was written.
//! - [`Swap::save`] replaces the saved file and empties the swap file, in an order in which neither
//!   is ever without the other's text.
//!
//! Over any disk that tells its moments it is proved which moments each call adds, whatever it
//! returns. While the swap is guarded, an image of each moment recovers to the text after a front of
//! the transactions, which has all that were synced. What a call returns has its cause: a failed
//! call of the disk is counted by the disk, and a swap that was lost stays so until a save.
//!
//! `swap` has the writer, `writing` the bytes of a transaction, `saving` the calls of a save, and
//! `causes` the states and errors.
#![tactic(auto)]

mod causes;
mod saving;
mod swap;
#[cfg(test)]
mod tests;
mod writing;

pub use causes::{SaveFault, SwapFault, SwapState};
pub use swap::Swap;
