//! Recovery: the text of a saved file and of the swap file that an editor left beside it when it
//! was stopped, as Kate's editor component KTextEditor keeps them.
//!
//! [`recover`] applies the transactions of the swap file that have an end to the saved text. It is
//! proved to give the answer that the definitions of `kte_record` name for the two files, field by
//! field, and the only one unless memory runs out.
//!
//! `answer` has the answers, `recovery` the steps up to the records, and `replay` the records over
//! a buffer; `primitive` has the primitive of a record, and `inverse` what takes one back.
#![tactic(auto)]

mod answer;
mod inverse;
mod primitive;
mod recovery;
mod replay;
#[cfg(test)]
mod tests;

pub use answer::{Damage, RecoverFault, Recovered, Tail};
pub use recovery::{recover, recover_loaded};
