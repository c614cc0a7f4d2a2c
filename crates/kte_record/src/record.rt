/// A record of a swap file. Lines and columns count from 0, columns in UTF-16 units.
#[derive(Clone, Copy, Debug, PartialEq, Eq)]
pub enum Record<'a> {
    /// A transaction starts.
    Start,
    /// The transaction is finished.
    Finish,
    /// The line was split in two at the column.
    Wrap {
        line: u32,
        column: u32,
    },
    /// The line was joined to the line before it.
    Unwrap {
        line: u32,
    },
    /// A text in UTF-8 was inserted at the column.
    Insert {
        line: u32,
        column: u32,
        text: &'a [u8],
    },
    /// The units from the column `start` up to the column `end` were removed.
    Remove {
        line: u32,
        start: u32,
        end: u32,
    },
}

/// The greatest line or column of a record: 2^31 - 1, the greatest number of 32 bits with a sign.
pub const MAX_NUMBER: u32 = 2_147_483_647;

/// The longest text of a record, in bytes: 3 * 2^26. A text of the greatest size takes no more in
/// UTF-8.
pub const MAX_TEXT_LENGTH: u32 = 201_326_592;
