use kte_text::Loaded;

/// What a core began from.
#[derive(Drop)]
pub struct Beginning {
    /// The text that was loaded, with its line end and byte order mark.
    pub loaded: Loaded,
    /// The most primitives that can be made.
    pub limit: u64,
}
