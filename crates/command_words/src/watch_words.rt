//! What the program `watch` is asked.

/// What the words of `watch` ask for.
#[derive(Clone, Copy)]
pub struct WatchWords<'a> {
    /// The passphrase of the network.
    pub passphrase: &'a str,
    /// The bytes of the account's public key.
    pub account: [u8; 32],
    /// How many readers, 1 to 4.
    pub readers: u32,
}
